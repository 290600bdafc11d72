// What the calls that change one held record have in common: what they leave and answer, as definitions with their laws (specs/ and proofs/), and
// where the record of an identifier stands in a lent store.
#![tactic(auto)]

ghost use Rattle.std.specs.Prelude.{◌≡◌};
ghost use Rattle.dialog_id.specs.IdTexts.{ident_of};
ghost use Rattle.store_entries.specs.Entries.{spot_in, standing_of, Ready};

use dialog_id::IdTexts;
use dialog_manager::search_id;
use image_edit::RecordPlace;
use limits::Refusal;

// 3, 15.
// Kept (5, 6): it asks nothing of its callers: of a `store::Held`, by `read`, it would ask that the store was read.
pub fn locate(bytes: &[u8], used: usize, id: IdTexts<'_>) -> Result<RecordPlace, Refusal>
    ensures value { result ≡ standing_of used (spot_in (ident_of id.entry) bytes.now used) }
    ensures ready { Ready bytes.now result }
{
    let held = store::read(bytes, used)?;
    let (at, record) = search_id(held, id).ok_or(Refusal::NotFound)?;
    Ok(RecordPlace { used, at, record })
}
