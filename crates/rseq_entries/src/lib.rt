// The RSeq store: one entry read at a place, how many entries there are, and where the one of an identifier stands or would go.
#![tactic(auto)]

ghost use Rattle.std.specs.Prelude.{◌≡◌};
ghost use Rattle.ordered_store.specs.Entries.{decode_entries};
ghost use Rattle.ordered_store.specs.Places.{count_of};
ghost use Rattle.dialog_id.specs.IdTexts.{ident_of};
ghost use Rattle.rseq_entries.specs.Entries.{key_of_ident, key_of, entry_form};
ghost use Rattle.rseq_entries.specs.Places.{slot_for};

use dialog_id::IdTexts;
use limits::Refusal;

mod entries;

pub use entries::EntryAt;

// Of lent bytes of which so many are used: the entry of an identifier, or the place where it would go; 3.
// Kept (5, 6): lent bytes and how many are used, as its callers have them, which C calls; that the used length lies within is checked here.
pub fn find(id: IdTexts<'_>, bytes: &[u8], used: usize) -> Result<Result<EntryAt, usize>, Refusal>
    ensures { result ≡ slot_for (key_of_ident (ident_of id.entry)) bytes.now used }
{
    ordered_store::find((), id, bytes, used)
}

// How many entries there are, from the front to the end, each before the next.
pub fn count_entries(bytes: &[u8]) -> Option<usize>
    ensures { result ≡ count_of (decode_entries entry_form key_of bytes.now) }
{
    ordered_store::count_entries::<EntryAt>((), bytes)
}
