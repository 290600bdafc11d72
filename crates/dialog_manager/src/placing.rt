// The place of a record in the used bytes of a store that was read.
ghost use Rattle.std.specs.Prelude.{◌≡◌};
ghost use Rattle.text.specs.Spans.{part_in, PartWithin};
ghost use Rattle.record.specs.Store.{decode_all};
ghost use Rattle.dialog_manager.specs.Search.{named};
ghost use Rattle.dialog_manager.specs.Lookups.{answer_in, place_in};

use crate::finding::{OfId, Wanted, search};
use dialog_id::DialogId;
use limits::Refusal;
use store::Held;

// Of the first of those looked for: 15.
pub fn place<W: Wanted>(held: Held<'_>, wanted: &W) -> Result<(usize, usize), Refusal>
    ensures { answer_in result ≡ place_in (W.test wanted.now) (decode_all held.entry.bytes.now) }
{
    let (at, r) = search(held, wanted).ok_or(Refusal::NotFound)?;
    Ok((at, r.end - at))
}

// By the identifier that was read from a request; its local tag is the record's remote one: 15.
pub fn place_of_request(
    block: &[u8],
    i: DialogId,
    held: Held<'_>,
) -> Result<(usize, usize), Refusal>
    requires { PartWithin block.now i.call_id × PartWithin block.now i.local_tag × PartWithin block.now i.remote_tag }
    ensures { answer_in result ≡ place_in (named (part_in block.now i.call_id) (part_in block.now i.remote_tag) (part_in block.now i.local_tag)) (decode_all held.entry.bytes.now) }
{
    let id = i.swapped().texts(block);
    place(held, &OfId { id })
}
