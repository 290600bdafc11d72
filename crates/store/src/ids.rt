// Where the identifier of a record lies, of bytes that are known to be whole records: by the lengths alone, nothing is checked again.
ghost use Rattle.std.specs.Prelude.{◌≤◌};
ghost use Rattle.record_walk.specs.Walk.{At};
ghost use Rattle.store.specs.Identifiers.{IdsRead, TextTo};

use codec::LENGTH_SIZE;
use dialog_id::DialogId;
use image::IdsAt;
use record_walk::id_ends;
use text::Span;

// The parts of the identifier of the record at a place.
// Kept (5): its callers, four loops over `Records`, have a bare place from it; a struct of bytes and place with `At` as its ghost field would be made at
// each turn for this call, and taken apart in it.
pub fn ids_at(bytes: &[u8], p: usize) -> IdsAt
    requires { At bytes.now p }
    ensures { IdsRead bytes.now p result }
{
    let ends = id_ends(bytes, p);
    let id = DialogId {
        call_id: span_to(p + 2, ends.call_id),
        local_tag: span_to(ends.call_id, ends.local_tag),
        remote_tag: span_to(ends.local_tag, ends.remote_tag),
    };
    IdsAt {
        id,
        end: ends.remote_tag,
    }
}

// The text between two length bytes and an end; an empty one has no length bytes.
// Kept (1): document 01's identifier has three texts, and an absent one is empty: `DialogId` has three parts.
// Kept (5): where a text may begin, behind the map or at the end of the text before, and the end that `id_ends` answers; each pair would be
// a struct made for this call, with the fact that `EndsRead` has.
fn span_to(at: usize, end: usize) -> Span
    requires { at ≤ end }
    ensures { TextTo at end result }
{
    if end - at < LENGTH_SIZE {
        return Span {
            start: at,
            length: 0,
        };
    }
    Span {
        start: at + LENGTH_SIZE,
        length: end - at - LENGTH_SIZE,
    }
}
