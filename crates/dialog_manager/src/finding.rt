// The first record of an identifier, or of a Call-ID, in a store's used bytes.
ghost use Rattle.std.specs.Prelude.{◌≡◌, Bool};
ghost use Rattle.text.specs.Text.{equal};
ghost use Rattle.text.specs.Spans.{part_in, PartWithin};
ghost use Rattle.record.specs.Record.{Record};
ghost use Rattle.record.specs.Store.{decode_all};
ghost use Rattle.dialog_manager.specs.Search.{named, of_call_id, named_at, HeldTo, IdsWithin, found_in, Stands};

use dialog_id::IdTexts;
use image::{IdsAt, RecordAt};
use store::{Held, ids_at};
use text::Span;

// By the identifier.
// Kept (5): what is looked for, and the store it is looked for in: each is used with others too.
pub fn search_id(held: Held<'_>, id: IdTexts<'_>) -> Option<(usize, RecordAt)>
    ensures value { result ≡ found_in (named id.entry.call_id.now id.entry.local_tag.now id.entry.remote_tag.now) (decode_all held.entry.bytes.now) }
    ensures stands { Stands held.entry.bytes.now result }
{
    search(held, &OfId { id })
}

// Which record is looked for.
pub trait Wanted {
    ghost test: { Self → Record → Bool };

    // Whether it is the one whose identifier lies at these places.
    // Kept (5): the bytes are those of the store searched, and the places are others at each record: a struct of both, with `IdsWithin` as its
    // ghost field, would be made and proved anew at each.
    fn is_at(&self, bytes: &[u8], ids: IdsAt) -> bool
        requires { IdsWithin bytes.now ids }
        ensures { HeldTo (test self.now) bytes.now ids result };
}

// The record of an identifier.
#[derive(Clone, Copy)]
pub struct OfId<'a> {
    pub id: IdTexts<'a>,
}

impl<'a> Wanted for OfId<'a> {
    ghost test = { λ w. named w.id.call_id.now w.id.local_tag.now w.id.remote_tag.now };

    // Kept (5): the trait's parameters.
    fn is_at(&self, bytes: &[u8], ids: IdsAt) -> bool {
        is_named(bytes, ids, self.id)
    }
}

// Each record of a Call-ID.
#[derive(Clone, Copy)]
pub struct OfCallId<'a> {
    pub call_id: &'a [u8],
}

impl<'a> Wanted for OfCallId<'a> {
    ghost test = { λ w. of_call_id w.call_id.now };

    // Kept (5): the trait's parameters.
    fn is_at(&self, bytes: &[u8], ids: IdsAt) -> bool {
        is_part(bytes, ids.id.call_id, self.call_id)
    }
}

// The first of those looked for.
pub fn search<W: Wanted>(held: Held<'_>, wanted: &W) -> Option<(usize, RecordAt)>
    ensures value { result ≡ found_in (W.test wanted.now) (decode_all held.entry.bytes.now) }
    ensures stands { Stands held.entry.bytes.now result }
{
    let bytes = held.bytes;
    for at in held.records() {
        let ids = ids_at(bytes, at);
        if wanted.is_at(bytes, ids) {
            let r = image::read_record(bytes, at)?;
            return Some((at, r));
        }
    }
    None
}

// The texts at these places are the identifier's.
// Kept (4): part by part, as `named_at` says it, the clause is found alone; by the derived `==` of `IdTexts` two lines less and a lemma more, that it is
// `named_at`, and 0 to 5 instructions more (PERFORMANCE).
// Kept (5): the parameters are those of `is_at`.
fn is_named(bytes: &[u8], ids: IdsAt, id: IdTexts<'_>) -> bool
    requires { IdsWithin bytes.now ids }
    ensures { result ≡ named_at bytes.now ids id.entry.call_id.now id.entry.local_tag.now id.entry.remote_tag.now }
{
    is_part(bytes, ids.id.call_id, id.call_id)
        && is_part(bytes, ids.id.local_tag, id.local_tag)
        && is_part(bytes, ids.id.remote_tag, id.remote_tag)
}

// The bytes that a span names are the text.
// Kept (5): the fact is the clause of `Span::text`, by which the bytes of the part are had; a `Part` made of both would be taken apart at once.
pub fn is_part(bytes: &[u8], part: Span, t: &[u8]) -> bool
    requires { PartWithin bytes.now part }
    ensures { result ≡ equal (part_in bytes.now part) t.now }
{
    text::equal_text(part.text(bytes), t)
}
