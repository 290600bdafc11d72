// DialogManager::all_ids: the identifiers of all records of a lent store, written to lent output.
#![tactic(auto)]

ghost use Rattle.std.specs.Prelude.{◌≡◌, ◌+◌, ◌≤◌, length};
ghost use Rattle.limits.specs.Limits.{rust_limits};
ghost use Rattle.edit.specs.Edit.{over, put_at};
ghost use Rattle.dialog_id.specs.IdTexts.{ident_of, TextsShort};
ghost use Rattle.book.specs.Calls.{read, all_ids};
ghost use Rattle.record.specs.Store.{decode_all};
ghost use Rattle.book.specs.Store.{run, output_after};
ghost use Rattle.dialog_manager.specs.Answers.{ids_written};
ghost use Rattle.store_ids.specs.Identifiers.{ids_in, IdsShort, length_at, texts_bytes};

use codec::{LENGTH_SIZE, write_text};
use dialog_id::IdTexts;
use image::IdsAt;
use limits::Refusal;
use store::{Held, ids_at};

// DialogManager::all_ids: 3, 18. Answers how many bytes of the output were written.
// Kept (5, 6): C says how many of the lent bytes are used, perhaps too many: 3, in its turn among the causes; so both are taken as given.
pub fn all_ids(bytes: &[u8], used: usize, out: &mut [u8]) -> Result<usize, Refusal>
    ensures value { result ≡ ids_written (run rust_limits (read (length bytes.now) (all_ids (length out.old))) bytes.now used).answer }
    ensures out_after { out.new ≡ output_after (run rust_limits (read (length bytes.now) (all_ids (length out.old))) bytes.now used).answer out.old }
{
    let held = store::read(bytes, used)?;
    let n = ids_size(held);
    if out.len() < n {
        return Err(Refusal::NoRoom);
    }
    write_all(held, out);
    Ok(n)
}

// How many bytes the identifiers of all records take.
fn ids_size(held: Held<'_>) -> usize
    ensures { result ≡ length (ids_in (decode_all held.entry.bytes.now)) }
{
    let bytes = held.bytes;
    let mut n = 0;
    for at in held.records() {
        let ids = ids_at(bytes, at);
        n += id_size(ids);
    }
    n
}

// How many bytes an identifier takes: three texts with their length bytes.
fn id_size(ids: IdsAt) -> usize
    requires { IdsShort ids }
    ensures { result ≡ length_at ids }
{
    let id = ids.id;
    LENGTH_SIZE
        + id.call_id.length
        + LENGTH_SIZE
        + id.local_tag.length
        + LENGTH_SIZE
        + id.remote_tag.length
}

// The identifiers of all records, over the front of the output.
fn write_all(held: Held<'_>, out: &mut [u8])
    requires { length (ids_in (decode_all held.bytes.now)) ≤ length out.old }
    ensures { out.new ≡ over (ids_in (decode_all held.entry.bytes.now)) out.old }
{
    let bytes = held.bytes;
    let mut to = 0;
    for at in held.records() {
        let ids = ids_at(bytes, at);
        let id = ids.id.texts(bytes);
        to = write_id(out, to, id);
    }
}

// An identifier at a place of the output: each text with its length bytes. The place after it.
// Kept (2): an empty text is written too, as two length bytes, while `image_writer::write_ids` leaves it out. rseq_manager's `write_entry` has these three
// lines: a function of them would make dialog_id stand on codec, with a contract of its own for lengths, room and bytes.
// Kept (5): a type of three short texts would be put around `id` here and in rseq_manager, and taken off before codec's `write_text`.
fn write_id(out: &mut [u8], to: usize, id: IdTexts<'_>) -> usize
    requires texts_short { TextsShort (ident_of id) }
    requires texts_in_bounds { to + length (texts_bytes (ident_of id)) ≤ length out.old }
    ensures value { result ≡ to + length (texts_bytes (ident_of id.entry)) }
    ensures out_after { out.new ≡ put_at to (texts_bytes (ident_of id.entry)) out.old }
{
    let a = write_text(out, to, id.call_id);
    let b = write_text(out, a, id.local_tag);
    write_text(out, b, id.remote_tag)
}
