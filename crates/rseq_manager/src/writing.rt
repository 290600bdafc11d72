// Entries written at their places.
ghost use Rattle.std.specs.Prelude.{◌≡◌, ◌+◌, ◌≤◌, length, take};
ghost use Rattle.edit.specs.Edit.{put_at, spliced};
ghost use Rattle.output.specs.Output.{fitted, leaves};
ghost use Rattle.dialog_id.specs.IdTexts.{ident_of, TextsShort};
ghost use Rattle.rseq_entries.specs.Entries.{entry_form};
ghost use Rattle.rseq_manager.specs.RSeq.{numbered};
ghost use Rattle.rseq_manager.specs.Answers.{numbered_from};

use codec::LENGTH_SIZE;
use dialog_id::IdTexts;
use limits::Refusal;

// A new entry put in at a place of the used bytes: 18. The number, and the new used length.
// Kept (2, 5, 6): the bytes past the used ones are room for the entry. `prack_entries` has the test and the move too: one function of the two would answer by
// `fitted` of bytes that aren't there yet, for two lines in two callers.
pub fn insert(
    id: IdTexts<'_>,
    number: u32,
    bytes: &mut [u8],
    used: usize,
    at: usize,
) -> Result<(u32, usize), Refusal>
    requires texts_short { TextsShort (ident_of id) }
    requires at_le_used { (at ≤ used) × (used ≤ length bytes.old) }
    ensures value { result ≡ numbered_from number (fitted (length bytes.old) (spliced at 0 (entry_form.write (numbered (ident_of id.entry) number)) (take used bytes.old))) }
    ensures bytes_after { bytes.new ≡ leaves (fitted (length bytes.old) (spliced at 0 (entry_form.write (numbered (ident_of id.entry) number)) (take used bytes.old))) bytes.old }
{
    let lengths = LENGTH_SIZE * 3;
    let texts = id.call_id.len() + id.local_tag.len() + id.remote_tag.len();
    let size = lengths + texts + 4;
    if bytes.len() - used < size {
        return Err(Refusal::NoRoom);
    }
    let n = edit::move_tail(bytes, used, at, 0, size);
    write_entry(id, number, bytes, at);
    Ok((number, n))
}

// Three texts with their length bytes, and the number, at a place.
// Kept (2): `store_ids::write_id` has three of these lines; a function of them would make dialog_id stand on codec, with a contract of its own for lengths,
// room and bytes.
// Kept (5): written at a place of bytes, as each part of it is by codec.
fn write_entry(id: IdTexts<'_>, number: u32, bytes: &mut [u8], at: usize)
    requires texts_short { TextsShort (ident_of id) }
    requires number_in_bounds { at + length (entry_form.write (numbered (ident_of id) number)) ≤ length bytes.old }
    ensures { bytes.new ≡ put_at at (entry_form.write (numbered (ident_of id.entry) number)) bytes.old }
{
    let a = codec::write_text(bytes, at, id.call_id);
    let b = codec::write_text(bytes, a, id.local_tag);
    let c = codec::write_text(bytes, b, id.remote_tag);
    codec::write_four(bytes, c, number);
}
