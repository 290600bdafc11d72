// Texts and pieces written into lent bytes, 18 where they have no room.
#![tactic(auto)]

ghost use Rattle.std.specs.Prelude.{◌≡◌, ◌+◌, ◌≤◌, length, take};
ghost use Rattle.edit.specs.Edit.{spliced};
ghost use Rattle.output.specs.Output.{fitted, leaves, written_from};

use limits::Refusal;

// A text over the front of lent bytes: 18.
pub fn put(text: &[u8], out: &mut [u8]) -> Result<usize, Refusal>
    ensures value { result ≡ written_from (fitted (length out.old) text.now) }
    ensures out_after { out.new ≡ leaves (fitted (length out.old) text.now) out.old }
{
    if out.len() < text.len() {
        return Err(Refusal::NoRoom);
    }
    edit::put(out, 0, text);
    Ok(text.len())
}

// A piece for the old_length used bytes at a place: 18. The new used length.
// Kept (5, 6): bytes past the used ones are written where the piece is longer. Where the old bytes stand and how many they are, each caller has of
// its record or entry; the new length is the piece's own.
pub fn replace(
    bytes: &mut [u8],
    used: usize,
    at: usize,
    old_length: usize,
    piece: &[u8],
) -> Result<usize, Refusal>
    requires { (at + old_length ≤ used) × (used ≤ length bytes.old) }
    ensures value { result ≡ written_from (fitted (length bytes.old) (spliced at old_length piece.now (take used bytes.old))) }
    ensures bytes_after { bytes.new ≡ leaves (fitted (length bytes.old) (spliced at old_length piece.now (take used bytes.old))) bytes.old }
{
    if bytes.len() - (used - old_length) < piece.len() {
        return Err(Refusal::NoRoom);
    }
    Ok(edit::replace(bytes, used, at, old_length, piece))
}
