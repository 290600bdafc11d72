// Edits in place: a piece written over lent bytes, and the used bytes after it moved to the left or to the right.
#![tactic(auto)]

ghost use Rattle.std.specs.Prelude.{◌≡◌, ◌+◌, ◌-◌, ◌≤◌, length, take, drop};
ghost use Rattle.edit.specs.Edit.{put_at, over, spliced, tail_moved};

// The old_length bytes at a place, of the used ones, replaced by a piece. The new used length.
// Kept (5, 6): the bytes past the used ones are room for a longer piece, so they are lent whole, with how many are used. Where the old bytes stand
// and how many they are, each caller has of its record or entry; the new length is the piece's own.
pub fn replace(bytes: &mut [u8], used: usize, at: usize, old_length: usize, piece: &[u8]) -> usize
    requires { (at + old_length ≤ used) × (used ≤ length bytes.old) × (used - old_length + length piece.now ≤ length bytes.old) }
    ensures value { result ≡ used - old_length + length piece.now }
    ensures bytes_after { bytes.new ≡ over (spliced at old_length piece.now (take used bytes.old)) bytes.old }
{
    let n = move_tail(bytes, used, at, old_length, piece.len());
    put(bytes, at, piece);
    n
}

// The used bytes after the old_length ones at a place, moved to where they follow new_length bytes. The new used length.
// Kept (5, 6): the bytes past the used ones are room for a longer piece, so they are lent whole, with how many are used. A struct, as
// `record_gaps::Gap` is where two places change at once, would be made for each call.
pub fn move_tail(
    bytes: &mut [u8],
    used: usize,
    at: usize,
    old_length: usize,
    new_length: usize,
) -> usize
    requires { (at + old_length ≤ used) × (used ≤ length bytes.old) × (used - old_length + new_length ≤ length bytes.old) }
    ensures value { result ≡ used - old_length + new_length }
    ensures bytes_after { bytes.new ≡ tail_moved used at old_length new_length bytes.old }
{
    let from = at + old_length;
    let to = at + new_length;
    let n = used - from;
    shift(bytes, from, to, n);
    to + n
}

// A piece over the bytes from a place on.
// Kept (5): each caller has the bytes and a place among them; lent the slice, each would cut it, and say of all bytes what this clause says.
pub fn put(bytes: &mut [u8], at: usize, piece: &[u8])
    requires { at + length piece.now ≤ length bytes.old }
    ensures { bytes.new ≡ put_at at piece.now bytes.old }
{
    bytes[at..at + piece.len()].copy_from_slice(piece);
}

// The n bytes from a place on, moved to another, down or up; none is touched where both are one place.
// The two laws prove a move in two parts, each right order of them: must-fail/wrong_way has the wrong ones.
#[tactic(auto, using(crate::proofs::EditLaws::low_first, crate::proofs::EditLaws::high_first))]
pub fn shift(bytes: &mut [u8], from: usize, to: usize, n: usize)
    requires { (from + n ≤ length bytes.old) × (to + n ≤ length bytes.old) }
    ensures { bytes.new ≡ put_at to (take n (drop from bytes.old)) bytes.old }
{
    if from == to {
        return;
    }
    bytes.copy_within(from..from + n, to);
}
