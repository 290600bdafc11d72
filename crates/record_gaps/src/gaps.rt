// Two sections of the used bytes made longer or shorter: the bytes between them and those after them move.
ghost use Rattle.std.specs.Prelude.{◌≡◌, ◌+◌, ◌-◌, ◌≤◌, length, take, drop};
ghost use Rattle.edit.specs.Edit.{put_at};

use edit::shift;

// Where a section begins, how long it is, and how long it is to be.
#[derive(Clone, Copy)]
pub struct Gap {
    pub at: usize,
    pub old_length: usize,
    pub new_length: usize,
}

// What lies between the two sections and behind the second goes to its place; the sections' own bytes are left to be written. The bytes between
// move first where they move to the left, those behind where to the right. The new used length.
// Kept (5, 6): the bytes behind the used ones are written too, so that a slice of the used ones would not do.
pub fn open_gaps(bytes: &mut [u8], used: usize, a: Gap, b: Gap) -> usize
    requires in_order { (a.at + a.old_length ≤ b.at) × (b.at + b.old_length ≤ used) × (used ≤ length bytes.old) }
    requires bytes_in_bounds { used - a.old_length - b.old_length + a.new_length + b.new_length ≤ length bytes.old }
    ensures value { result ≡ used - a.old_length - b.old_length + a.new_length + b.new_length }
    ensures bytes_after { bytes.new ≡ put_at (a.at + a.new_length) (take (b.at - (a.at + a.old_length)) (drop (a.at + a.old_length) bytes.old)) (put_at (a.at + a.new_length + (b.at - (a.at + a.old_length)) + b.new_length) (take (used - (b.at + b.old_length)) (drop (b.at + b.old_length) bytes.old)) bytes.old) }
{
    let from = a.at + a.old_length;
    let between = b.at - from;
    let to = a.at + a.new_length;
    let behind = b.at + b.old_length;
    let end = to + between + b.new_length;
    let n = used - behind;
    if to <= from {
        shift(bytes, from, to, between);
        shift(bytes, behind, end, n);
    } else {
        shift(bytes, behind, end, n);
        shift(bytes, from, to, between);
    }
    end + n
}
