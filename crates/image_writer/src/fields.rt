// The fields of an image, each written at a place. A field whose bit doesn't stand takes no bytes. Each answers the place after it.
ghost use Rattle.std.specs.Prelude.{◌≡◌, ◌+◌, ◌≤◌, ◌<◌, length, ltb};
ghost use Rattle.edit.specs.Edit.{put_at};
ghost use Rattle.record.specs.NumbersForm.{number_in};
ghost use Rattle.record.specs.Record.{is_filled, is_given, id_text, number, optional};

use codec::{write_four, write_text};

// An identifier part: nothing where it is empty.
// Kept (1): an image leaves out a part that is empty (docs/LAYOUTS.md), and a tag that was read may be empty: an `Option` would be made of the same test.
// Kept (5): a writer of `&mut [u8]` and place would need a clause that names the writer's reference in each function that is lent it,
// beside those about bytes and place: three where two stand.
pub fn write_id(out: &mut [u8], at: usize, t: &[u8]) -> usize
    requires { (length t.now < 65536) × (at + length ((id_text (is_filled t.now)).write t.now) ≤ length out.old) }
    ensures value { result ≡ at + length ((id_text (is_filled t.now)).write t.now) }
    ensures out_after { out.new ≡ put_at at ((id_text (is_filled t.now)).write t.now) out.old }
{
    if t.is_empty() {
        return at;
    }
    write_text(out, at, t)
}

// A number that isn't 0; nothing where it is.
// Kept (5): a writer of `&mut [u8]` and place would need a clause that names the writer's reference in each function that is lent it,
// beside those about bytes and place: three where two stand.
pub fn write_number(out: &mut [u8], at: usize, n: u32) -> usize
    requires { at + length ((number (ltb 0 n)).write n) ≤ length out.old }
    ensures value { result ≡ at + length ((number (ltb 0 n)).write n) }
    ensures out_after { out.new ≡ put_at at ((number (ltb 0 n)).write n) out.old }
{
    if n == 0 {
        return at;
    }
    write_four(out, at, n)
}

// A number that may be absent.
// Kept (5): a writer of `&mut [u8]` and place would need a clause that names the writer's reference in each function that is lent it,
// beside those about bytes and place: three where two stand.
pub fn write_optional(out: &mut [u8], at: usize, n: Option<u32>) -> usize
    requires { at + length ((optional (is_given (number_in n))).write (number_in n)) ≤ length out.old }
    ensures value { result ≡ at + length ((optional (is_given (number_in n))).write (number_in n)) }
    ensures out_after { out.new ≡ put_at at ((optional (is_given (number_in n))).write (number_in n)) out.old }
{
    let Some(k) = n else {
        return at;
    };
    write_four(out, at, k)
}
