// Texts and numbers, each read at a place.
ghost use Rattle.std.specs.Prelude.{◌≡◌, ◌+◌, ◌≤◌, ◌<◌, length, take, drop, Some};
ghost use Rattle.codec.specs.Codec.{text, two, four, eight};
ghost use Rattle.codec.specs.Places.{text_from};

use text::Span;

// The length bytes of a text.
pub const LENGTH_SIZE: usize = 2;

// Two length bytes, then as many bytes.
// Kept (5): what is answered is a place of the whole bytes; of a slice cut at `at` each caller would have to move it by as much.
pub fn read_text(bytes: &[u8], at: usize) -> Option<Span>
    requires { at ≤ length bytes.now }
    ensures { result ≡ text_from at (text.read (drop at bytes.now)) }
{
    if bytes.len() - at < LENGTH_SIZE {
        return None;
    }
    let n = read_two(bytes, at);
    if bytes.len() - at - LENGTH_SIZE < n {
        return None;
    }
    Some(Span {
        start: at + LENGTH_SIZE,
        length: n,
    })
}

// The two bytes at a place, as a number.
// Kept (5): each caller has the bytes and a place among them; lent a slice, each would cut it.
// Kept (2): one line each: `from_be_bytes` is each number type's own, so that a function over the type would need a trait of ours for it.
pub fn read_two(bytes: &[u8], at: usize) -> usize
    requires { at + 2 ≤ length bytes.now }
    ensures bytes_value { two.read (drop at bytes.now) ≡ Some (record { value = result; rest = drop (at + 2) bytes.now }) }
    ensures upper_bound { result < 65536 }
{
    u16::from_be_bytes(bytes_at(bytes, at)) as usize
}

// The four bytes at a place, as a number.
// Kept (5): most callers have the bytes and a place among them; lent a slice, those would cut it.
// Kept (2): one line each: `from_be_bytes` is each number type's own, so that a function over the type would need a trait of ours for it.
pub fn read_four(bytes: &[u8], at: usize) -> u32
    requires { at + 4 ≤ length bytes.now }
    ensures { four.read (drop at bytes.now) ≡ Some (record { value = result; rest = drop (at + 4) bytes.now }) }
{
    u32::from_be_bytes(bytes_at(bytes, at))
}

// The eight bytes at a place, as a number.
// Kept (5): most callers have the bytes and a place among them; lent a slice, those would cut it.
// Kept (2): one line each: `from_be_bytes` is each number type's own, so that a function over the type would need a trait of ours for it.
pub fn read_eight(bytes: &[u8], at: usize) -> u64
    requires { at + 8 ≤ length bytes.now }
    ensures { eight.read (drop at bytes.now) ≡ Some (record { value = result; rest = drop (at + 8) bytes.now }) }
{
    u64::from_be_bytes(bytes_at(bytes, at))
}

// The N bytes at a place.
// Kept (5): the bytes and the place that its three callers are given; cut at the place in each of them, the slice would be made three times.
// Kept (6): the array is what std's `from_be_bytes` takes.
fn bytes_at<const N: usize>(bytes: &[u8], at: usize) -> [u8; N]
    requires { at + N ≤ length bytes.now }
    ensures { result ≡ take N (drop at bytes.now) }
{
    let mut part = [0; N];
    part.copy_from_slice(&bytes[at..at + N]);
    part
}

// A byte as a wider number.
// Kept (4): `usize::from` says what the number is; this says too that it is below 256, for the sums and products of its callers.
pub fn wide(b: u8) -> usize
    ensures { (result ≡ b) × (result < 256) }
{
    b as usize
}
