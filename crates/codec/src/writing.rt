// Texts and numbers, each written at a place. Each answers the place after it.
ghost use Rattle.std.specs.Prelude.{◌≡◌, ◌∷◌, [], ◌+◌, ◌≤◌, ◌<◌, length};
ghost use Rattle.edit.specs.Edit.{put_at};
ghost use Rattle.codec.specs.Codec.{two, four, eight, text};

use edit::put;

// Two length bytes, and the text.
// Kept (5): a writer of bytes and place would need a clause about its reference in each function that is lent it, beside those about the bytes and
// the place: three where two stand.
pub fn write_text(out: &mut [u8], at: usize, t: &[u8]) -> usize
    requires { (length t.now < 65536) × (at + 2 + length t.now ≤ length out.old) }
    ensures value { result ≡ at + length (text.write t.now) }
    ensures out_after { out.new ≡ put_at at (text.write t.now) out.old }
{
    let a = write_two(out, at, t.len());
    put(out, a, t);
    a + t.len()
}

// One byte.
// Kept (5): a writer of bytes and place would need a clause about its reference in each function that is lent it, beside those about the bytes and
// the place: three where two stand.
pub fn write_byte(out: &mut [u8], at: usize, b: u8) -> usize
    requires { at + 1 ≤ length out.old }
    ensures value { result ≡ at + 1 }
    ensures out_after { out.new ≡ put_at at (b ∷ []) out.old }
{
    put(out, at, &[b]);
    at + 1
}

// A number of two bytes, the higher first.
// Kept (5): a writer of bytes and place would need a clause about its reference in each function that is lent it, beside those about the bytes and
// the place: three where two stand.
// Kept (2): two lines: a function over `[u8; N]` would make them one, and have a contract of its own.
pub fn write_two(out: &mut [u8], at: usize, n: usize) -> usize
    requires { (n < 65536) × (at + 2 ≤ length out.old) }
    ensures value { result ≡ at + 2 }
    ensures out_after { out.new ≡ put_at at (two.write n) out.old }
{
    put(out, at, &(n as u16).to_be_bytes());
    at + 2
}

// A number of four bytes, the highest first.
// Kept (5): a writer of bytes and place would need a clause about its reference in each function that is lent it, beside those about the bytes and
// the place: three where two stand.
// Kept (2): two lines: a function over `[u8; N]` would make them one, and have a contract of its own.
pub fn write_four(out: &mut [u8], at: usize, n: u32) -> usize
    requires { at + 4 ≤ length out.old }
    ensures value { result ≡ at + 4 }
    ensures out_after { out.new ≡ put_at at (four.write n) out.old }
{
    put(out, at, &n.to_be_bytes());
    at + 4
}

// A number of eight bytes, the highest first.
// Kept (5): a writer of bytes and place would need a clause about its reference in each function that is lent it, beside those about the bytes and
// the place: three where two stand.
// Kept (2): two lines: a function over `[u8; N]` would make them one, and have a contract of its own.
pub fn write_eight(out: &mut [u8], at: usize, n: u64) -> usize
    requires { at + 8 ≤ length out.old }
    ensures value { result ≡ at + 8 }
    ensures out_after { out.new ≡ put_at at (eight.write n) out.old }
{
    put(out, at, &n.to_be_bytes());
    at + 8
}
