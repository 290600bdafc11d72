// Classes of bytes in a URI, and one scan for all of them.
#![tactic(auto)]

ghost use Rattle.std.specs.Prelude.{◌≡◌, ◌≤◌, length};
ghost use Rattle.text.specs.Text.{span, all};
ghost use Rattle.uri_bytes.specs.Bytes.{ends_port, ends_host};
ghost use Rattle.uri_bytes.specs.Classes.{in_class, set_of, in_set};

use text::{ByteClass, in_range, run_length};

#[derive(Clone, Copy)]
pub enum Class {
    // Any byte of a URI.
    Uri,
    // The same without `@`.
    User,
    // A byte of a host's name, and of an address in brackets.
    Host,
    Address,
    Digit,
}

// A class as the scan tests it: a range that is tried first, a bit for each byte below 64, and a range for the others.
#[derive(Clone, Copy)]
struct ByteSet {
    low: u8,
    high: u8,
    bits: u64,
    from: u8,
    to: u8,
}

// How many bytes of the class stand first.
pub fn run(s: &[u8], k: Class) -> usize
    ensures value { result ≡ span (in_class k) s.now }
    ensures upper_bound { result ≤ length s.now }
{
    run_length(s, &set_of(k))
}

// Whether every byte is of the class.
pub fn all_of(s: &[u8], k: Class) -> bool
    ensures { result ≡ all (in_class k) s.now }
{
    let n = run(s, k);
    n == s.len()
}

// `;` or `?`: parameters or headers begin.
pub fn ends_port(b: u8) -> bool
    ensures { result ≡ ends_port b }
{
    b == b';' || b == b'?'
}

// `:`, `;` or `?`: the host ends.
pub fn ends_host(b: u8) -> bool
    ensures { result ≡ ends_host b }
{
    b == b':' || ends_port(b)
}

// Kept (7): a table of five rows. As types, as text's classes are, five impls of `ByteClass` would have one body, the test of a set.
fn set_of(k: Class) -> ByteSet
    ensures { result ≡ set_of k }
{
    match k {
        Class::Uri => ByteSet {
            low: b'@',
            high: b'~',
            bits: 0xaffffffa00000000,
            from: 255,
            to: 0,
        },
        Class::User => ByteSet {
            low: b'A',
            high: b'~',
            bits: 0xaffffffa00000000,
            from: 255,
            to: 0,
        },
        Class::Host => ByteSet {
            low: b'a',
            high: b'z',
            bits: 0x03ff600000000000,
            from: b'A',
            to: b'Z',
        },
        Class::Address => ByteSet {
            low: b'a',
            high: b'f',
            bits: 0x07ff400000000000,
            from: b'A',
            to: b'F',
        },
        Class::Digit => ByteSet {
            low: b'0',
            high: b'9',
            bits: 0,
            from: 255,
            to: 0,
        },
    }
}

impl ByteClass for ByteSet {
    ghost test = { λ set b. in_set set b };

    fn has(&self, b: u8) -> bool {
        if in_range(b, self.low, self.high) {
            return true;
        }
        if b < 64 {
            return (self.bits >> b) % 2 == 1;
        }
        in_range(b, self.from, self.to)
    }
}
