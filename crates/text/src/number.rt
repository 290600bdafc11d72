// Decimal numbers.
ghost use Rattle.std.specs.Prelude.{◌≡◌, ◌<◌, ◌≤◌, ◌^◌};
ghost use Rattle.text.specs.Number.{number_from, digits_below, read_digits, read_number};

// Digits alone, at least one, with a value below the bound.
// Kept (4): std's `parse` is for a `str` and lets a `+` stand first, which a port and Session-Expires may not have; so this would stand beside it.
pub fn digits_below(s: &[u8], bound: u64) -> Option<u32>
    requires { (0 < bound) × (bound ≤ 2 ^ 32) }
    ensures { result ≡ number_from (digits_below bound s.now) }
{
    if s.is_empty() {
        return None;
    }
    let mut v: u64 = 0;
    for &b in s {
        if !b.is_ascii_digit() {
            return None;
        }
        v = v * 10 + ((b - b'0') as u64);
        if bound <= v {
            return None;
        }
    }
    Some(v as u32)
}

// Digits alone, at least one, with a value below 2^32.
pub fn digits_u32(s: &[u8]) -> Option<u32>
    ensures { result ≡ number_from (read_digits 32 s.now) }
{
    digits_below(s, 4294967296)
}

// A number as Rust reads a u32: one `+` may stand first.
pub fn read_u32(s: &[u8]) -> Option<u32>
    ensures { result ≡ number_from (read_number 32 s.now) }
{
    match s {
        [b'+', digits @ ..] => digits_u32(digits),
        _ => digits_u32(s),
    }
}
