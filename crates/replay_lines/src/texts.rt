// A text of a line: quoted parts that are joined, each with how often it stands, as 300*"\xa5""abc".
ghost use Rattle.std.specs.Prelude.{◌<◌, ◌≤◌, IfSome, length};

// The number with which a line begins, and what follows: at least one digit, and at most 64 bits.
pub fn read_number(line: &[u8]) -> Option<(u64, &[u8])>
    ensures { IfSome result (λ p. length p.1.now ≤ length line.now) }
{
    let n = line.iter().take_while(|b| b.is_ascii_digit()).count();
    let (digits, rest) = line.split_at_checked(n)?;
    let value = str::from_utf8(digits).ok()?.parse().ok()?;
    Some((value, rest))
}

// The joined parts with which a line begins, at least one, written to the bytes from `to` on: where they end, and what follows.
pub fn joined<'a>(line: &'a [u8], bytes: &mut [u8], to: usize) -> Option<(usize, &'a [u8])> {
    let (mut end, mut rest) = repeated(line, bytes, to)?;
    // Kept (3): the next byte decides whether a part follows; no iterator knows where a part ends before it is read.
    while let [b'"' | b'0'..=b'9', ..] = rest {
        let (next, after) = repeated(rest, bytes, end)?;
        end = next;
        rest = after;
    }
    Some((end, rest))
}

// One part, with how often it stands.
fn repeated<'a>(line: &'a [u8], bytes: &mut [u8], to: usize) -> Option<(usize, &'a [u8])>
    ensures { IfSome result (λ p. length p.1.now < length line.now) }
{
    if let [b'"', rest @ ..] = line {
        return quoted(rest, bytes, to);
    }
    let (times, rest) = read_number(line)?;
    let rest = rest.strip_prefix(b"*\"")?;
    let (end, after) = quoted(rest, bytes, to)?;
    Some((repeat(bytes, to, end, times)?, after))
}

// The bytes from `from` to before `to`, so many times: where they end.
fn repeat(bytes: &mut [u8], from: usize, to: usize, times: u64) -> Option<usize> {
    let n = to.checked_sub(from)?;
    if n == 0 || times == 0 {
        return Some(from);
    }
    let end = n.saturating_mul(times as usize).saturating_add(from);
    for k in to..end.min(bytes.len()) {
        bytes[k] = bytes[k - n];
    }
    (end <= bytes.len()).then_some(end)
}

// The rest of a quoted part.
fn quoted<'a>(line: &'a [u8], bytes: &mut [u8], to: usize) -> Option<(usize, &'a [u8])>
    ensures { IfSome result (λ p. length p.1.now < length line.now) }
{
    let mut end = to;
    let mut rest = line;
    // Kept (3): a quoted part ends at its closing quote, which is seen as the bytes before it are read.
    loop {
        if let [b'"', after @ ..] = rest {
            return Some((end, after));
        }
        let (b, after) = letter(rest)?;
        *bytes.get_mut(end)? = b;
        end += 1;
        rest = after;
    }
}

// The byte for which the first bytes of a line stand, and what follows: itself, or `\r`, `\n`, `\"`, `\\`, `\xHH`.
fn letter(line: &[u8]) -> Option<(u8, &[u8])>
    ensures { IfSome result (λ p. length p.1.now < length line.now) }
{
    match line {
        [b'\\', b'r', rest @ ..] => Some((b'\r', rest)),
        [b'\\', b'n', rest @ ..] => Some((b'\n', rest)),
        [b'\\', b @ (b'"' | b'\\'), rest @ ..] => Some((*b, rest)),
        [b'\\', b'x', high, low, rest @ ..] => { Some((digit(*high)? * 16 + digit(*low)?, rest)) }
        [b'\\', ..] | [] => None,
        [b, rest @ ..] => Some((*b, rest)),
    }
}

// What a hexadecimal digit is worth.
// Kept (4): `to_digit(16)` reads capital letters too.
// A list with one is refused today, and would then be read.
fn digit(b: u8) -> Option<u8>
    ensures { IfSome result (λ n. n < 16) }
{
    match b {
        b'0'..=b'9' => Some(b - b'0'),
        b'a'..=b'f' => Some(b - b'a' + 10),
        _ => None,
    }
}
