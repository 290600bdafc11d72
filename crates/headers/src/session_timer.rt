// The Session-Expires header: an interval in seconds, and who refreshes it.
ghost use Rattle.std.specs.Prelude.{◌≡◌};
ghost use Rattle.limits.specs.Limits.{rust_limits};
ghost use Rattle.text.specs.Number.{number_from, read_digits};
ghost use Rattle.text.specs.Text.{is, other, split};
ghost use Rattle.headers.specs.SessionExpires.{refresher_in, session_expires, expires_named, parse_expires, block_expires, expires_from, expires_answer};

use limits::Refusal;
use text::{ByteClass, Cut, Segments};

// Who refreshes a session, each with its number in an image and for a C caller.
#[derive(Clone, Copy)]
pub enum Refresher {
    Uac = 1,
    Uas = 2,
}

// The interval of a value: 1, 2.
// Kept (2): a check and a reading, each named once; a function over both would be lent two closures and say no more than these lines.
pub fn parse_session_expires(value: &[u8]) -> Result<Option<(u32, Option<Refresher>)>, Refusal>
    ensures { result ≡ expires_answer (parse_expires rust_limits value.now) }
{
    text::check_value(value)?;
    Ok(read_expires(value))
}

// The interval of a block's first Session-Expires line: 1, 2.
// Kept (2): a check and a reading, each named once; a function over both would be lent two closures and say no more than these lines.
pub fn session_expires(block: &[u8]) -> Result<Option<(u32, Option<Refresher>)>, Refusal>
    ensures { result ≡ expires_answer (block_expires rust_limits block.now) }
{
    msg::check_block(block)?;
    Ok(expires_named(block))
}

// The same of a block that was checked.
pub fn expires_named(block: &[u8]) -> Option<(u32, Option<Refresher>)>
    ensures { result ≡ expires_from (expires_named block.now) }
{
    let (v, _) = msg::find(block, b"Session-Expires")?;
    read_expires(v.text(block))
}

// The digits before the first semicolon, then the first part that names a refresher.
// Kept (1): document 01 has the reading of a number opened by `let .. else`.
pub fn read_expires(value: &[u8]) -> Option<(u32, Option<Refresher>)>
    ensures { result ≡ expires_from (session_expires value.now) }
{
    let Some(n) = text::find(value, b';') else {
        let Some(seconds) = read_seconds(text::trim(value)) else {
            return None;
        };
        return Some((seconds, None));
    };
    let Some(seconds) = read_seconds(text::trim(&value[..n])) else {
        return None;
    };
    Some((seconds, find_refresher(&value[n + 1..])))
}

// Digits alone: no sign stands before them.
fn read_seconds(s: &[u8]) -> Option<u32>
    ensures { result ≡ number_from (read_digits 32 s.now) }
{
    text::digits_u32(s)
}

// The first part between semicolons that names a refresher.
fn find_refresher(parts: &[u8]) -> Option<Refresher>
    ensures { result ≡ refresher_in (split (is 59) parts.now) }
{
    for p in Segments::from(parts, 0, Semicolon {}) {
        let part = text::trim(p.text);
        if text::same_text(part, b"refresher=uac") {
            return Some(Refresher::Uac);
        }
        if text::same_text(part, b"refresher=uas") {
            return Some(Refresher::Uas);
        }
    }
    None
}

// Cut at every semicolon.
#[derive(Clone, Copy)]
struct Semicolon {}

impl Cut for Semicolon {
    ghost segments = { λ _ s. split (is 59) s };

    fn first(&self, s: &[u8]) -> usize {
        text::run_length(s, &NoSemicolon {})
    }
}

// All bytes but the semicolon.
#[derive(Clone, Copy)]
struct NoSemicolon {}

impl ByteClass for NoSemicolon {
    ghost test = { λ _ b. other 59 b };

    fn has(&self, b: u8) -> bool {
        b != b';'
    }
}
