// The `tag` parameter of a From or To value.
ghost use Rattle.std.specs.Prelude.{◌≡◌, ◌≤◌, length};
ghost use Rattle.limits.specs.Limits.{rust_limits};
ghost use Rattle.headers.specs.declared.tag.Mode.TheVariants.{Outside as outside};
ghost use Rattle.headers.specs.Tag.{mode_after, is_outside, is_cut, cut_length, is_tag, tag_segments, tag_of, extract_tag, part_of, part_answer};

use limits::Refusal;
use text::{Cut, Segments, Span};

// How a byte of a value is read: outside quotes and angle brackets, in quotes, in quotes right after a backslash, or in brackets.
// Kept (1): four ways of reading of which each byte has one, and none of them an absence.
#[derive(Clone, Copy)]
pub enum Mode {
    Outside,
    Quoted,
    Escaped,
    Bracketed,
}

// The tag of a value, as the value's own bytes: 1, 2, 4.
// Kept (2): a check and a reading, each named once; a function over both would be lent two closures and say no more than these lines.
pub fn extract_tag(value: &[u8]) -> Result<Span, Refusal>
    ensures { result ≡ part_answer (extract_tag rust_limits value.now) }
{
    text::check_value(value)?;
    find_tag(value).ok_or(Refusal::MissingHeader)
}

// What follows `tag=` in the first segment that, trimmed, begins so.
pub fn find_tag(value: &[u8]) -> Option<Span>
    ensures { result ≡ part_of (tag_of value.now) }
{
    for g in Segments::from(value, 0, Unheld {}) {
        let t = text::trim(g.text);
        if is_tag(t) {
            return Some(Span {
                start: g.place + text::leading(g.text) + 4,
                length: t.len() - 4,
            });
        }
    }
    None
}

// Cut at the semicolons outside quotes and angle brackets.
#[derive(Clone, Copy)]
struct Unheld {}

impl Cut for Unheld {
    ghost segments = { λ _ s. tag_segments s };

    fn first(&self, s: &[u8]) -> usize {
        segment_length(s)
    }
}

// How many bytes stand before the first semicolon outside quotes and angle brackets.
// Kept (2): route_set's `part_length` is this loop over another state, a flag and a depth; a trait for both would have the test and the step that
// stand here, and clauses and laws for them beside.
fn segment_length(s: &[u8]) -> usize
    ensures value { result ≡ cut_length outside s.now }
    ensures upper_bound { result ≤ length s.now }
{
    let mut mode = Mode::Outside;
    for (i, &b) in s.iter().enumerate() {
        if is_cut(mode, b) {
            return i;
        }
        mode = mode_after(mode, b);
    }
    s.len()
}

fn is_cut(mode: Mode, b: u8) -> bool
    ensures { result ≡ is_cut mode b }
{
    b == b';' && is_outside(mode)
}

fn is_outside(mode: Mode) -> bool
    ensures { result ≡ is_outside mode }
{
    matches!(mode, Mode::Outside)
}

// How the byte after b is read.
fn mode_after(mode: Mode, b: u8) -> Mode
    ensures { result ≡ mode_after mode b }
{
    match (mode, b) {
        (Mode::Outside, b'"') | (Mode::Escaped, _) => Mode::Quoted,
        (Mode::Outside, b'<') => Mode::Bracketed,
        (Mode::Quoted, b'\\') => Mode::Escaped,
        (Mode::Quoted, b'"') | (Mode::Bracketed, b'>') => Mode::Outside,
        _ => mode,
    }
}

// Whether the first four bytes are `tag=`, letter case ignored.
fn is_tag(t: &[u8]) -> bool
    ensures { result ≡ is_tag t.now }
{
    text::starts_with(t, b"tag=")
}
