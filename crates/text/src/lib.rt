// Bytes and ASCII: classes of bytes, blanks at both ends, letter case, words, and decimal numbers.
#![tactic(auto)]

ghost use Rattle.std.specs.Prelude.{◌≡◌, ◌+◌, ◌<◌, ◌≤◌, ◌^◌, length, take, MatchOption};
ghost use Rattle.limits.specs.Limits.{rust_limits};
ghost use Rattle.limits.specs.Outcome.{check_of};
ghost use Rattle.text.specs.Answers.{too_long, length_cause, value_cause};
ghost use Rattle.text.specs.Text.{within, is_blank, is_value, other, span, all, blanks, text_end, trimmed, trimmed_span, same, equal, word_span};
ghost use Rattle.text.specs.Spans.{part_in, moved_span, PartWithin};

use class::{Blank, Dark, Other, Value, Visible};
use limits::{Limits, Refusal};

mod class;
mod number;
mod piece;
mod segments;

pub use class::{ByteClass, run_length};
pub use number::{digits_below, digits_u32, read_u32};
pub use piece::Part;
pub use segments::{Cut, Segments};

// Where a part of a text stands: its first place and its length.
#[derive(Clone, Copy)]
pub struct Span {
    pub start: usize,
    pub length: usize,
}

impl Span {
    // The place after it.
    pub fn end(self) -> usize
        requires { self.start + self.length < 2 ^ 64 }
        ensures { result ≡ self.start + self.length }
    {
        self.start + self.length
    }

    // The bytes that it names.
    // Kept (5): `Part` holds both; a `Span` is what answers and tables keep, without the text's lifetime, and what C is told.
    pub fn text<'a>(self, bytes: &'a [u8]) -> &'a [u8]
        requires { PartWithin bytes.now self }
        ensures { result.now ≡ part_in bytes.now self }
    {
        &bytes[self.start..self.end()]
    }

    // The same part, in a text in which the one that it was read in stands at `by`.
    pub fn moved(self, by: usize) -> Span
        requires { by + self.start < 2 ^ 64 }
        ensures { result ≡ moved_span by self }
    {
        Span {
            start: by + self.start,
            length: self.length,
        }
    }
}

// Whether a text is longer than may be given.
pub fn too_long(s: &[u8]) -> bool
    ensures { result ≡ too_long rust_limits s.now }
{
    Limits::MAX_TEXT_LENGTH < s.len()
}

// The check of a text's length: 1.
pub fn check_length(t: &[u8]) -> Result<(), Refusal>
    ensures { result ≡ check_of (length_cause rust_limits t.now) }
{
    if too_long(t) {
        return Err(Refusal::TextTooLong);
    }
    Ok(())
}

// The check of a value that is given alone: 1, 2.
// Kept (2): two tests, each with its cause; one function for this and the check of a block would take the second test and say no more.
#[tactic(auto, unfolding(crate::specs::Answers::value_cause))]
pub fn check_value(s: &[u8]) -> Result<(), Refusal>
    ensures { result ≡ check_of (value_cause rust_limits s.now) }
{
    check_length(s)?;
    if !all_value(s) {
        return Err(Refusal::Malformed);
    }
    Ok(())
}

pub fn is_blank(b: u8) -> bool
    ensures { result ≡ is_blank b }
{
    b == b' ' || b == b'\t'
}

// Whether a byte is one of a range.
pub fn in_range(b: u8, low: u8, high: u8) -> bool
    ensures { result ≡ within low high b }
{
    low <= b && b <= high
}

// Whether a value may have this byte: the tab, and the space to `~`.
pub fn is_value(b: u8) -> bool
    ensures { result ≡ is_value b }
{
    in_range(b, 32, 126) || b == b'\t'
}

// The index of the first x.
pub fn find(s: &[u8], x: u8) -> Option<usize>
    ensures { MatchOption result (length s.now ≡ span (other x) s.now) (λ n. (n ≡ span (other x) s.now) × (n < length s.now)) }
{
    let n = run_length(s, &Other { byte: x });
    (n < s.len()).then_some(n)
}

// How many bytes that a value may have stand first.
pub fn value_length(s: &[u8]) -> usize
    ensures value { result ≡ span is_value s.now }
    ensures upper_bound { result ≤ length s.now }
{
    // Tabs are rare: the first run is one test a byte.
    let n = run_length(s, &Visible {});
    n + run_length(&s[n..], &Value {})
}

// Whether a value may have each of these bytes.
pub fn all_value(s: &[u8]) -> bool
    ensures { result ≡ all is_value s.now }
{
    let n = value_length(s);
    n == s.len()
}

// How many blanks stand first.
pub fn leading(s: &[u8]) -> usize
    ensures value { result ≡ blanks s.now }
    ensures upper_bound { result ≤ length s.now }
{
    run_length(s, &Blank {})
}

// The length without the blanks that stand last.
fn text_end(s: &[u8]) -> usize
    ensures value { result ≡ text_end s.now }
    ensures upper_bound { result ≤ length s.now }
{
    // Kept (1): by `map_or` the proof stayed open: what `rposition` says of its answer is known in the arms of a `match`.
    match s.iter().rposition(|&b| !is_blank(b)) {
        Some(last) => last + 1,
        None => 0,
    }
}

// The bytes without the blanks at both ends, as a part of the caller's.
pub fn trim(s: &[u8]) -> &[u8]
    ensures { result.now ≡ trimmed s.now }
{
    let a = leading(s);
    let t = &s[a..];
    let e = text_end(t);
    &t[..e]
}

// Where the text without its blanks stands.
pub fn trim_span(s: &[u8]) -> Span
    ensures value { result ≡ trimmed_span s.now }
    ensures length_in_bounds { result.start + result.length ≤ length s.now }
{
    let a = leading(s);
    let e = text_end(&s[a..]);
    Span {
        start: a,
        length: e,
    }
}

// The first word, empty where there is none.
// Kept (1): no word is empty, so that an empty part says none; no number and no method is read of it, as none would be of an `Option`.
pub fn first_word(s: &[u8]) -> Span
    ensures value { result ≡ word_span s.now }
    ensures length_in_bounds { result.start + result.length ≤ length s.now }
{
    let a = leading(s);
    let n = run_length(&s[a..], &Dark {});
    Span {
        start: a,
        length: n,
    }
}

// The same bytes, letter case ignored.
// Kept (4, 5): the two texts of a comparison. std's method takes 88 instructions for 4 equal bytes and 564 for 32, this form 46 and 242 (callgrind); each URI of a
// record begins by such a comparison, and a request at 1,000 records takes 3,578 a record, of the 3,600 that issue 19 gives.
pub fn same_text(a: &[u8], b: &[u8]) -> bool
    ensures { result ≡ same a.now b.now }
{
    // Most bytes are the same, so that is asked first.
    a.len() == b.len()
        && a.iter()
            .zip(b.iter())
            .all(|(x, y)| x == y || x.eq_ignore_ascii_case(y))
}

// Whether the text begins with these bytes, letter case ignored.
pub fn starts_with(s: &[u8], head: &[u8]) -> bool
    ensures { result ≡ same (take (length head.now) s.now) head.now }
{
    s.get(..head.len())
        .is_some_and(|front| same_text(front, head))
}

// The same bytes.
// Kept (4, 5): the two sides of a comparison; that `==` is what the definitions call `equal` takes a proof, which stands here once for the four
// comparisons; by a `match` on the byte strings each of their bytes was a goal that stayed open.
pub fn equal_text(a: &[u8], b: &[u8]) -> bool
    ensures { result ≡ equal a.now b.now }
{
    a == b
}
