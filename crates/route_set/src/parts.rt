// The elements of a header value that commas separate.
ghost use Rattle.std.specs.Prelude.{◌≡◌, ◌+◌, ◌<◌, ◌≤◌, ◌^◌, false, length};
ghost use Rattle.limits.specs.Limits.{rust_limits};
ghost use Rattle.text.specs.Answers.{next_of};
ghost use Rattle.route_set.specs.Parts.{is_cut, quote_after, depth_after, segments, element_from, next_header_value, part_from};
ghost use Rattle.route_set.specs.Cuts.{cut_length};

use limits::Refusal;
use text::{Cut, Segments, Span};

// The next element of a value from a place on: 1, 2. All elements are had by asking from 0 on, and then from each answered
// next place on.
// Kept (5): C gives the two each by itself; a struct of them would be made for this call.
pub fn next_header_value(value: &[u8], from: usize) -> Result<Option<(Span, usize)>, Refusal>
    ensures { result ≡ next_of (next_header_value rust_limits value.now from) }
{
    text::check_value(value)?;
    Ok(next_part(value, from))
}

// The same of a value that was checked.
// Kept (5): C gives the two each by itself, and `Elements` has them as its fields for a walk over all.
pub fn next_part(value: &[u8], from: usize) -> Option<(Span, usize)>
    ensures { result ≡ part_from (element_from value.now from) }
{
    for g in Segments::from(value, from, Comma {}) {
        let p = text::trim_span(g.text);
        if 0 < p.length {
            return Some((p.moved(g.place), g.place + g.text.len() + 1));
        }
    }
    None
}

// Cut at the commas outside quotes and angle brackets.
#[derive(Clone, Copy)]
struct Comma {}

impl Cut for Comma {
    ghost segments = { λ _ s. segments false 0 s };

    fn first(&self, s: &[u8]) -> usize {
        part_length(s)
    }
}

// How many bytes stand before the first comma that cuts.
// Kept (2): `segment_length` of headers is this loop over another state, an enum; a trait for both would have the test and the step that stand
// here, and clauses and laws for them beside.
fn part_length(s: &[u8]) -> usize
    ensures value { result ≡ cut_length false 0 s.now }
    ensures upper_bound { result ≤ length s.now }
{
    let mut quoted = false;
    let mut depth: usize = 0;
    for (i, &b) in s.iter().enumerate() {
        if is_cut(quoted, depth, b) {
            return i;
        }
        quoted = quote_after(quoted, b);
        depth = depth_after(depth, b);
    }
    s.len()
}

// Whether a byte cuts, in quotes or not and at a depth of angle brackets.
// Kept (7): the comma is asked for first: the three tests as one expression take 6 instructions more for each byte in quotes (docs/LOOK-BACK.md).
fn is_cut(quoted: bool, depth: usize, b: u8) -> bool
    ensures { result ≡ is_cut quoted depth b }
{
    if b != b',' {
        return false;
    }
    if quoted {
        return false;
    }
    depth == 0
}

fn quote_after(quoted: bool, b: u8) -> bool
    ensures { result ≡ quote_after quoted b }
{
    if b == b'"' { !quoted } else { quoted }
}

fn depth_after(depth: usize, b: u8) -> usize
    requires { depth + 1 < 2 ^ 64 }
    ensures value { result ≡ depth_after depth b }
    ensures upper_bound { result ≤ depth + 1 }
{
    match b {
        b'<' => depth + 1,
        b'>' => depth.saturating_sub(1),
        _ => depth,
    }
}
