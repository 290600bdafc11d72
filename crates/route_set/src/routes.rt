// The Contact's URI, and the route set of a block's Record-Route lines.
ghost use Rattle.std.specs.Prelude.{◌≡◌, ◌+◌, ◌<◌, ◌≤◌, ◌^◌, length};
ghost use Rattle.limits.specs.Limits.{rust_limits};
ghost use Rattle.text.specs.Answers.{lookup_of, span_of};
ghost use Rattle.text.specs.Pieces.{piece_of};
ghost use Rattle.text.specs.Text.{moved_piece};
ghost use Rattle.msg.specs.Table.{value_at, end_of};
ghost use Rattle.route_set.specs.Routes.{contact, contact_of, uri_in, contact_from, route_elements, route_count, route_at, count_of};
ghost use Rattle.route_set.specs.Scan.{scan, element_of, element_from, route_in};
ghost use Rattle.uri.specs.HeaderUri.{header_uri};

use crate::elements::Elements;
use limits::{Limits, Refusal};
use msg::Values;
use text::{Part, Span};

// The URI of the first Contact line, if it is readable: 1, 2.
// Kept (2): a check and a reading, each named once; a function over both would be lent two closures and say no more than these lines.
pub fn read_contact(block: &[u8]) -> Result<Option<Span>, Refusal>
    ensures { result ≡ lookup_of (contact rust_limits block.now) }
{
    msg::check_block(block)?;
    Ok(find_contact(block))
}

// The same of a block that was checked.
// Kept (2): a look-up and a reading, each named once; a function over both would be lent a name and a closure for two lines.
pub fn find_contact(block: &[u8]) -> Option<Span>
    ensures { result ≡ contact_from (contact_of block.now) }
{
    let line = msg::find(block, b"Contact");
    contact_at(block, line)
}

// The URI of a line that was looked up.
// Kept (1): document 01 has the reading of a URI opened by `let .. else`.
// Kept (5): a line that was looked up is its place and the next line's, kept without a lifetime (`HeaderTable` has eight); a `text::Part` would
// carry the text beside the place, and each table the block's lifetime.
pub fn contact_at(block: &[u8], line: Option<(Span, usize)>) -> Option<Span>
    requires { end_of line ≤ length block.now }
    ensures { result ≡ contact_from (uri_in (value_at line block.now)) }
{
    let (v, _) = line?;
    let Some((u, _)) = uri::header_uri(v.text(block)) else {
        return None;
    };
    Some(u.moved(v.start))
}

// How many routes the Record-Route lines give: 1, 2, then 7 or 8.
pub fn route_count(block: &[u8]) -> Result<usize, Refusal>
    ensures { result ≡ count_of (route_count rust_limits block.now) }
{
    msg::check_block(block)?;
    let (n, _) = scan_routes(block, Limits::MAX_ROUTE_SET_SIZE)?;
    Ok(n)
}

// The route at an index, as received or reversed: 1, 2, then 7 or 8 of the whole set.
// Kept (5, 7): a C caller gives the block and the order each by itself; the order only says from which end the index counts.
pub fn route(block: &[u8], reversed: bool, index: usize) -> Result<Option<Span>, Refusal>
    ensures { result ≡ lookup_of (route_at rust_limits reversed block.now index) }
{
    let n = route_count(block)?;
    if n <= index {
        return Ok(None);
    }
    let at = if reversed { n - index - 1 } else { index };
    Ok(nth_route(block, at))
}

// The route at an index, as received, where the routes up to it can be read.
fn nth_route(block: &[u8], index: usize) -> Option<Span>
    ensures { Ok result ≡ route_in (scan rust_limits index 0 (route_elements block.now)) }
{
    let (_, found) = scan_routes(block, index).ok()?;
    found
}

// How many routes the Record-Route lines have up to the wanted one, and the wanted one, if they have it: an element met when 50 are held ends the
// whole reading at once.
// Kept (2): document 01 names the form of these loops; `fill_routes` of route_section says why one function over a closure is no plainer.
fn scan_routes(block: &[u8], wanted: usize) -> Result<(usize, Option<Span>), Refusal>
    ensures { result ≡ scan rust_limits wanted 0 (route_elements block.now) }
{
    let mut held = 0;
    // Kept (1): a `for` hands out no value; a labelled block around both would, and document 01 has the loop left by its label.
    let mut full = false;
    'lines: for v in Values::of(block, b"Record-Route") {
        for e in Elements::of(v.text) {
            if Limits::MAX_ROUTE_SET_SIZE <= held {
                full = true;
                break 'lines;
            }
            if let Some(u) = read_element(e)? {
                if held == wanted {
                    return Ok((held, Some(moved(v.place, u))));
                }
                held += 1;
            }
        }
    }
    if full {
        return Err(Refusal::RouteSetTooLarge);
    }
    Ok((held, None))
}

// The URI of one element, where it stands in the value.
// Kept (1): document 01 has the reading of a URI opened by `let .. else`.
pub fn read_element<'a>(e: Part<'a>) -> Result<Option<Part<'a>>, Refusal>
    ensures { element_of result ≡ element_from rust_limits e.entry.place (header_uri e.entry.text.now) }
{
    let Some((u, parts)) = uri::header_uri(e.text) else {
        return Ok(None);
    };
    if uri::over_estimate(parts) {
        return Err(Refusal::UriTooLong);
    }
    Ok(Some(Part {
        place: e.place + u.start,
        text: u.text(e.text),
    }))
}

// Where a part of a part stands in the whole.
fn moved(at: usize, p: Part<'_>) -> Span
    requires { at < 2 ^ 63 }
    ensures { result ≡ span_of (moved_piece at (piece_of p.entry)) }
{
    Span {
        start: at + p.place,
        length: p.text.len(),
    }
}
