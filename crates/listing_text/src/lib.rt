// The handover listing as a text (document 01, "Handover listing").
#![tactic(auto)]

ghost use Rattle.std.specs.Prelude.{◌≡◌, ◌≤◌, length};
ghost use Rattle.edit.specs.Edit.{over};
ghost use Rattle.limits.specs.Limits.{rust_limits};
ghost use Rattle.output.specs.Output.{leaves, written_from};
ghost use Rattle.record.specs.NumbersForm.{meaning};
ghost use Rattle.listing_lines.specs.Listing.{columns_of, line_of, listing, refused_line};
ghost use Rattle.listing_lines.specs.Steps.{listed_lines};

mod listed;

use edit::put;
use image::RecordAt;
use limits::{Limits, Refusal};
use listed::Walk;
use listing_lines::{write_line, write_words};
use store::Held;

// The listing of a store's bytes, over the front of out: 1 over 65,536 bytes, 3, 18.
pub fn list_store(bytes: &[u8], out: &mut [u8]) -> Result<usize, Refusal>
    ensures value { result ≡ written_from (listing rust_limits bytes.now (length out.old)) }
    ensures out_after { out.new ≡ leaves (listing rust_limits bytes.now (length out.old)) out.old }
{
    if Limits::MAX_LISTED_STORE < bytes.len() {
        return Err(Refusal::TextTooLong);
    }
    let count = store::read_store(bytes).ok_or(Refusal::BadStore)?;
    let held = Held { bytes };
    // Kept (6): no heap: the text goes into an array, and what fills it says how long it is.
    let mut text = [0u8; 192];
    let n = write_words(&mut text, b"total", count as u64);
    let size = lines_length(held) + n;
    if out.len() < size {
        return Err(Refusal::NoRoom);
    }
    let end = write_lines(held, out);
    put(out, end, &text[..n]);
    Ok(size)
}

// What is printed of a refused store, over the front of out: `refused` and the number. Its length.
// Kept (5): any lent bytes that have room will do; `&mut [u8; 192]` would ask more of callers.
pub fn write_refused(out: &mut [u8], cause: Refusal) -> usize
    requires { 192 ≤ length out.old }
    ensures value { result ≡ length (refused_line cause) }
    ensures upper_bound { result ≤ 192 }
    ensures out_after { out.new ≡ over (refused_line cause) out.old }
{
    write_words(out, b"refused", cause.number() as u64)
}

// The length of the lines of a store's records.
fn lines_length(held: Held<'_>) -> usize
    requires { length held.bytes.now ≤ 65536 }
    ensures value { result ≡ length (listed_lines held.entry.bytes.now) }
    ensures upper_bound { result ≤ 12582912 }
{
    // Kept (6): no heap: the text goes into an array, and what fills it says how long it is.
    let mut text = [0u8; 192];
    let mut size = 0;
    for (i, r) in Walk::new(held.bytes).enumerate() {
        size += write_listed(&mut text, i + 1, r);
    }
    size
}

// The lines over the front of out, which has room for them. Their length.
fn write_lines(held: Held<'_>, out: &mut [u8]) -> usize
    requires held_short { length held.bytes.now ≤ 65536 }
    requires lines_in_bounds { length (listed_lines held.bytes.now) ≤ length out.old }
    ensures value { result ≡ length (listed_lines held.entry.bytes.now) }
    ensures out_after { out.new ≡ over (listed_lines held.entry.bytes.now) out.old }
{
    // Kept (6): no heap: the text goes into an array, and what fills it says how long it is.
    let mut text = [0u8; 192];
    let mut end = 0;
    for (i, r) in Walk::new(held.bytes).enumerate() {
        let n = write_listed(&mut text, i + 1, r);
        put(out, end, &text[..n]);
        end += n;
    }
    end
}

// The line of a record, over the front of out. Its length.
// Kept (6): no heap: its callers lend an array in which any line has room, and are told how long the line is.
fn write_listed(out: &mut [u8; 192], position: usize, r: RecordAt) -> usize
    ensures value { result ≡ length (line_of (columns_of position (meaning r.numbers) r.we_are_uac r.route_count)) }
    ensures upper_bound { result ≤ 192 }
    ensures out_after { out.new ≡ over (line_of (columns_of position (meaning r.numbers) r.we_are_uac r.route_count)) out.old }
{
    write_line(out, position, r.numbers, r.we_are_uac, r.route_count)
}
