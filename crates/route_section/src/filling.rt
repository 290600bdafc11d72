// Lent bytes filled with the texts of a block's routes, one line after another.
ghost use Rattle.std.specs.Prelude.{◌≤◌, ◌≡◌, length};
ghost use Rattle.limits.specs.Limits.{rust_limits};
ghost use Rattle.route_set.specs.Routes.{route_elements};
ghost use Rattle.route_section.specs.Filling.{text_put, filled, Answered, Bounded};

use crate::order::Order;
use codec::write_text;
use limits::{Limits, Refusal};
use msg::Values;
use route_set::{Elements, read_element};

// The routes of all Record-Route lines, their elements one after another: one met when 50 are held ends the whole reading at once, and so does
// one that is too long.
// Kept (2): document 01 names the form of two loops that a 51st route leaves by a label, here and in `scan_routes` of route_set. One function of
// both over a closure would have to say in its clauses what the closure holds after each element, which each loop says of its own numbers.
// Kept (5): the fact is one inequality; a struct with it as its ghost field would be made at each call and its bytes taken out at each reading.
pub fn fill_routes<O: Order>(out: &mut [u8], block: &[u8]) -> Result<(usize, usize), Refusal>
    requires { length block.now ≤ 8192 }
    ensures answered { Answered (filled rust_limits O.reversed (record { count = 0; size = 0; bytes = out.old }) (route_elements block.now)) result out.new }
    ensures bounded { Bounded result }
{
    let mut count = 0;
    let mut size = 0;
    // Kept (1): a `for` hands out no value; a labelled block around both would, and document 01 has the loop left by its label.
    let mut full = false;
    'lines: for v in Values::of(block, b"Record-Route") {
        for e in Elements::of(v.text) {
            if Limits::MAX_ROUTE_SET_SIZE <= count {
                full = true;
                break 'lines;
            }
            if let Some(u) = read_element(e)? {
                put_text::<O>(out, size, u.text);
                size += 2 + u.text.len();
                count += 1;
            }
        }
    }
    if full {
        return Err(Refusal::RouteSetTooLarge);
    }
    Ok((count, size))
}

// One text with its length bytes, if there is room for it.
// Kept (5): the text of an element, which is no longer than its block; a type of a short text would be made for this call alone.
// Kept (6): the texts held so far stand at either end, by the order, and where they have no room they are counted alone.
fn put_text<O: Order>(out: &mut [u8], size: usize, t: &[u8])
    requires { (length t.now ≤ 8192) × (size ≤ 500000) }
    ensures { out.new ≡ text_put O.reversed size t.now out.old }
{
    let k = 2 + t.len();
    if out.len() < 1 + size + k {
        return;
    }
    let at = O::place(out.len(), size, k);
    write_text(out, at, t);
}
