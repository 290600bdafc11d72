// The routes' section of a record image, measured and written out of the Record-Route lines of a header block that was checked.
#![tactic(auto)]

ghost use Rattle.std.specs.Prelude.{◌≡◌, ◌≤◌, ◌+◌, cond, eqb, length, IfOk};
ghost use Rattle.limits.specs.Limits.{rust_limits};
ghost use Rattle.route_set.specs.Routes.{routes_of};
ghost use Rattle.route_section.specs.Section.{section_in, section_from, Small};
ghost use Rattle.route_section.specs.Measured.{counted_in, MeasuredIn};

use crate::filling::fill_routes;
use codec::write_byte;
use limits::Refusal;

mod filling;
mod order;
mod peer;

pub use order::{AsReceived, Order, Reversed};
pub use peer::PeerRoutes;

// How many routes the block gives, and how many bytes their section has, in either order.
// Kept (5): the fact is one inequality; a struct with it as its ghost field would be made at each call and its bytes taken out at each reading.
pub fn measure_routes<'a>(block: &'a [u8]) -> Result<PeerRoutes<'a>, Refusal>
    requires { length block.now ≤ 8192 }
    ensures value { counted_in result ≡ section_from (routes_of rust_limits block.now) }
    ensures small { Small (counted_in result) }
    ensures measured { IfOk result (MeasuredIn block.now) }
{
    let (count, texts) = fill_routes::<AsReceived>(&mut [], block)?;
    let size = section_size(count, texts);
    Ok(PeerRoutes { block, count, size })
}

// The bytes of a section with so many routes, by those of their texts: the count's byte too, where there are some.
fn section_size(count: usize, texts: usize) -> usize
    requires { texts ≤ 500000 }
    ensures { result ≡ cond (eqb count 0) 0 (1 + texts) }
{
    if count == 0 { 0 } else { 1 + texts }
}

// The section over lent bytes that are as long as it is, its routes in this order.
// Kept (5): both callers hold a `PeerRoutes`, which has the fact; lent one, this would ask for more than the block, which is all that it reads.
pub fn write_routes<O: Order>(out: &mut [u8], block: &[u8])
    requires { (length block.now ≤ 8192) × (length out.old ≡ length (section_in O.reversed (routes_of rust_limits block.now))) }
    ensures { out.new ≡ section_in O.reversed (routes_of rust_limits block.now) }
{
    let Ok((count, _)) = fill_routes::<O>(out, block) else {
        return;
    };
    if 0 < count {
        write_byte(out, 0, count as u8);
    }
}
