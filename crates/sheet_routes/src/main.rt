// Runs the rest of the test sheet and of the RFCs' examples, in the form of `sheet`: URIs, routes, Session-Expires,
// intervals and who sets them, RSeq and RAck, and the counts.
// Kept (5): `rt` and the place of a line: a struct of the two would have a type parameter for `rt`, and each call that has a place of its
// own would make one; the place is no more than words that are printed.
#![tactic(auto)]

mod contests;
mod counts;
mod expires;
mod intervals;
mod racks;
mod routes;
mod uris;

use std::io;

fn main(rt: HostRuntime) -> io::Result<()> {
    uris::uris(&rt)?;
    routes::routes(&rt)?;
    expires::expires(&rt)?;
    intervals::intervals(&rt)?;
    contests::contests(&rt)?;
    racks::racks(&rt)?;
    counts::counts(&rt)
}
