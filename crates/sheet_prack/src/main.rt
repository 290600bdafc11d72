// Runs examples of RFC 3262 and sentences of document 01 that calls on an RSeq store and on a PRACK store can show, a line for each: where
// the example stands (`after` where it is not word for word there), what is asked, the answer, and how many of the lent bytes are used.
// Kept (5): `rt` and the place of a line: a struct of the two would have a type parameter for `rt`, and each call that has a place of its
// own would make one; the place is no more than words that are printed.
#![tactic(auto)]

mod calls;
mod cleanups;
mod numbers;
mod responses;

use std::io;

fn main(rt: HostRuntime) -> io::Result<()> {
    numbers::numbers(&rt)?;
    responses::acknowledgement(&rt)?;
    responses::equal_numbers(&rt)?;
    responses::eleventh(&rt)?;
    cleanups::cleanups(&rt)?;
    cleanups::rooms(&rt)
}
