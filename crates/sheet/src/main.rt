// Runs document 01's test sheet and the examples of RFC 3261, 3262 and 4028 that the readings answer, a line for each:
// where the example stands (`after` where it is not word for word there), what is asked, and the answer.
// Here: numbers, sizes, blocks, status classes, tags, identifiers and whole messages. The others are in `sheet_routes`.
// Kept (5): `rt` and the place of a line: a struct of the two would have a type parameter for `rt`, and each call that has a place of its
// own would make one; the place is no more than words that are printed.
#![tactic(auto)]

mod blocks;
mod flows;
mod identifiers;
mod numbers;
mod sizes;
mod statuses;
mod tags;

use std::io;

fn main(rt: HostRuntime) -> io::Result<()> {
    numbers::numbers(&rt)?;
    sizes::sizes(&rt)?;
    blocks::blocks(&rt)?;
    statuses::statuses(&rt)?;
    tags::tags(&rt)?;
    identifiers::identifiers(&rt)?;
    flows::flows(&rt)
}
