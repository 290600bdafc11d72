// What the program `replay` makes of a line but for the call: the memory, what is lent, the comparison of the answer, and the counts.
// Kept (1): a row goes by its number, its place in the counts, and a kind of item by the letter that a shape has for it.
#![tactic(auto)]

mod answers;
mod memory;
mod tallies;

pub use answers::Line;
pub use memory::Memory;
pub use tallies::{Tallies, report, take};

// A call that a line asks for: the number of its row, and whether all that it answered is as recorded.
#[derive(Clone, Copy)]
pub struct Call {
    pub row: usize,
    pub same: bool,
}
