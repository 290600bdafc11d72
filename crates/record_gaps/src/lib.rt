// What the changes of a record in its place have in common: gaps opened for sections that grow or shrink, and the head written.
#![tactic(auto)]

mod gaps;
mod head;

pub use gaps::{Gap, open_gaps};
pub use head::write_head;
