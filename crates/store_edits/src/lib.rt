// The calls that take records out of a lent store. Each answers the new used length.
#![tactic(auto)]

mod removal;
mod sweeps;

pub use removal::remove;
pub use sweeps::sweep;
