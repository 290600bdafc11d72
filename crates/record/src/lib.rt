// One record: its image, and the steps of its numbers.
#![tactic(auto)]

mod numbers;

pub use numbers::{Method, Numbers, State};
