// The PRACK store: where what is held for an identifier text stands, a clean copy of it, and what is held set in its place.
#![tactic(auto)]

mod finding;
mod holding;

pub use finding::find;
pub use holding::{clean_copy, set};
