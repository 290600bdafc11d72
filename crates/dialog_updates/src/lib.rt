// What requests and responses on a record have in common, given as its image in lent bytes or at a place of a store: what they answer and leave, as
// definitions with their laws (specs/ and proofs/), and the change in its place. The calls are in `dialog_requests` and `dialog_responses`.
#![tactic(auto)]

mod revision;

pub use revision::{revise, revise_to};
