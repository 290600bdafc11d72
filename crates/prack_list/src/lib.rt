// The list of one identifier text in a small array (prack_body/specs/Body.antt): a response added, found and marked; those that wait.
#![tactic(auto)]

mod finding;
mod open;
mod pushing;

pub use finding::{PendingAt, first_of, mark};
pub use open::{open_bytes, open_size};
pub use pushing::{Provisional, push};
