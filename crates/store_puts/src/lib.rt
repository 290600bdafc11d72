// The call that puts a record into a lent store. It answers the new used length.
#![tactic(auto)]

mod early;
mod puts;

pub use puts::put;
