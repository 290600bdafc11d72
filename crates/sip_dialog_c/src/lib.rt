// The C functions: each export calls the function of `sip_dialog` of its name, and has its clauses.
// Made by `tools/face write` from crates/sip_dialog/src, not by hand.
#![tactic(auto)]

pub mod blocks;
pub mod contests;
pub mod creation;
pub mod identifiers;
pub mod images;
pub mod prack;
pub mod prack_lists;
pub mod rseq;
pub mod store_readings;
pub mod stores;
pub mod timers;
pub mod uris;
pub mod values;
pub mod verdicts;
