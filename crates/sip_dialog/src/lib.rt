// The C face: functions on numbers and byte runs. Nothing but calls, and answers handed over.
// Kept (1, 2, 5, 6): the header gives each function of this crate its name, parameters and answer, and each has a clause of its own.
#![tactic(auto)]

pub mod blocks;
pub mod contests;
pub mod creation;
pub mod identifiers;
pub mod images;
pub mod prack;
pub mod prack_lists;
pub mod rseq;
pub mod store_readings;
pub mod stores;
pub mod timers;
pub mod uris;
pub mod values;
pub mod verdicts;
