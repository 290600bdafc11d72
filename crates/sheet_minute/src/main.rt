// Runs sentences of change request 10, "Refusals in the worst minute", that calls on a run of verdicts can show, a line for each: the call, its answer, and how
// many of the lent bytes are used. Times are nanoseconds; a verdict's number is 0 where the request was taken.
#![tactic(auto)]

mod calls;

use calls::{add, add_many, worst};
use limits::Refusal;
use sheet_lines::Held;
use std::io;

// 60 s.
const MINUTE: u64 = 60000000000;

// The largest time.
const LAST: u64 = u64::MAX;

// The verdicts that are given.
const TAKEN: Result<(), Refusal> = Ok(());

const ZERO: Result<(), Refusal> = Err(Refusal::CSeqZero);

const INVALID: Result<(), Refusal> = Err(Refusal::InvalidCSeq);

const JUMP: Result<(), Refusal> = Err(Refusal::CSeqJumpTooLarge);

fn main(rt: HostRuntime) -> io::Result<()> {
    few(&rt)?;
    ends(&rt)?;
    earliest(&rt)?;
    back(&rt)?;
    largest(&rt)?;
    many(&rt)?;
    full(&rt)?;
    refused(&rt)
}

// "An empty run gives 0 and no start". One verdict; a window starts at an accepted one too; no refusal at all is answered from the first verdict on.
fn few(rt: &impl Print) -> io::Result<()> {
    let mut run = Held::<27>::new();
    worst(rt, &run)?;
    add(rt, 5, INVALID, &mut run)?;
    worst(rt, &run)?;
    run.used = 0;
    add(rt, 0, TAKEN, &mut run)?;
    worst(rt, &run)?;
    add(rt, 1, INVALID, &mut run)?;
    worst(rt, &run)?;
    run.used = 0;
    add(rt, 7, TAKEN, &mut run)?;
    add(rt, 8, TAKEN, &mut run)?;
    worst(rt, &run)
}

// "start included, end excluded": a nanosecond less than 60 s, and exactly 60 s.
fn ends(rt: &impl Print) -> io::Result<()> {
    let mut run = Held::<18>::new();
    add(rt, 0, JUMP, &mut run)?;
    add(rt, MINUTE - 1, JUMP, &mut run)?;
    worst(rt, &run)?;
    run.used = 0;
    add(rt, 0, JUMP, &mut run)?;
    add(rt, MINUTE, JUMP, &mut run)?;
    worst(rt, &run)
}

// "the earliest start that has them": two starts with two refusals each; and several verdicts of one time.
fn earliest(rt: &impl Print) -> io::Result<()> {
    let mut run = Held::<45>::new();
    add(rt, 10, ZERO, &mut run)?;
    add(rt, 20, ZERO, &mut run)?;
    add(rt, MINUTE * 2, ZERO, &mut run)?;
    add(rt, MINUTE * 2 + 1, ZERO, &mut run)?;
    worst(rt, &run)?;
    add(rt, MINUTE * 3, ZERO, &mut run)?;
    worst(rt, &run)?;
    run.used = 0;
    add(rt, 5, TAKEN, &mut run)?;
    add(rt, 5, ZERO, &mut run)?;
    add(rt, 5, ZERO, &mut run)?;
    worst(rt, &run)
}

// "A time below the one before it is taken as that one, and keeps the value so taken".
fn back(rt: &impl Print) -> io::Result<()> {
    let mut run = Held::<36>::new();
    add(rt, MINUTE * 2, INVALID, &mut run)?;
    add(rt, 1, INVALID, &mut run)?;
    add(rt, MINUTE, INVALID, &mut run)?;
    worst(rt, &run)?;
    add(rt, MINUTE * 3, INVALID, &mut run)?;
    worst(rt, &run)
}

// The largest times: a minute that would end past them.
fn largest(rt: &impl Print) -> io::Result<()> {
    let mut run = Held::<36>::new();
    add(rt, 0, INVALID, &mut run)?;
    add(rt, LAST - MINUTE, INVALID, &mut run)?;
    add(rt, LAST - MINUTE + 1, INVALID, &mut run)?;
    add(rt, LAST, INVALID, &mut run)?;
    worst(rt, &run)
}

// 4,096 verdicts; a 4,097th, which drops the oldest; and 5,000, of which the first 904 are dropped.
fn many(rt: &impl Print) -> io::Result<()> {
    let mut run = Held::<36864>::new();
    add_many(rt, 4096, 0, INVALID, &mut run)?;
    worst(rt, &run)?;
    add(rt, 0, TAKEN, &mut run)?;
    worst(rt, &run)?;
    add(rt, 1, INVALID, &mut run)?;
    worst(rt, &run)?;
    run.used = 0;
    add_many(rt, 1000, 0, INVALID, &mut run)?;
    worst(rt, &run)?;
    add_many(rt, 4000, MINUTE, TAKEN, &mut run)?;
    worst(rt, &run)
}

// Times are taken before the run is cut: the first verdict is dropped, and its time stays that of the others.
fn full(rt: &impl Print) -> io::Result<()> {
    let mut run = Held::<36864>::new();
    add(rt, 1000000000000, INVALID, &mut run)?;
    add_many(rt, 4096, 0, INVALID, &mut run)?;
    worst(rt, &run)
}

// 18 where the entry has no room; 3 where the used length is over the lent, is no number of whole entries, or a time falls.
fn refused(rt: &impl Print) -> io::Result<()> {
    let mut run = Held::<18>::new();
    add(rt, 2, INVALID, &mut run)?;
    add(rt, 3, INVALID, &mut run)?;
    add(rt, 4, INVALID, &mut run)?;
    run.used = 19;
    worst(rt, &run)?;
    add(rt, 4, INVALID, &mut run)?;
    run.used = 17;
    worst(rt, &run)?;
    add(rt, 4, INVALID, &mut run)?;
    run.used = 18;
    run.bytes[7] = 4;
    worst(rt, &run)?;
    add(rt, 4, INVALID, &mut run)
}
