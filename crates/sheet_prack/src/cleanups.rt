// Cleanups: when one is due, what it drops, and where its time has no room.
use crate::calls::{invited, pending, register, validate};
use sheet_lines::Held;
use std::io;

const DUE: u64 = 300000000000;

const BEFORE: u64 = 299999999999;

const AFTER: u64 = 300000000001;

// Not yet 300 s after `DUE`.
const LATER: u64 = 599999999999;

// At exactly 300 s what is acknowledged goes, and a response of exactly 300 s stays. The next is due 300 s after that one, and not where the
// time goes back. A nanosecond over 300 s a response goes.
pub fn cleanups(rt: &impl Print) -> io::Result<()> {
    let place: &[u8] = b"01 PRACK";
    let d: &[u8] = b"d";
    let e: &[u8] = b"e";
    let one: &[u8] = b"RAck: 1 1 INVITE\r\n";
    let two: &[u8] = b"RAck: 2 1 INVITE\r\n";
    let mut store = Held::<256>::new();
    register(rt, place, d, invited(1, 1, 180, 0), &mut store)?;
    validate(rt, place, d, one, 0, &mut store)?;
    register(rt, place, d, invited(2, 1, 183, 0), &mut store)?;
    validate(rt, place, d, one, BEFORE, &mut store)?;
    validate(rt, place, d, one, DUE, &mut store)?;
    pending(rt, place, d, DUE, &mut store)?;
    validate(rt, place, d, two, LATER, &mut store)?;
    validate(rt, place, d, two, 0, &mut store)?;
    register(rt, place, e, invited(2, 1, 180, 0), &mut store)?;
    validate(rt, place, e, two, AFTER, &mut store)
}

// A new text of one byte takes 12 bytes with its time, and with a response 33.
pub fn rooms(rt: &impl Print) -> io::Result<()> {
    let place: &[u8] = b"01 row 18";
    let d: &[u8] = b"d";
    let block: &[u8] = b"CSeq: 2 PRACK\r\n";
    let mut short = Held::<11>::new();
    let mut exact = Held::<12>::new();
    validate(rt, place, d, block, 0, &mut short)?;
    validate(rt, place, d, block, 0, &mut exact)?;
    register(rt, place, d, invited(1, 1, 180, 0), &mut exact)
}
