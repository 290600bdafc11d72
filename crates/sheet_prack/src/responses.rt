// Responses of a dialog, and their PRACKs.
use crate::calls::{invited, pending, pracked, register, remove_dialog, remove_pracked, validate};
use limits::Settings;
use sheet_lines::Held;
use std::io;

// A response of 7.1's RSeq; PRACKs that are none of it, 7.2's first; its own, once and again, and after each removal.
pub fn acknowledgement(rt: &impl Print) -> io::Result<()> {
    let rule: &[u8] = b"RFC 3262 after 3";
    let rest: &[u8] = b"01 PRACK";
    let d: &[u8] = b"d";
    let block: &[u8] = b"RAck: 988789 1 INVITE\r\n";
    let mut store = Held::<256>::new();
    register(
        rt,
        b"RFC 3262 after 7.1",
        d,
        invited(988789, 1, 180, 0),
        &mut store,
    )?;
    pending(rt, rule, d, 0, &mut store)?;
    validate(
        rt,
        b"RFC 3262 7.2",
        d,
        b"RAck: 776656 1 INVITE\r\n",
        0,
        &mut store,
    )?;
    validate(rt, rule, d, b"RAck: 988789 2 INVITE\r\n", 0, &mut store)?;
    validate(rt, rule, d, b"RAck: 988789 1 BYE\r\n", 0, &mut store)?;
    validate(rt, b"01 row 19", d, b"CSeq: 2 PRACK\r\n", 0, &mut store)?;
    validate(rt, rule, b"e", block, 0, &mut store)?;
    validate(rt, rule, d, block, 0, &mut store)?;
    pracked(rt, rule, d, 988789, &store)?;
    validate(rt, rule, d, block, 0, &mut store)?;
    pending(rt, rule, d, 0, &mut store)?;
    remove_pracked(rt, rest, d, 988789, &mut store)?;
    validate(rt, rest, d, block, 0, &mut store)?;
    remove_dialog(rt, rest, d, &mut store)?;
    validate(rt, rest, d, block, 0, &mut store)
}

// Two responses of one RSeq: the first decides.
// Kept (4): an example of two responses of one number; nothing is compared here.
pub fn equal_numbers(rt: &impl Print) -> io::Result<()> {
    let place: &[u8] = b"01 PRACK";
    let d: &[u8] = b"d";
    let mut store = Held::<256>::new();
    register(rt, place, d, invited(1, 1, 180, 0), &mut store)?;
    register(rt, place, d, invited(1, 2, 183, 0), &mut store)?;
    validate(rt, place, d, b"RAck: 1 2 INVITE\r\n", 0, &mut store)?;
    validate(rt, place, d, b"RAck: 1 1 INVITE\r\n", 0, &mut store)?;
    pending(rt, place, d, 0, &mut store)
}

// The eleventh drops the oldest.
pub fn eleventh(rt: &impl Print) -> io::Result<()> {
    let place: &[u8] = b"01 PRACK";
    let d: &[u8] = b"d";
    let mut store = Held::<256>::new();
    ten(d, &mut store);
    pending(rt, place, d, 0, &mut store)?;
    register(rt, place, d, invited(11, 1, 180, 0), &mut store)?;
    pending(rt, place, d, 0, &mut store)?;
    validate(rt, place, d, b"RAck: 1 1 INVITE\r\n", 0, &mut store)
}

// Ten responses, RSeq 1 to 10, without a line.
fn ten<const N: usize>(id: &[u8], store: &mut Held<N>) {
    let settings = Settings::rust();
    for rseq in 1..=10 {
        let response = invited(rseq, 1, 180, 0);
        if let Ok(n) = prack_validator::register(
            settings,
            id,
            response,
            &mut store.bytes,
            store.used,
        ) {
            store.used = n;
        }
    }
}
