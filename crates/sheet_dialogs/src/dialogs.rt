// Requests within a dialog, on each side.
use crate::calls::{Record, next_local, request, response, terminate, turned, uac, uas};
use creation_checks::NewDialog;
use std::io;

pub fn dialogs(rt: &impl Print, call: NewDialog<'_>) -> io::Result<()> {
    let mut record = Record::new();
    uac(
        rt,
        b"RFC 3261 after 12.1.2",
        b"INVITE 4711 and 200",
        call,
        &mut record,
    )?;
    sent(rt, &mut record)?;
    uas(
        rt,
        b"RFC 3261 after 12.1.1",
        b"INVITE 4711 and 200",
        turned(call),
        &mut record,
    )?;
    received(rt, &mut record)?;
    refreshed(rt, &mut record)
}

// Our requests, and the responses to them.
fn sent(rt: &impl Print, record: &mut Record) -> io::Result<()> {
    let place: &[u8] = b"RFC 3261 after 12.2.1.2";
    next_local(rt, b"RFC 3261 after 12.2.1.1", record)?;
    response(
        rt,
        place,
        200,
        b"Contact: <sip:callee@u3.domain.com>\r\nRecord-Route: <sip:p3.domain.com;lr>\r\n",
        record,
    )?;
    response(
        rt,
        place,
        180,
        b"Contact: <sip:callee@u4.domain.com>\r\n",
        record,
    )?;
    request(
        rt,
        b"RFC 3261 after 13.2.2.4",
        b"ACK",
        b"CSeq: 1 ACK\r\n",
        record,
    )
}

// The peer's requests: the order of their numbers.
fn received(rt: &impl Print, record: &mut Record) -> io::Result<()> {
    let place: &[u8] = b"RFC 3261 after 12.2.2";
    request(rt, place, b"INFO", b"CSeq: 4710 INFO\r\n", record)?;
    request(rt, place, b"INFO", b"CSeq: 4712 INFO\r\n", record)
}

// The target by the peer's requests, and the end.
fn refreshed(rt: &impl Print, record: &mut Record) -> io::Result<()> {
    let place: &[u8] = b"RFC 3261 after 12.2.2";
    let end: &[u8] = b"RFC 3261 after 12.3";
    request(
        rt,
        place,
        b"INVITE",
        b"CSeq: 4715 INVITE\r\nContact: <sip:caller@u3.example.com>\r\nRecord-Route: <sip:p3.domain.com;lr>\r\n",
        record,
    )?;
    request(
        rt,
        place,
        b"INVITE",
        b"CSeq: 4715 INVITE\r\nContact: <sip:caller@u4.example.com>\r\n",
        record,
    )?;
    request(
        rt,
        place,
        b"INFO",
        b"CSeq: 4716 INFO\r\nContact: <sip:caller@u4.example.com>\r\n",
        record,
    )?;
    terminate(rt, end, record)?;
    request(rt, end, b"INFO", b"CSeq: 4717 INFO\r\n", record)
}
