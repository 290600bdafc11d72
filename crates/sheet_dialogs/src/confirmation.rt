// Early records and the 2xx that confirms them, and the ACK to it.
use crate::calls::{Record, answered_by, confirm, request, response, turned, uac, uas};
use creation_checks::NewDialog;
use msg::Response;
use std::io;

pub fn confirmation(rt: &impl Print, call: NewDialog<'_>) -> io::Result<()> {
    let routes: &[u8] =
        b"Contact: <sip:callee@u2.domain.com>\r\nRecord-Route: <sip:p2.domain.com;lr>, <sip:p1.example.com;lr>\r\n";
    late_routes(rt, call, routes)?;
    early_routes(rt, call)?;
    acknowledged(rt, call)?;
    answered(rt, call, routes)
}

// The routes come with the 2xx.
fn late_routes(rt: &impl Print, call: NewDialog<'_>, routes: &[u8]) -> io::Result<()> {
    let mut record = Record::new();
    uac(
        rt,
        b"RFC 3261 after 12.1.2",
        b"INVITE 4711 and 180 without Contact and Record-Route",
        NewDialog {
            response: Response {
                status: 180,
                block: b"From: <sip:caller@example.com>;tag=a\r\nTo: <sip:callee@domain.com>;tag=b\r\nCall-ID: 1\r\n",
            },
            ..call
        },
        &mut record,
    )?;
    response(rt, b"RFC 3261 after 13.2.2.1", 183, routes, &mut record)?;
    response(rt, b"RFC 3261 after 13.2.2.4", 200, routes, &mut record)
}

// The routes came before the 2xx, which has none.
fn early_routes(rt: &impl Print, call: NewDialog<'_>) -> io::Result<()> {
    let mut record = Record::new();
    uac(
        rt,
        b"RFC 3261 after 12.1.2",
        b"INVITE 4711 and 180",
        answered_by(call, 180),
        &mut record,
    )?;
    response(
        rt,
        b"RFC 3261 after 13.2.2.4",
        200,
        b"Contact: <sip:callee@u3.domain.com>\r\n",
        &mut record,
    )
}

// The ACK has the INVITE's number.
fn acknowledged(rt: &impl Print, call: NewDialog<'_>) -> io::Result<()> {
    let place: &[u8] = b"RFC 3261 after 13.2.2.4";
    let mut record = Record::new();
    uas(
        rt,
        b"RFC 3261 after 12.1.1",
        b"INVITE 4711 and 180",
        turned(answered_by(call, 180)),
        &mut record,
    )?;
    confirm(rt, place, &mut record)?;
    request(rt, place, b"ACK", b"CSeq: 4712 ACK\r\n", &mut record)?;
    request(rt, place, b"ACK", b"CSeq: 4711 ACK\r\n", &mut record)
}

// The callee's own 2xx given as a response.
fn answered(rt: &impl Print, call: NewDialog<'_>, routes: &[u8]) -> io::Result<()> {
    let mut record = Record::new();
    uas(
        rt,
        b"RFC 3261 after 12.1.1",
        b"INVITE 4711 and 199",
        turned(answered_by(call, 199)),
        &mut record,
    )?;
    response(rt, b"RFC 3261 after 13.3.1.4", 200, routes, &mut record)
}
