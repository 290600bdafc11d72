// The session of RFC 3261 24.2, as a record of each side.
use crate::calls::{
    Record, answer, confirm, matching, message, next_local, terminate, turned, uac, uas,
};
use creation_checks::NewDialog;
use msg::{Request, Response};
use std::io;

pub fn flow(rt: &impl Print) -> io::Result<()> {
    let call = NewDialog {
        request: Request {
            method: b"INVITE",
            block: b"To: Bob <sip:bob@biloxi.com>\r\nFrom: Alice <sip:alice@atlanta.com>;tag=1928301774\r\nCall-ID: a84b4c76e66710\r\nCSeq: 314159 INVITE\r\nContact: <sip:alice@pc33.atlanta.com>\r\n",
        },
        response: Response {
            status: 180,
            block: b"To: Bob <sip:bob@biloxi.com>;tag=a6c85cf\r\nFrom: Alice <sip:alice@atlanta.com>;tag=1928301774\r\nCall-ID: a84b4c76e66710\r\nCSeq: 314159 INVITE\r\nContact: <sip:bob@192.0.2.4>\r\n",
        },
        local_uri: b"sip:alice@atlanta.com",
        remote_uri: b"sip:bob@biloxi.com",
    };
    trying(rt, call)?;
    caller(rt, call)?;
    callee(rt, call)
}

// 100 has no tag in To.
fn trying(rt: &impl Print, call: NewDialog<'_>) -> io::Result<()> {
    let mut record = Record::new();
    uac(
        rt,
        b"RFC 3261 after 24.2 F2",
        b"INVITE 314159 and 100",
        NewDialog {
            response: Response {
                status: 100,
                block: b"To: Bob <sip:bob@biloxi.com>\r\nFrom: Alice <sip:alice@atlanta.com>;tag=1928301774\r\nCall-ID: a84b4c76e66710\r\nCSeq: 314159 INVITE\r\n",
            },
            ..call
        },
        &mut record,
    )
}

// Alice calls, and Bob ends the call.
fn caller(rt: &impl Print, call: NewDialog<'_>) -> io::Result<()> {
    let place: &[u8] = b"RFC 3261 after 24.2 F13";
    let bye: &[u8] =
        b"From: Bob <sip:bob@biloxi.com>;tag=a6c85cf\r\nTo: Alice <sip:alice@atlanta.com>;tag=1928301774\r\nCall-ID: a84b4c76e66710\r\nCSeq: 231 BYE\r\n";
    let mut record = Record::new();
    uac(
        rt,
        b"RFC 3261 after 24.2 F8",
        b"INVITE 314159 and 180",
        call,
        &mut record,
    )?;
    answer(
        rt,
        b"RFC 3261 after 24.2 F11",
        200,
        call.response.block,
        &mut record,
    )?;
    matching(rt, place, b"BYE", bye, &record)?;
    message(rt, place, b"BYE", bye, &mut record)?;
    terminate(rt, b"RFC 3261 after 24.2 F14", &mut record)
}

// Bob's first own number is 1; in the RFC it is 231.
fn callee(rt: &impl Print, call: NewDialog<'_>) -> io::Result<()> {
    let mut record = Record::new();
    uas(
        rt,
        b"RFC 3261 after 24.2 F6",
        b"INVITE 314159 and 180",
        turned(call),
        &mut record,
    )?;
    confirm(rt, b"RFC 3261 after 24.2 F9", &mut record)?;
    message(
        rt,
        b"RFC 3261 after 24.2 F12",
        b"ACK",
        b"To: Bob <sip:bob@biloxi.com>;tag=a6c85cf\r\nFrom: Alice <sip:alice@atlanta.com>;tag=1928301774\r\nCall-ID: a84b4c76e66710\r\nCSeq: 314159 ACK\r\n",
        &mut record,
    )?;
    next_local(rt, b"RFC 3261 after 24.2 F13", &mut record)
}
