// Session timers: the call of RFC 4028 13 on each side, and the shortest interval.
use crate::calls::{
    Record, answered_by, interval, next_local, refresh, request, response, turned, uac, uas,
};
use creation_checks::NewDialog;
use msg::{Request, Response};
use std::io;

pub fn timers(rt: &impl Print) -> io::Result<()> {
    let call = NewDialog {
        request: Request {
            method: b"INVITE",
            block: b"Supported: timer\r\nSession-Expires: 4000\r\nMin-SE: 4000\r\nTo: Bob <sips:bob@biloxi.example.com>\r\nFrom: Alice <sips:alice@atlanta.example.com>;tag=1928301774\r\nCall-ID: a84b4c76e66710\r\nCSeq: 314161 INVITE\r\nContact: <sips:alice@pc33.atlanta.example.com>\r\n",
        },
        response: Response {
            status: 200,
            block: b"Require: timer\r\nSupported: timer\r\nSession-Expires: 4000;refresher=uac\r\nTo: Bob <sips:bob@biloxi.example.com>;tag=9as888nd\r\nFrom: Alice <sips:alice@atlanta.example.com>;tag=1928301774\r\nCall-ID: a84b4c76e66710\r\nCSeq: 314161 INVITE\r\nContact: <sips:bob@192.0.2.4>\r\n",
        },
        local_uri: b"sips:alice@atlanta.example.com",
        remote_uri: b"sips:bob@biloxi.example.com",
    };
    caller(rt, call)?;
    callee(rt, call)?;
    shortest(rt)
}

fn caller(rt: &impl Print, call: NewDialog<'_>) -> io::Result<()> {
    let place: &[u8] = b"RFC 4028 after 13";
    let mut record = Record::new();
    uac(
        rt,
        place,
        b"INVITE and 422",
        answered_by(call, 422),
        &mut record,
    )?;
    uac(rt, place, b"INVITE 314161 and 200", call, &mut record)?;
    due(rt, &record)?;
    next_local(rt, place, &mut record)?;
    answered(rt, &mut record)
}

// RFC 4028 refreshes at the half; the Rust at two thirds.
fn due(rt: &impl Print, record: &Record) -> io::Result<()> {
    let place: &[u8] = b"RFC 4028 after 7.2";
    refresh(rt, place, 2000000000000, record)?;
    refresh(rt, place, 2666666666666, record)
}

// A response's interval replaces seconds and refresher, unmeasured.
fn answered(rt: &impl Print, record: &mut Record) -> io::Result<()> {
    let place: &[u8] = b"RFC 4028 after 7.2";
    response(
        rt,
        place,
        200,
        b"Session-Expires: 1800;refresher=uas\r\n",
        record,
    )?;
    response(rt, place, 200, b"Session-Expires: 1800\r\n", record)?;
    response(
        rt,
        place,
        200,
        b"Session-Expires: 50;refresher=uac\r\n",
        record,
    )?;
    response(rt, place, 200, b"Supported: timer\r\n", record)
}

fn callee(rt: &impl Print, call: NewDialog<'_>) -> io::Result<()> {
    let mut record = Record::new();
    uas(
        rt,
        b"RFC 4028 after 13",
        b"INVITE 314161 and 200",
        turned(call),
        &mut record,
    )?;
    request(
        rt,
        b"RFC 4028 after 9",
        b"UPDATE",
        b"CSeq: 314162 UPDATE\r\nSession-Expires: 1800;refresher=uas\r\n",
        &mut record,
    )
}

// 90 s, and less.
fn shortest(rt: &impl Print) -> io::Result<()> {
    let place: &[u8] = b"01 sheet P";
    let call = NewDialog {
        request: Request {
            method: b"INVITE",
            block: b"CSeq: 1 INVITE\r\n",
        },
        response: Response {
            status: 200,
            block: b"From: <sip:r@h>;tag=R\r\nTo: <sip:l@h>;tag=L\r\nCall-ID: c1\r\nSession-Expires: 89\r\n",
        },
        local_uri: b"sip:l@h",
        remote_uri: b"sip:r@h",
    };
    let mut record = Record::new();
    uas(rt, b"RFC 4028 after 9", b"200 with 89 s", call, &mut record)?;
    uas(
        rt,
        b"RFC 4028 after 9",
        b"200 with 90 s and no refresher",
        NewDialog {
            response: Response {
                block: b"From: <sip:r@h>;tag=R\r\nTo: <sip:l@h>;tag=L\r\nCall-ID: c1\r\nSession-Expires: 90\r\n",
                ..call.response
            },
            ..call
        },
        &mut record,
    )?;
    refresh(rt, place, 60000000000, &record)?;
    refresh(rt, place, 59999999999, &record)?;
    interval(rt, b"01 row 13", 89, &mut record)
}
