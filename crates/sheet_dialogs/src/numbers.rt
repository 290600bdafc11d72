// The numbers of document 01's test sheet, on records whose remote number is 7 and 0. What is refused comes first: it changes nothing.
use crate::calls::{Record, request, uac, uas};
use creation_checks::NewDialog;
use msg::{Request, Response};
use std::io;

pub fn numbers(rt: &impl Print) -> io::Result<()> {
    let call = NewDialog {
        request: Request {
            method: b"INVITE",
            block: b"CSeq: 7 INVITE\r\n",
        },
        response: Response {
            status: 200,
            block: b"From: <sip:r@h>;tag=R\r\nTo: <sip:l@h>;tag=L\r\nCall-ID: c1\r\n",
        },
        local_uri: b"sip:l@h",
        remote_uri: b"sip:r@h",
    };
    seven(rt, call)?;
    zero(rt, call)
}

fn seven(rt: &impl Print, call: NewDialog<'_>) -> io::Result<()> {
    let place: &[u8] = b"01 sheet P";
    let info: &[u8] = b"INFO";
    let mut record = Record::new();
    uas(rt, b"01 sheet", b"INVITE 7 and 200", call, &mut record)?;
    request(rt, place, info, b"CSeq: 7 INFO\r\n", &mut record)?;
    request(rt, place, info, b"CSeq: 1008 INFO\r\n", &mut record)?;
    request(rt, place, info, b"CSeq: 1007 INFO\r\n", &mut record)
}

fn zero(rt: &impl Print, call: NewDialog<'_>) -> io::Result<()> {
    let place: &[u8] = b"01 sheet P";
    let info: &[u8] = b"INFO";
    let mut record = Record::new();
    uac(rt, b"01 sheet", b"INVITE 7 and 200", call, &mut record)?;
    request(rt, place, info, b"CSeq: 2147483648 INFO\r\n", &mut record)?;
    request(rt, place, info, b"CSeq: 2147483647 INFO\r\n", &mut record)
}
