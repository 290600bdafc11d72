// A record by an INVITE without Contact to a sips URI, and creations that are refused.
use crate::calls::{Record, answered_by, turned, uac, uas};
use creation_checks::NewDialog;
use msg::Request;
use std::io;

pub fn creation(rt: &impl Print, call: NewDialog<'_>) -> io::Result<()> {
    let mut record = Record::new();
    uas(
        rt,
        b"RFC 3261 after 12.1.1",
        b"INVITE 4711 without Contact, to a sips URI, and 200",
        NewDialog {
            request: Request {
                block: b"CSeq: 4711 INVITE\r\n",
                ..call.request
            },
            local_uri: b"sips:callee@domain.com",
            ..turned(call)
        },
        &mut record,
    )?;
    uas(
        rt,
        b"RFC 3261 after 8.1.1.5",
        b"INVITE 2147483648 and 200",
        NewDialog {
            request: Request {
                block: b"CSeq: 2147483648 INVITE\r\n",
                ..call.request
            },
            ..turned(call)
        },
        &mut record,
    )?;
    uac(
        rt,
        b"RFC 3261 after 12.1",
        b"INVITE 4711 and 300",
        answered_by(call, 300),
        &mut record,
    )
}
