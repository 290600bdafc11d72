// Runs the examples of RFC 3261 12, 13 and 24.2, of RFC 4028 and of document 01 that one record can show, a line for each: where the
// example stands (`after` where it is not word for word there), what is given, the answer, and the record after it.
// Kept (5): `rt` and the place of a line, or `rt` and a call: a struct of the two would have a type parameter for `rt`, and each line that has a
// place of its own, or a call changed in a field, would make one. So would each of a message: its method or status and its block stand in the line
// as the example has them.
#![tactic(auto)]

mod calls;
mod confirmation;
mod creation;
mod dialogs;
mod flow;
mod numbers;
mod records;
mod timers;

use creation_checks::NewDialog;
use msg::{Request, Response};
use std::io;

fn main(rt: HostRuntime) -> io::Result<()> {
    numbers::numbers(&rt)?;
    trapezoid(&rt)?;
    flow::flow(&rt)?;
    timers::timers(&rt)
}

// The messages of RFC 3261 16.12.1.1 with the other fields that a dialog needs, and the number of 8.1.1.5.
fn trapezoid(rt: &impl Print) -> io::Result<()> {
    let call = NewDialog {
        request: Request {
            method: b"INVITE",
            block: b"From: <sip:caller@example.com>;tag=a\r\nTo: <sip:callee@domain.com>\r\nCall-ID: 1\r\nCSeq: 4711 INVITE\r\nContact: sip:caller@u1.example.com\r\nRecord-Route: <sip:p2.domain.com;lr>\r\nRecord-Route: <sip:p1.example.com;lr>\r\n",
        },
        response: Response {
            status: 200,
            block: b"From: <sip:caller@example.com>;tag=a\r\nTo: <sip:callee@domain.com>;tag=b\r\nCall-ID: 1\r\nCSeq: 4711 INVITE\r\nContact: sip:callee@u2.domain.com\r\nRecord-Route: <sip:p2.domain.com;lr>\r\nRecord-Route: <sip:p1.example.com;lr>\r\n",
        },
        local_uri: b"sip:caller@example.com",
        remote_uri: b"sip:callee@domain.com",
    };
    creation::creation(rt, call)?;
    dialogs::dialogs(rt, call)?;
    confirmation::confirmation(rt, call)
}
