// Each call on one record, and its line.
ghost use Rattle.std.specs.Prelude.{◌≡◌};

use crate::records::show_record;
use creation_checks::NewDialog;
use limits::{Refusal, Settings};
use msg::{Request, Response};
use sheet_lines::{
    Held, ask, ask_block, ask_number, ask_of, end_line, show_block, show_cause, show_time, show_yes,
};
use std::io;

// The bytes that a record is lent.
pub type Record = Held<512>;

// A record by an INVITE that we sent.
// Kept (2): `uas` differs in a word and in the function that is called, and one of both would be given the two at each of its calls.
pub fn uac(
    rt: &impl Print,
    place: &[u8],
    given: &[u8],
    call: NewDialog<'_>,
    record: &mut Record,
) -> io::Result<()> {
    ask(rt, place, b"new_uac, ", given)?;
    let answer = dialog_creation::new_uac(call, &mut record.bytes);
    created(rt, answer, record)
}

// A record by an INVITE to us.
pub fn uas(
    rt: &impl Print,
    place: &[u8],
    given: &[u8],
    call: NewDialog<'_>,
    record: &mut Record,
) -> io::Result<()> {
    ask(rt, place, b"new_uas, ", given)?;
    let answer = dialog_creation::new_uas(call, &mut record.bytes);
    created(rt, answer, record)
}

// The call as the other side has it: its URIs turned round.
pub fn turned(call: NewDialog<'_>) -> NewDialog<'_>
    ensures { result ≡ record { request = call.entry.request; response = call.entry.response; local_uri = call.entry.remote_uri; remote_uri = call.entry.local_uri } }
{
    NewDialog {
        local_uri: call.remote_uri,
        remote_uri: call.local_uri,
        ..call
    }
}

// The call with a response of another status.
pub fn answered_by(call: NewDialog<'_>, status: u16) -> NewDialog<'_>
    ensures { result ≡ record { request = call.entry.request; response = record { status = status; block = call.entry.response.block }; local_uri = call.entry.local_uri; remote_uri = call.entry.remote_uri } }
{
    let response = Response {
        status,
        ..call.response
    };
    NewDialog { response, ..call }
}

fn created(rt: &impl Print, answer: Result<usize, Refusal>, record: &mut Record) -> io::Result<()> {
    match answer {
        Ok(n) => {
            record.used = n;
            show_record(rt, record.used_bytes())?;
        }
        Err(x) => {
            record.used = 0;
            show_cause(rt, x)?;
        }
    }
    end_line(rt)
}

// A request, whose block is shown.
// Kept (2): `message` differs in how it asks; what the two do then is one call of `requested`.
pub fn request(
    rt: &impl Print,
    place: &[u8],
    method: &[u8],
    block: &[u8],
    record: &mut Record,
) -> io::Result<()> {
    ask_block(rt, place, method, block)?;
    requested(rt, Request { method, block }, record)
}

// The same of a whole message, whose block is not shown.
pub fn message(
    rt: &impl Print,
    place: &[u8],
    method: &[u8],
    block: &[u8],
    record: &mut Record,
) -> io::Result<()> {
    ask(rt, place, method, b"")?;
    requested(rt, Request { method, block }, record)
}

// Kept (2): `answered` is this of a response, by another call: one function of the two would be lent that call as a closure over the record's bytes, and what
// they share is `updated`.
fn requested(rt: &impl Print, request: Request<'_>, record: &mut Record) -> io::Result<()> {
    let used = record.used;
    let answer = dialog_requests::update_from_request(
        Settings::rust(),
        request,
        &mut record.bytes,
        used,
    );
    updated(rt, answer, record)
}

// A response, whose block is shown.
// Kept (2): `answer` differs in how it asks; what the two do then is one call of `answered`.
pub fn response(
    rt: &impl Print,
    place: &[u8],
    status: u16,
    block: &[u8],
    record: &mut Record,
) -> io::Result<()> {
    ask_of(rt, place, b"", || {
        print!(rt; "{status} of {{")?;
        show_block(rt, block)?;
        rt.write_all(b"}")
    })?;
    answered(rt, Response { status, block }, record)
}

// The same of a whole message, whose block is not shown.
pub fn answer(
    rt: &impl Print,
    place: &[u8],
    status: u16,
    block: &[u8],
    record: &mut Record,
) -> io::Result<()> {
    ask_number(rt, place, b"", status as u64)?;
    answered(rt, Response { status, block }, record)
}

// Kept (2): as `requested`.
fn answered(rt: &impl Print, response: Response<'_>, record: &mut Record) -> io::Result<()> {
    let used = record.used;
    let answer = dialog_responses::update_from_response(response, &mut record.bytes, used);
    updated(rt, answer, record)
}

// Kept (2): `terminate` differs in a word and in the function that is called, and one of both would be given the two at each of its calls.
pub fn confirm(rt: &impl Print, place: &[u8], record: &mut Record) -> io::Result<()> {
    ask(rt, place, b"confirm", b"")?;
    let answer = dialog_changes::confirm(&mut record.bytes, record.used);
    updated(rt, answer, record)
}

pub fn terminate(rt: &impl Print, place: &[u8], record: &mut Record) -> io::Result<()> {
    ask(rt, place, b"terminate", b"")?;
    let answer = dialog_changes::terminate(&mut record.bytes, record.used);
    updated(rt, answer, record)
}

pub fn interval(
    rt: &impl Print,
    place: &[u8],
    seconds: u64,
    record: &mut Record,
) -> io::Result<()> {
    ask_number(rt, place, b"set_session_expires ", seconds)?;
    let used = record.used;
    let answer = dialog_changes::set_session_expires(&mut record.bytes, used, seconds);
    updated(rt, answer, record)
}

// The answer, and the record after it.
fn updated(rt: &impl Print, answer: Result<usize, Refusal>, record: &mut Record) -> io::Result<()> {
    match answer {
        Ok(n) => {
            record.used = n;
            rt.write_all(b"taken; ")?;
        }
        Err(x) => {
            show_cause(rt, x)?;
            rt.write_all(b"; ")?;
        }
    }
    show_record(rt, record.used_bytes())?;
    end_line(rt)
}

pub fn next_local(rt: &impl Print, place: &[u8], record: &mut Record) -> io::Result<()> {
    ask(rt, place, b"next_local_cseq", b"")?;
    match dialog_changes::next_local_cseq(&mut record.bytes, record.used) {
        Ok((number, n)) => {
            record.used = n;
            print!(rt; "{number}; ")?;
            show_record(rt, record.used_bytes())?;
        }
        Err(x) => show_cause(rt, x)?,
    }
    end_line(rt)
}

// Whether a request is the record's.
pub fn matching(
    rt: &impl Print,
    place: &[u8],
    method: &[u8],
    block: &[u8],
    record: &Record,
) -> io::Result<()> {
    ask(rt, place, b"matches_request, ", method)?;
    shown(rt, dialog::matches_request(block, record.used_bytes()))
}

// Whether a refresh is due, so long after the last.
pub fn refresh(rt: &impl Print, place: &[u8], elapsed: u64, record: &Record) -> io::Result<()> {
    ask_of(
        rt,
        place,
        b"needs_refresh after ",
        || show_time(rt, elapsed),
    )?;
    shown(rt, dialog::needs_refresh(record.used_bytes(), elapsed))
}

// Yes or no, or why neither, and the end of the line.
fn shown(rt: &impl Print, answer: Result<bool, Refusal>) -> io::Result<()> {
    match answer {
        Ok(b) => show_yes(rt, b)?,
        Err(x) => show_cause(rt, x)?,
    }
    end_line(rt)
}
