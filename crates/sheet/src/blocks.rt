// Header blocks: their lines and the look-up of names.
use limits::Refusal;
use sheet_lines::{ask, ask_block, end_line, show_check, show_lookup, show_next};
use std::io;
use text::Span;

// No example has more.
const MOST_ANSWERS: usize = 10;

pub fn blocks(rt: &impl Print) -> io::Result<()> {
    forms(rt)?;
    subjects(rt)?;
    route_lines(rt)?;
    letter_case(rt)?;
    fields(rt)?;
    lists(rt)
}

// What a block is.
fn forms(rt: &impl Print) -> io::Result<()> {
    let place: &[u8] = b"01 Block";
    block(rt, place, b"")?;
    block(rt, place, b"a:b\r\n")?;
    block(rt, place, b"a:\r\n")?;
    block(rt, place, b"a:b")?;
    block(rt, place, b"a:b\n")?;
    block(rt, place, b"a:b\r\n\r\n")?;
    block(rt, place, b":b\r\n")?;
    block(rt, place, b"a_b:c\r\n")
}

fn subjects(rt: &impl Print) -> io::Result<()> {
    let place: &[u8] = b"RFC 3261 7.3.1";
    value(rt, place, b"Subject", b"Subject:            lunch\r\n")?;
    value(rt, place, b"Subject", b"Subject      :      lunch\r\n")?;
    value(rt, place, b"Subject", b"Subject            :lunch\r\n")?;
    value(rt, place, b"Subject", b"Subject: lunch\r\n")?;
    value(
        rt,
        place,
        b"Subject",
        b"Subject: I know you're there, pick up the phone and talk to me!\r\n",
    )?;
    value(
        rt,
        place,
        b"Subject",
        b"Subject: I know you're there,\r\n         pick up the phone\r\n         and talk to me!\r\n",
    )
}

fn route_lines(rt: &impl Print) -> io::Result<()> {
    let section_7_3_1: &[u8] = b"RFC 3261 7.3.1";
    lines(
        rt,
        section_7_3_1,
        b"Route",
        b"Route: <sip:alice@atlanta.com>\r\nSubject: Lunch\r\nRoute: <sip:bob@biloxi.com>\r\nRoute: <sip:carol@chicago.com>\r\n",
    )?;
    lines(
        rt,
        section_7_3_1,
        b"Route",
        b"Route: <sip:alice@atlanta.com>, <sip:bob@biloxi.com>\r\nRoute: <sip:carol@chicago.com>\r\nSubject: Lunch\r\n",
    )?;
    lines(
        rt,
        section_7_3_1,
        b"Route",
        b"Subject: Lunch\r\nRoute: <sip:alice@atlanta.com>, <sip:bob@biloxi.com>,\r\n       <sip:carol@chicago.com>\r\n",
    )?;
    lines(
        rt,
        b"RFC 3261 after 7.3.1",
        b"Route",
        b"Subject: Lunch\r\nRoute: <sip:alice@atlanta.com>, <sip:bob@biloxi.com>, <sip:carol@chicago.com>\r\n",
    )?;
    lines(
        rt,
        section_7_3_1,
        b"Route",
        b"Route: <sip:bob@biloxi.com>\r\nRoute: <sip:alice@atlanta.com>\r\nRoute: <sip:carol@chicago.com>\r\n",
    )
}

fn letter_case(rt: &impl Print) -> io::Result<()> {
    let place: &[u8] = b"RFC 3261 7.3.1";
    value(
        rt,
        place,
        b"Contact",
        b"Contact: <sip:alice@atlanta.com>;expires=3600\r\n",
    )?;
    value(
        rt,
        place,
        b"Contact",
        b"CONTACT: <sip:alice@atlanta.com>;ExPiReS=3600\r\n",
    )?;
    value(
        rt,
        place,
        b"Content-Disposition",
        b"Content-Disposition: session;handling=optional\r\n",
    )?;
    value(
        rt,
        place,
        b"Content-Disposition",
        b"content-disposition: Session;HANDLING=OPTIONAL\r\n",
    )?;
    value(
        rt,
        place,
        b"Warning",
        b"Warning: 370 devnull \"Choose a bigger pipe\"\r\n",
    )?;
    value(
        rt,
        place,
        b"Warning",
        b"Warning: 370 devnull \"CHOOSE A BIGGER PIPE\"\r\n",
    )
}

// Five compact names are read as their full ones; under any other compact name a line is another line.
fn fields(rt: &impl Print) -> io::Result<()> {
    let section_20_8: &[u8] = b"RFC 3261 20.8";
    let section_20_14: &[u8] = b"RFC 3261 20.14";
    let section_20_36: &[u8] = b"RFC 3261 20.36";
    value(
        rt,
        b"RFC 3261 8.1.1.4",
        b"Call-ID",
        b"Call-ID: f81d4fae-7dec-11d0-a765-00a0c91e6bf6@foo.bar.com\r\n",
    )?;
    value(
        rt,
        section_20_8,
        b"Call-ID",
        b"Call-ID: f81d4fae-7dec-11d0-a765-00a0c91e6bf6@biloxi.com\r\n",
    )?;
    value(
        rt,
        section_20_8,
        b"Call-ID",
        b"i:f81d4fae-7dec-11d0-a765-00a0c91e6bf6@192.0.2.4\r\n",
    )?;
    value(
        rt,
        section_20_8,
        b"i",
        b"i:f81d4fae-7dec-11d0-a765-00a0c91e6bf6@192.0.2.4\r\n",
    )?;
    value(
        rt,
        section_20_14,
        b"Content-Length",
        b"Content-Length: 349\r\n",
    )?;
    value(rt, section_20_14, b"Content-Length", b"l: 173\r\n")?;
    value(
        rt,
        b"RFC 3261 20.20",
        b"From",
        b"f: Anonymous <sip:c8oqz84zk7z@privacy.org>;tag=hyh8\r\n",
    )?;
    value(
        rt,
        section_20_36,
        b"Subject",
        b"Subject: Need more boxes\r\n",
    )?;
    value(rt, section_20_36, b"Subject", b"s: Tech Support\r\n")?;
    value(
        rt,
        b"RFC 3261 20.39",
        b"To",
        b"t: sip:+12125551212@server.phone2net.com\r\n",
    )
}

// The elements of a value that commas separate.
fn lists(rt: &impl Print) -> io::Result<()> {
    let after_20_10: &[u8] = b"RFC 3261 after 20.10";
    elements(rt, b"RFC 3261 20.5", b"INVITE, ACK, OPTIONS, CANCEL, BYE")?;
    elements(
        rt,
        b"RFC 3261 7.3.1",
        b"<sip:alice@atlanta.com>, <sip:bob@biloxi.com>",
    )?;
    elements(
        rt,
        b"RFC 3261 20.43",
        b"307 isi.edu \"Session parameter 'foo' not understood\"",
    )?;
    elements(
        rt,
        after_20_10,
        b"\"Mr. Watson\" <sip:watson@worcester.bell-telephone.com> ;q=0.7; expires=3600, \"Mr. Watson\" <mailto:watson@bell-telephone.com> ;q=0.1",
    )?;
    elements(
        rt,
        after_20_10,
        b"\"Watson, Mr.\" <sip:watson@h>, <sip:a,b@h>",
    )?;
    elements(rt, b"01 sheet", b"\"a<b\" <sip:p@h>, <sip:q@h>")?;
    elements(rt, b"01 Routes", b" , ,")
}

fn block(rt: &impl Print, place: &[u8], b: &[u8]) -> io::Result<()> {
    ask_block(rt, place, b"check", b)?;
    show_check(rt, msg::check_block(b))?;
    end_line(rt)
}

fn value(rt: &impl Print, place: &[u8], name: &[u8], b: &[u8]) -> io::Result<()> {
    ask_block(rt, place, name, b)?;
    show_lookup(rt, b, msg::header(b, name))?;
    end_line(rt)
}

// The answers for all lines of a name.
fn lines(rt: &impl Print, place: &[u8], name: &[u8], b: &[u8]) -> io::Result<()> {
    ask_block(rt, place, name, b)?;
    show_all(rt, b, |from| msg::next_header(b, name, from))?;
    end_line(rt)
}

// The answers for all elements of a value.
fn elements(rt: &impl Print, place: &[u8], v: &[u8]) -> io::Result<()> {
    ask(rt, place, b"elements of ", v)?;
    show_all(rt, v, |from| route_set::next_header_value(v, from))?;
    end_line(rt)
}

// Each of several texts of s, given how the next from a place on is found.
fn show_all<F: Fn(usize) -> Result<Option<(Span, usize)>, Refusal>>(
    rt: &impl Print,
    s: &[u8],
    next: F,
) -> io::Result<()>
    requires { F.IsAlwaysCallable next }
{
    let mut from = 0;
    for _ in 0..MOST_ANSWERS {
        let Some(after) = show_next(rt, s, next(from))? else {
            break;
        };
        from = after;
    }
    Ok(())
}
