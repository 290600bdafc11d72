// Session-Expires: the interval in seconds, and who refreshes.
use sheet_lines::{ask, ask_block, end_line, show_expires, show_lookup};
use std::io;

pub fn expires(rt: &impl Print) -> io::Result<()> {
    let after_4: &[u8] = b"RFC 4028 after 4";
    let after_13: &[u8] = b"RFC 4028 after 13";
    let rule: &[u8] = b"01 Response";
    value(rt, b"RFC 4028 13", b"4000;refresher=uac")?;
    value(rt, after_4, b"1800;refresher=uas")?;
    value(rt, after_4, b"1800 ; refresher=uas")?;
    value(rt, after_4, b"1800;a=b;refresher=uas")?;
    value(rt, after_4, b"90")?;
    block(rt, after_4, b"x: 4000;refresher=uac\r\n")?;
    block(rt, after_13, b"Session-Expires: 3600\r\nMin-SE: 3600\r\n")?;
    minimum(rt, after_13, b"Min-SE: 3600\r\n")?;
    minimum(rt, after_13, b"Session-Expires: 4000\r\nMin-SE: 4000\r\n")?;
    value(rt, rule, b"1800;Refresher=UAS")?;
    value(rt, rule, b"1800;refresher=both;refresher=uac;refresher=uas")?;
    value(rt, rule, b"1800;refresher=both")?;
    value(rt, rule, b"4294967295")?;
    value(rt, rule, b"4294967296")?;
    value(rt, rule, b"+1800")?;
    value(rt, rule, b";refresher=uac")
}

// Kept (2): `block` and `minimum` ask, show and end a line too, as each line of a sheet; what they ask and how they show it is other.
fn value(rt: &impl Print, place: &[u8], v: &[u8]) -> io::Result<()> {
    ask(rt, place, b"Session-Expires ", v)?;
    show_expires(rt, headers::parse_session_expires(v))?;
    end_line(rt)
}

fn block(rt: &impl Print, place: &[u8], b: &[u8]) -> io::Result<()> {
    ask_block(rt, place, b"Session-Expires", b)?;
    show_expires(rt, headers::session_expires(b))?;
    end_line(rt)
}

fn minimum(rt: &impl Print, place: &[u8], b: &[u8]) -> io::Result<()> {
    ask_block(rt, place, b"Min-SE", b)?;
    show_lookup(rt, b, msg::header(b, b"Min-SE"))?;
    end_line(rt)
}
