// Texts and blocks of 8,192 bytes, which are read, and of 8,193, which are not.
use limits::Refusal;
use sheet_lines::{ask_size, end_line, show_check, show_expires, show_found, show_size};
use std::io;
use text::Span;

pub fn sizes(rt: &impl Print) -> io::Result<()> {
    let mut block = [b'a'; 8193];
    block[1] = b':';
    block[8190] = b'\r';
    block[8191] = b'\n';
    block_of(rt, &block[..8192])?;
    block_of(rt, &block)?;
    tags(rt)?;
    uris(rt)?;
    intervals(rt)
}

fn tags(rt: &impl Print) -> io::Result<()> {
    let mut value = [b'a'; 8193];
    value[0] = b't';
    value[2] = b'g';
    value[3] = b'=';
    tag_of(rt, &value[..8192])?;
    tag_of(rt, &value)
}

fn uris(rt: &impl Print) -> io::Result<()> {
    let mut uri = [b'a'; 8193];
    uri[0] = b's';
    uri[1] = b'i';
    uri[2] = b'p';
    uri[3] = b':';
    uri_of(rt, &uri[..8192])?;
    uri_of(rt, &uri)
}

fn intervals(rt: &impl Print) -> io::Result<()> {
    let zeros = [b'0'; 8193];
    expires_of(rt, &zeros[..8192])?;
    expires_of(rt, &zeros)
}

fn block_of(rt: &impl Print, block: &[u8]) -> io::Result<()> {
    ask_size(rt, b"01 sheet", b"block", block)?;
    show_check(rt, msg::check_block(block))?;
    end_line(rt)?;
    ask_size(rt, b"01 sheet", b"value in a block", block)?;
    show_sized(rt, msg::header(block, b"a"))?;
    end_line(rt)
}

fn tag_of(rt: &impl Print, value: &[u8]) -> io::Result<()> {
    ask_size(rt, b"01 sheet", b"tag in a value", value)?;
    show_sized(rt, headers::extract_tag(value).map(Some))?;
    end_line(rt)
}

fn uri_of(rt: &impl Print, s: &[u8]) -> io::Result<()> {
    ask_size(rt, b"01 sheet", b"host in a URI", s)?;
    show_sized(rt, uri::sip_uri(s).map(|parts| Some(parts.host)))?;
    end_line(rt)
}

fn expires_of(rt: &impl Print, value: &[u8]) -> io::Result<()> {
    ask_size(rt, b"01 sheet", b"Session-Expires", value)?;
    show_expires(rt, headers::parse_session_expires(value))?;
    end_line(rt)
}

// How long the part is that was found, and where it stands.
fn show_sized(rt: &impl Print, l: Result<Option<Span>, Refusal>) -> io::Result<()> {
    show_found(rt, l, |part| show_size(rt, part))
}
