// A dialog's identifier from given parts.
use dialog_id::{DialogId, IdTexts};
use sheet_lines::{ask, ask_of, ask_size, end_line, show_check};
use std::io;

pub fn identifiers(rt: &impl Print) -> io::Result<()> {
    let rule: &[u8] = b"01 Identifier";
    identifier(
        rt,
        b"RFC 3261 24.2",
        b"a84b4c76e66710",
        b"1928301774",
        b"a6c85cf",
    )?;
    identifier(
        rt,
        b"RFC 3261 after 20.8",
        b"f81d4fae-7dec-11d0-a765-00a0c91e6bf6@biloxi.com",
        b"887s",
        b"287447",
    )?;
    identifier(rt, rule, b"", b"l", b"r")?;
    identifier(rt, rule, b"c", b"", b"r")?;
    identifier(rt, rule, b"c", b"l", b"")?;
    identifier(rt, rule, b"c d", b"l", b"~")?;
    local_tag(rt, b"a tab", b"l\t")?;
    local_tag(rt, b"a byte 127", b"l\x7f")?;
    let long = [b'a'; 257];
    call_id_of(rt, &long[..256])?;
    call_id_of(rt, &long)?;
    tag_of(rt, &long[..128])?;
    tag_of(rt, &long[..129])
}

fn identifier(
    rt: &impl Print,
    place: &[u8],
    call_id: &[u8],
    local_tag: &[u8],
    remote_tag: &[u8],
) -> io::Result<()> {
    ask_of(rt, place, b"identifier [", || {
        rt.write_all(call_id)?;
        rt.write_all(b"][")?;
        rt.write_all(local_tag)?;
        rt.write_all(b"][")?;
        rt.write_all(remote_tag)?;
        rt.write_all(b"]")
    })?;
    check(rt, call_id, local_tag, remote_tag)
}

fn local_tag(rt: &impl Print, what: &[u8], tag: &[u8]) -> io::Result<()> {
    ask(rt, b"01 row 27", b"identifier whose local tag has ", what)?;
    check(rt, b"c", tag, b"r")
}

// Kept (2): `tag_of` differs in a word and in the part that is given; what the two do then is one call of `check`.
fn call_id_of(rt: &impl Print, s: &[u8]) -> io::Result<()> {
    ask_size(rt, b"01 Identifier", b"Call-ID", s)?;
    check(rt, s, b"l", b"r")
}

fn tag_of(rt: &impl Print, s: &[u8]) -> io::Result<()> {
    ask_size(rt, b"01 Identifier", b"tag", s)?;
    check(rt, b"c", b"l", s)
}

// The check of the parts, and the end of the line.
fn check(rt: &impl Print, call_id: &[u8], local_tag: &[u8], remote_tag: &[u8]) -> io::Result<()> {
    let id = IdTexts {
        call_id,
        local_tag,
        remote_tag,
    };
    show_check(rt, DialogId::new(id))?;
    end_line(rt)
}
