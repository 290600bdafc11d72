// The tags of From and To values.
use sheet_lines::{ask, end_line, show_lookup};
use std::io;

pub fn tags(rt: &impl Print) -> io::Result<()> {
    let rule: &[u8] = b"01 Identifier";
    let section_8_1_1_3: &[u8] = b"RFC 3261 8.1.1.3";
    let section_20_20: &[u8] = b"RFC 3261 20.20";
    let section_20_39: &[u8] = b"RFC 3261 20.39";
    tag(rt, rule, b"<sip:r@h>; TAG=z")?;
    tag(rt, rule, b"<sip:r@h>;tag=")?;
    tag(rt, rule, b"<sip:r@h>;tag =z")?;
    tag(rt, b"RFC 3261 8.1.1.2", b"Carol <sip:carol@chicago.com>")?;
    tag(
        rt,
        section_8_1_1_3,
        b"\"Bob\" <sips:bob@biloxi.com> ;tag=a48s",
    )?;
    tag(
        rt,
        section_8_1_1_3,
        b"sip:+12125551212@phone2net.com;tag=887s",
    )?;
    tag(
        rt,
        section_8_1_1_3,
        b"Anonymous <sip:c8oqz84zk7z@privacy.org>;tag=hyh8",
    )?;
    tag(
        rt,
        section_20_20,
        b"\"A. G. Bell\" <sip:agb@bell-telephone.com> ;tag=a48s",
    )?;
    tag(
        rt,
        section_20_20,
        b"sip:+12125551212@server.phone2net.com;tag=887s",
    )?;
    tag(
        rt,
        section_20_39,
        b"The Operator <sip:operator@cs.columbia.edu>;tag=287447",
    )?;
    tag(rt, section_20_39, b"sip:+12125551212@server.phone2net.com")?;
    held(rt)
}

// Semicolons in quotes and in angle brackets, and what only looks like them. The first is the test sheet's line.
fn held(rt: &impl Print) -> io::Result<()> {
    let rule: &[u8] = b"02 request 3";
    tag(
        rt,
        b"01 sheet P, 02 request 3",
        b"\"a;tag=x\" <sip:r@h>;tag=y",
    )?;
    tag(
        rt,
        b"after 02 request 3",
        b"\"Hall 2;tag=B\" <sip:hall2@h>;tag=a",
    )?;
    tag(rt, rule, b"<sip:r@h;lr>;tag=x")?;
    tag(rt, rule, b"\"<\";tag=a")?;
    tag(rt, rule, b"<<a>;tag=b>")?;
    tag(rt, rule, b"<\"a>;tag=b")?;
    tag(rt, rule, b"\"a;tag=x")?;
    tag(rt, rule, b"<a;tag=x")?;
    tag(rt, rule, b"\\\";tag=a")?;
    tag(rt, rule, b"<\\>;tag=a")?;
    tag(rt, rule, b"\"\\\";tag=a\";tag=b")?;
    tag(rt, rule, b"\"\\\\\";tag=a")?;
    tag(rt, rule, b";tag=\"a;b\"")
}

fn tag(rt: &impl Print, place: &[u8], value: &[u8]) -> io::Result<()> {
    ask(rt, place, b"tag of ", value)?;
    show_lookup(rt, value, headers::extract_tag(value).map(Some))?;
    end_line(rt)
}
