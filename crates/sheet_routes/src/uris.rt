// URIs, given ones and those in header values.
use sheet_lines::{ask, ask_size, end_line, show_answer, show_lookup, show_uri};
use std::io;

pub fn uris(rt: &impl Print) -> io::Result<()> {
    examples(rt)?;
    compared(rt)?;
    limits(rt)?;
    estimates(rt)?;
    values(rt)
}

fn examples(rt: &impl Print) -> io::Result<()> {
    let section_19_1_3: &[u8] = b"RFC 3261 19.1.3";
    let section_19_1_6: &[u8] = b"RFC 3261 19.1.6";
    given(rt, section_19_1_3, b"sip:alice@atlanta.com")?;
    given(
        rt,
        section_19_1_3,
        b"sip:alice:secretword@atlanta.com;transport=tcp",
    )?;
    given(
        rt,
        section_19_1_3,
        b"sips:alice@atlanta.com?subject=project%20x&priority=urgent",
    )?;
    given(
        rt,
        section_19_1_3,
        b"sip:+1-212-555-1212:1234@gateway.com;user=phone",
    )?;
    given(rt, section_19_1_3, b"sips:1212@gateway.com")?;
    given(rt, section_19_1_3, b"sip:alice@192.0.2.4")?;
    given(
        rt,
        section_19_1_3,
        b"sip:atlanta.com;method=REGISTER?to=alice%40atlanta.com",
    )?;
    given(rt, section_19_1_3, b"sip:alice;day=tuesday@atlanta.com")?;
    given(rt, section_19_1_6, b"tel:+358-555-1234567;postd=pp22")?;
    given(
        rt,
        section_19_1_6,
        b"sip:+358-555-1234567;postd=pp22@foo.com;user=phone",
    )
}

// Kept (4): the URIs that the section compares are read here, and not compared.
fn compared(rt: &impl Print) -> io::Result<()> {
    let place: &[u8] = b"RFC 3261 19.1.4";
    given(rt, place, b"sip:%61lice@atlanta.com;transport=TCP")?;
    given(rt, place, b"sip:alice@AtLanTa.CoM;Transport=tcp")?;
    given(rt, place, b"sip:carol@chicago.com")?;
    given(rt, place, b"sip:carol@chicago.com;newparam=5")?;
    given(rt, place, b"sip:carol@chicago.com;security=on")?;
    given(
        rt,
        place,
        b"sip:biloxi.com;transport=tcp;method=REGISTER?to=sip:bob%40biloxi.com",
    )?;
    given(
        rt,
        place,
        b"sip:biloxi.com;method=REGISTER;transport=tcp?to=sip:bob%40biloxi.com",
    )?;
    given(
        rt,
        place,
        b"sip:alice@atlanta.com?subject=project%20x&priority=urgent",
    )?;
    given(
        rt,
        place,
        b"sip:alice@atlanta.com?priority=urgent&subject=project%20x",
    )?;
    given(rt, place, b"SIP:ALICE@AtLanTa.CoM;Transport=udp")?;
    given(rt, place, b"sip:alice@AtLanTa.CoM;Transport=UDP")?;
    given(rt, place, b"sip:bob@biloxi.com")?;
    given(rt, place, b"sip:bob@biloxi.com:5060")?;
    given(rt, place, b"sip:bob@biloxi.com;transport=udp")?;
    given(rt, place, b"sip:bob@biloxi.com:6000;transport=tcp")?;
    given(rt, place, b"sip:carol@chicago.com?Subject=next%20meeting")?;
    given(rt, place, b"sip:bob@phone21.boxesbybob.com")?;
    given(rt, place, b"sip:bob@192.0.2.4")
}

fn limits(rt: &impl Print) -> io::Result<()> {
    let place: &[u8] = b"01 Contact";
    given(rt, place, b"sip:[2001:db8::1]:5060")?;
    given(rt, place, b"sip:[]")?;
    given(rt, place, b"sip:@h")?;
    given(rt, place, b"sip:u@")?;
    given(rt, place, b"sip:u v@h")?;
    given(rt, place, b"sip:h:65535")?;
    given(rt, place, b"sip:h:65536")?;
    given(rt, place, b"sip:h:00080")?;
    given(rt, place, b"sip:h:")
}

fn estimates(rt: &impl Print) -> io::Result<()> {
    let place: &[u8] = b"01 Contact";
    estimate(rt, place, b"sip:alice@atlanta.com")?;
    estimate(rt, place, b"sip:bob@biloxi.com:6000;transport=tcp")?;
    estimate(rt, place, b"mailto:watson@bell-telephone.com")?;
    let mut long = [b'a'; 507];
    long[0] = b's';
    long[1] = b'i';
    long[2] = b'p';
    long[3] = b':';
    host_of(rt, &long[..506])?;
    host_of(rt, &long)
}

fn values(rt: &impl Print) -> io::Result<()> {
    let section_8_1_1_3: &[u8] = b"RFC 3261 8.1.1.3";
    let section_20_39: &[u8] = b"RFC 3261 20.39";
    value(rt, b"RFC 3261 8.1.1.2", b"Carol <sip:carol@chicago.com>")?;
    value(
        rt,
        section_8_1_1_3,
        b"\"Bob\" <sips:bob@biloxi.com> ;tag=a48s",
    )?;
    value(
        rt,
        section_8_1_1_3,
        b"sip:+12125551212@phone2net.com;tag=887s",
    )?;
    value(
        rt,
        section_8_1_1_3,
        b"Anonymous <sip:c8oqz84zk7z@privacy.org>;tag=hyh8",
    )?;
    value(
        rt,
        b"RFC 3261 20.20",
        b"\"A. G. Bell\" <sip:agb@bell-telephone.com> ;tag=a48s",
    )?;
    value(
        rt,
        section_20_39,
        b"The Operator <sip:operator@cs.columbia.edu>;tag=287447",
    )?;
    value(rt, section_20_39, b"sip:+12125551212@server.phone2net.com")?;
    value(rt, b"RFC 3261 20.31", b"Bob <sip:bob@biloxi.com>")?;
    value(
        rt,
        b"RFC 3261 20.10",
        b"\"Mr. Watson\" <mailto:watson@bell-telephone.com> ;q=0.1",
    )?;
    value(rt, b"01 sheet", b"\"a<b\" <sip:p@h>")?;
    value(rt, b"01 Contact", b"<sip:p@h")
}

// Kept (2): `estimate`, `host_of` and `value` ask, show and end a line too, as each line of a sheet; what they ask or show is other.
fn given(rt: &impl Print, place: &[u8], s: &[u8]) -> io::Result<()> {
    ask(rt, place, b"URI ", s)?;
    show_uri(rt, s, uri::sip_uri(s))?;
    end_line(rt)
}

fn estimate(rt: &impl Print, place: &[u8], s: &[u8]) -> io::Result<()> {
    ask(rt, place, b"estimate of ", s)?;
    show_answer(rt, uri::uri_estimate(s))?;
    end_line(rt)
}

// The host has four bytes fewer than the URI, which are its scheme's.
fn host_of(rt: &impl Print, s: &[u8]) -> io::Result<()> {
    ask_size(rt, b"01 Contact", b"estimate of a host in a URI", s)?;
    show_answer(rt, uri::uri_estimate(s))?;
    end_line(rt)
}

fn value(rt: &impl Print, place: &[u8], v: &[u8]) -> io::Result<()> {
    ask(rt, place, b"URI in ", v)?;
    show_lookup(rt, v, uri::parse_uri_from_header(v))?;
    end_line(rt)
}
