// Whole messages of the RFCs' call flows: the identifier, CSeq, Contact and Session-Expires of each.
use dialog_id::DialogId;
use sheet_lines::{ask, end_line, show_answer, show_expires, show_id, show_lookup};
use std::io;

pub fn flows(rt: &impl Print) -> io::Result<()> {
    registration(rt)?;
    session_setup(rt)?;
    session_end(rt)?;
    session_timer(rt)
}

fn registration(rt: &impl Print) -> io::Result<()> {
    request(
        rt,
        b"RFC 3261 24.1 F1",
        b"REGISTER",
        b"Via: SIP/2.0/UDP bobspc.biloxi.com:5060;branch=z9hG4bKnashds7\r\nMax-Forwards: 70\r\nTo: Bob <sip:bob@biloxi.com>\r\nFrom: Bob <sip:bob@biloxi.com>;tag=456248\r\nCall-ID: 843817637684230@998sdasdh09\r\nCSeq: 1826 REGISTER\r\nContact: <sip:bob@192.0.2.4>\r\nExpires: 7200\r\nContent-Length: 0\r\n",
    )?;
    response(
        rt,
        b"RFC 3261 after 24.1 F2",
        b"200",
        b"Via: SIP/2.0/UDP bobspc.biloxi.com:5060;branch=z9hG4bKnashds7;received=192.0.2.4\r\nTo: Bob <sip:bob@biloxi.com>;tag=2493k59kd\r\nFrom: Bob <sip:bob@biloxi.com>;tag=456248\r\nCall-ID: 843817637684230@998sdasdh09\r\nCSeq: 1826 REGISTER\r\nContact: <sip:bob@192.0.2.4>\r\nExpires: 7200\r\nContent-Length: 0\r\n",
    )
}

fn session_setup(rt: &impl Print) -> io::Result<()> {
    request(
        rt,
        b"RFC 3261 24.2 F1",
        b"INVITE",
        b"Via: SIP/2.0/UDP pc33.atlanta.com;branch=z9hG4bKnashds8\r\nMax-Forwards: 70\r\nTo: Bob <sip:bob@biloxi.com>\r\nFrom: Alice <sip:alice@atlanta.com>;tag=1928301774\r\nCall-ID: a84b4c76e66710\r\nCSeq: 314159 INVITE\r\nContact: <sip:alice@pc33.atlanta.com>\r\nContent-Type: application/sdp\r\nContent-Length: 142\r\n",
    )?;
    response(
        rt,
        b"RFC 3261 after 24.2 F2",
        b"100",
        b"Via: SIP/2.0/UDP pc33.atlanta.com;branch=z9hG4bKnashds8;received=192.0.2.1\r\nTo: Bob <sip:bob@biloxi.com>\r\nFrom: Alice <sip:alice@atlanta.com>;tag=1928301774\r\nCall-ID: a84b4c76e66710\r\nCSeq: 314159 INVITE\r\nContent-Length: 0\r\n",
    )?;
    response(
        rt,
        b"RFC 3261 after 24.2 F11",
        b"200",
        b"Via: SIP/2.0/UDP pc33.atlanta.com;branch=z9hG4bKnashds8;received=192.0.2.1\r\nTo: Bob <sip:bob@biloxi.com>;tag=a6c85cf\r\nFrom: Alice <sip:alice@atlanta.com>;tag=1928301774\r\nCall-ID: a84b4c76e66710\r\nCSeq: 314159 INVITE\r\nContact: <sip:bob@192.0.2.4>\r\nContent-Type: application/sdp\r\nContent-Length: 131\r\n",
    )?;
    request(
        rt,
        b"RFC 3261 24.2 F12",
        b"ACK",
        b"Via: SIP/2.0/UDP pc33.atlanta.com;branch=z9hG4bKnashds9\r\nMax-Forwards: 70\r\nTo: Bob <sip:bob@biloxi.com>;tag=a6c85cf\r\nFrom: Alice <sip:alice@atlanta.com>;tag=1928301774\r\nCall-ID: a84b4c76e66710\r\nCSeq: 314159 ACK\r\nContent-Length: 0\r\n",
    )
}

fn session_end(rt: &impl Print) -> io::Result<()> {
    request(
        rt,
        b"RFC 3261 24.2 F13",
        b"BYE",
        b"Via: SIP/2.0/UDP 192.0.2.4;branch=z9hG4bKnashds10\r\nMax-Forwards: 70\r\nFrom: Bob <sip:bob@biloxi.com>;tag=a6c85cf\r\nTo: Alice <sip:alice@atlanta.com>;tag=1928301774\r\nCall-ID: a84b4c76e66710\r\nCSeq: 231 BYE\r\nContent-Length: 0\r\n",
    )?;
    response(
        rt,
        b"RFC 3261 24.2 F14",
        b"200",
        b"Via: SIP/2.0/UDP 192.0.2.4;branch=z9hG4bKnashds10\r\nFrom: Bob <sip:bob@biloxi.com>;tag=a6c85cf\r\nTo: Alice <sip:alice@atlanta.com>;tag=1928301774\r\nCall-ID: a84b4c76e66710\r\nCSeq: 231 BYE\r\nContent-Length: 0\r\n",
    )?;
    request(
        rt,
        b"RFC 3261 after 7.3.3",
        b"BYE in compact names",
        b"f: Bob <sip:bob@biloxi.com>;tag=a6c85cf\r\nt: Alice <sip:alice@atlanta.com>;tag=1928301774\r\ni: a84b4c76e66710\r\nCSeq: 231 BYE\r\nm: <sip:bob@192.0.2.4>\r\nx: 1800\r\n",
    )
}

fn session_timer(rt: &impl Print) -> io::Result<()> {
    let place: &[u8] = b"RFC 4028 after 13";
    request(
        rt,
        place,
        b"INVITE",
        b"Supported: timer\r\nSession-Expires: 50\r\nMax-Forwards: 70\r\nTo: Bob <sips:bob@biloxi.example.com>\r\nFrom: Alice <sips:alice@atlanta.example.com>;tag=1928301774\r\nCall-ID: a84b4c76e66710\r\nCSeq: 314159 INVITE\r\nContact: <sips:alice@pc33.atlanta.example.com>\r\n",
    )?;
    response(
        rt,
        place,
        b"200",
        b"Require: timer\r\nSupported: timer\r\nSession-Expires: 4000;refresher=uac\r\nTo: Bob <sips:bob@biloxi.example.com>;tag=9as888nd\r\nFrom: Alice <sips:alice@atlanta.example.com>;tag=1928301774\r\nCall-ID: a84b4c76e66710\r\nCSeq: 314161 INVITE\r\nContact: <sips:bob@192.0.2.4>\r\n",
    )
}

// From is the local side of a request.
fn request(rt: &impl Print, place: &[u8], message: &[u8], block: &[u8]) -> io::Result<()> {
    ask(rt, place, message, b", identifier")?;
    show_id(rt, block, DialogId::from_request(block))?;
    end_line(rt)?;
    fields(rt, place, message, block)
}

fn response(rt: &impl Print, place: &[u8], message: &[u8], block: &[u8]) -> io::Result<()> {
    ask(rt, place, message, b", identifier of the uac")?;
    show_id(rt, block, DialogId::from_response_uac(block))?;
    end_line(rt)?;
    ask(rt, place, message, b", identifier of the uas")?;
    show_id(rt, block, DialogId::from_response_uas(block))?;
    end_line(rt)?;
    fields(rt, place, message, block)
}

fn fields(rt: &impl Print, place: &[u8], message: &[u8], block: &[u8]) -> io::Result<()> {
    ask(rt, place, message, b", CSeq")?;
    show_answer(rt, prack_headers::extract_cseq_number(block))?;
    rt.write_all(b", method ")?;
    show_answer(rt, prack_headers::extract_cseq_method(block))?;
    end_line(rt)?;
    ask(rt, place, message, b", Contact")?;
    show_lookup(rt, block, route_set::read_contact(block))?;
    end_line(rt)?;
    ask(rt, place, message, b", Session-Expires")?;
    show_expires(rt, headers::session_expires(block))?;
    end_line(rt)
}
