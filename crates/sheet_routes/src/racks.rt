// Methods by number, RSeq, reliable provisional responses, and RAck read and written.
use msg::Response;
use sheet_lines::{
    ask, ask_block, ask_number, ask_of, end_line, show_answer, show_block, show_method_number,
    show_rack, show_verdict, show_written,
};
use std::io;

pub fn racks(rt: &impl Print) -> io::Result<()> {
    methods(rt)?;
    method_names(rt)?;
    sequences(rt)?;
    provisionals(rt)?;
    readings(rt)?;
    writings(rt)
}

fn methods(rt: &impl Print) -> io::Result<()> {
    let section_7_1: &[u8] = b"RFC 3261 7.1";
    let row: &[u8] = b"01 row 28";
    let after_25_1: &[u8] = b"RFC 3261 after 25.1";
    method(rt, section_7_1, b"INVITE")?;
    method(rt, section_7_1, b"ACK")?;
    method(rt, section_7_1, b"BYE")?;
    method(rt, section_7_1, b"CANCEL")?;
    method(rt, section_7_1, b"REGISTER")?;
    method(rt, section_7_1, b"OPTIONS")?;
    method(rt, b"RFC 3262 6", b"PRACK")?;
    method(rt, row, b"INFO")?;
    method(rt, row, b"UPDATE")?;
    method(rt, row, b"MESSAGE")?;
    method(rt, row, b"REFER")?;
    method(rt, row, b"SUBSCRIBE")?;
    method(rt, row, b"NOTIFY")?;
    method(rt, row, b"PUBLISH")?;
    method(rt, after_25_1, b"invite")?;
    method(rt, after_25_1, b"EXAMPLE")
}

fn method_names(rt: &impl Print) -> io::Result<()> {
    let place: &[u8] = b"01 row 28";
    name(rt, place, 0)?;
    name(rt, place, 1)?;
    name(rt, place, 10)?;
    name(rt, place, 14)?;
    name(rt, place, 15)
}

fn sequences(rt: &impl Print) -> io::Result<()> {
    let after_3: &[u8] = b"RFC 3262 after 3";
    let after_7_1: &[u8] = b"RFC 3262 after 7.1";
    rseq(rt, b"RFC 3262 7.1", b"RSeq: 988789\r\n")?;
    rseq(rt, after_3, b"RSeq: 1\r\n")?;
    rseq(rt, after_3, b"RSeq: 2147483647\r\n")?;
    rseq(rt, after_7_1, b"RSeq: 4294967295\r\n")?;
    rseq(rt, after_7_1, b"RSeq: 4294967296\r\n")?;
    rseq(rt, after_7_1, b"RSeq: 988789 1\r\n")?;
    rseq(rt, after_7_1, b"CSeq: 988789 INVITE\r\n")
}

fn provisionals(rt: &impl Print) -> io::Result<()> {
    let place: &[u8] = b"RFC 3262 after 3";
    reliable(rt, place, 100, b"RSeq: 988789\r\n")?;
    reliable(rt, place, 101, b"RSeq: 988789\r\n")?;
    reliable(rt, place, 180, b"Require: 100rel\r\nRSeq: 988789\r\n")?;
    reliable(rt, place, 180, b"CSeq: 1 INVITE\r\n")?;
    reliable(rt, place, 199, b"RSeq: 988789\r\n")?;
    reliable(rt, place, 200, b"RSeq: 988789\r\n")
}

fn readings(rt: &impl Print) -> io::Result<()> {
    let after_7_2: &[u8] = b"RFC 3262 after 7.2";
    let row: &[u8] = b"01 row 19";
    rack(rt, b"RFC 3262 7.2", b"776656 1 INVITE")?;
    rack(rt, after_7_2, b"776656 1 invite")?;
    rack(rt, after_7_2, b"4294967295 2147483647 INVITE")?;
    rack(rt, row, b"776656  +1  INVITE")?;
    rack(rt, row, b"776656 1")?;
    rack(rt, row, b"776656 1 INVITE 2")?;
    rack(rt, row, b"776656 one INVITE")?;
    rack(rt, row, b"776656 1 EXAMPLE")?;
    rack(rt, row, b"")
}

fn writings(rt: &impl Print) -> io::Result<()> {
    let row: &[u8] = b"01 row 28";
    written(rt, b"RFC 3262 7.2", 776656, 1, 1)?;
    written(rt, b"RFC 3262 after 7.2", 4294967295, 4294967295, 12)?;
    written(rt, row, 776656, 1, 0)?;
    written(rt, row, 776656, 1, 15)
}

fn method(rt: &impl Print, place: &[u8], s: &[u8]) -> io::Result<()> {
    ask(rt, place, b"number of ", s)?;
    show_method_number(rt, methods::method_number(s))?;
    end_line(rt)
}

// Kept (1): the line shows a number, and two of them are no method's.
fn name(rt: &impl Print, place: &[u8], number: u8) -> io::Result<()> {
    ask_number(rt, place, b"method ", number as u64)?;
    // Kept (6): README's rule: no heap. So the text goes into an array, and the answer says how long it is.
    let mut out = [0u8; 16];
    let w = methods::method_text(number, &mut out);
    show_written(rt, &out, w)?;
    end_line(rt)
}

fn rseq(rt: &impl Print, place: &[u8], block: &[u8]) -> io::Result<()> {
    ask_block(rt, place, b"RSeq", block)?;
    show_answer(rt, prack_headers::extract_rseq(block))?;
    end_line(rt)
}

fn reliable(rt: &impl Print, place: &[u8], status: u16, block: &[u8]) -> io::Result<()> {
    ask_of(rt, place, b"reliable, ", || {
        print!(rt; "{status} of {{")?;
        show_block(rt, block)?;
        rt.write_all(b"}")
    })?;
    show_verdict(
        rt,
        prack_headers::is_reliable_provisional(Response { status, block }),
    )?;
    end_line(rt)
}

fn rack(rt: &impl Print, place: &[u8], value: &[u8]) -> io::Result<()> {
    ask(rt, place, b"RAck ", value)?;
    show_rack(rt, rack::parse_rack(value))?;
    end_line(rt)
}

// Kept (1): the line shows a number, and two of them are no method's.
fn written(rt: &impl Print, place: &[u8], rseq: u32, cseq: u32, method: u8) -> io::Result<()> {
    ask_of(
        rt,
        place,
        b"RAck of ",
        || print!(rt; "{rseq}, {cseq} and method {method}"),
    )?;
    // Kept (6): README's rule: no heap. So the text goes into an array, and the answer says how long it is.
    let mut out = [0u8; 40];
    let w = rack::format_rack(rseq, cseq, method, &mut out);
    show_written(rt, &out, w)?;
    end_line(rt)
}
