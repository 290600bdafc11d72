// Numbers as Rust reads a u32, and the number and method of CSeq.
use sheet_lines::{ask, ask_block, end_line, show_answer, show_number};
use std::io;

pub fn numbers(rt: &impl Print) -> io::Result<()> {
    let sheet: &[u8] = b"01 sheet P";
    let cseq_rule: &[u8] = b"01 CSeq";
    let after_8_1_1_5: &[u8] = b"RFC 3261 after 8.1.1.5";
    let after_20_16: &[u8] = b"RFC 3261 after 20.16";
    cseq(rt, sheet, b"CSeq: +5 INVITE\r\n")?;
    cseq(rt, sheet, b"CSeq: -0 INVITE\r\n")?;
    number(rt, cseq_rule, b"+5")?;
    number(rt, cseq_rule, b"-0")?;
    number(rt, cseq_rule, b"++5")?;
    number(rt, cseq_rule, b"+")?;
    number(rt, cseq_rule, b"0000000000007")?;
    number(rt, cseq_rule, b"4294967295")?;
    number(rt, cseq_rule, b"4294967296")?;
    cseq(rt, b"RFC 3261 8.1.1.5", b"CSeq: 4711 INVITE\r\n")?;
    cseq(rt, b"RFC 3261 20.16", b"CSeq: 4711 INVITE\r\n")?;
    cseq(rt, after_8_1_1_5, b"CSeq: 2147483647 INVITE\r\n")?;
    cseq(rt, after_8_1_1_5, b"CSeq: 4294967295 INVITE\r\n")?;
    cseq(rt, after_8_1_1_5, b"CSeq: 4294967296 INVITE\r\n")?;
    cseq(rt, after_20_16, b"CSeq: 4711 invite\r\n")?;
    cseq(rt, after_20_16, b"CSeq: 4711 EXAMPLE\r\n")?;
    cseq(rt, after_20_16, b"CSeq: 4711\r\n")?;
    cseq(rt, after_20_16, b"Subject: no CSeq\r\n")
}

fn number(rt: &impl Print, place: &[u8], s: &[u8]) -> io::Result<()> {
    ask(rt, place, b"number ", s)?;
    show_number(rt, text::read_u32(s))?;
    end_line(rt)
}

fn cseq(rt: &impl Print, place: &[u8], block: &[u8]) -> io::Result<()> {
    ask_block(rt, place, b"CSeq", block)?;
    show_answer(rt, prack_headers::extract_cseq_number(block))?;
    rt.write_all(b", method ")?;
    show_answer(rt, prack_headers::extract_cseq_method(block))?;
    end_line(rt)
}
