// RSeq numbers. Each dialog has the Call-ID 1 and the remote tag a; a line names its local tag.
use crate::calls::begin;
use dialog_id::IdTexts;
use limits::Refusal;
use sheet_lines::{Held, ask, end_line, show_answer, show_refusal};
use std::io;

type Store = Held<64>;

pub fn numbers(rt: &impl Print) -> io::Result<()> {
    let rule: &[u8] = b"RFC 3262 after 3";
    let rseq: &[u8] = b"01 RSeq";
    let mut store = Store::new();
    empty(rt, rseq, &store)?;
    next(rt, b"RFC 3262 after 7.1", b"b", 988789, &mut store)?;
    next(rt, rule, b"b", 0, &mut store)?;
    current(rt, rule, b"b", &store)?;
    next(rt, rseq, b"c", 0, &mut store)?;
    next(rt, rseq, b"d", 2147483648, &mut store)?;
    length(rt, rseq, &store)?;
    empty(rt, rseq, &store)?;
    remove(rt, rseq, b"c", &mut store)?;
    current(rt, rseq, b"c", &store)?;
    next(rt, rule, b"c", 2147483647, &mut store)?;
    // The number of c, of which the four bytes lie at 22: 7FFFFFFF becomes FFFFFFFE.
    store.bytes[22] = 255;
    store.bytes[25] = 254;
    next(rt, b"01 RSeq at 4294967294", b"c", 0, &mut store)?;
    next(rt, b"01 RSeq at 4294967295", b"c", 0, &mut store)
}

// The dialog of a local tag.
fn dialog(local_tag: &[u8]) -> IdTexts<'_> {
    IdTexts {
        call_id: b"1",
        local_tag,
        remote_tag: b"a",
    }
}

fn next(
    rt: &impl Print,
    place: &[u8],
    local_tag: &[u8],
    n: u32,
    store: &mut Store,
) -> io::Result<()> {
    begin(rt, place, b"next_rseq", local_tag)?;
    print!(rt; ", n {n}: ")?;
    match rseq_manager::next_rseq(dialog(local_tag), n, &mut store.bytes, store.used) {
        Ok((number, after)) => {
            store.used = after;
            print!(rt; "{number}")?;
        }
        Err(x) => show_refusal(rt, x)?,
    }
    store.end(rt)
}

fn current(rt: &impl Print, place: &[u8], local_tag: &[u8], store: &Store) -> io::Result<()> {
    ask(rt, place, b"current_rseq ", local_tag)?;
    let answer = rseq_manager::current_rseq(dialog(local_tag), &store.bytes, store.used);
    show_answer(rt, answer)?;
    end_line(rt)
}

fn remove(rt: &impl Print, place: &[u8], local_tag: &[u8], store: &mut Store) -> io::Result<()> {
    ask(rt, place, b"remove ", local_tag)?;
    let answer = rseq_manager::remove(dialog(local_tag), &mut store.bytes, store.used);
    store.changed(rt, answer)
}

fn length(rt: &impl Print, place: &[u8], store: &Store) -> io::Result<()> {
    ask(rt, place, b"len", b"")?;
    show_answer(rt, rseq_manager::len(&store.bytes, store.used))?;
    end_line(rt)
}

fn empty(rt: &impl Print, place: &[u8], store: &Store) -> io::Result<()> {
    ask(rt, place, b"is_empty", b"")?;
    let answer = rseq_manager::is_empty(&store.bytes, store.used);
    show_answer(rt, answer.map(u8::from))?;
    end_line(rt)
}
