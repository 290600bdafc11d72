// How a line of the sheets is written: where the example stands, what is asked, and each kind of answer.
// Kept (5): `rt` and the place of a line: a struct of the two would have a type parameter for `rt`, and each call that has a place of its
// own would make one; the place is no more than words that are printed.
#![tactic(auto)]

mod held;

ghost use Rattle.std.specs.Prelude.{IfOk, IfSome, Ok};

use dialog_id::DialogId;
use headers::Refresher;
pub use held::Held;
use limits::{NANOS_PER_SECOND, Refusal};
use rack::RAck;
use std::fmt::Display;
use std::io;
use text::Span;
use uri::SipUri;

pub fn end_line(rt: &impl Print) -> io::Result<()> {
    rt.write_all(b"\n")
}

// A line up to its answer: where the example stands, what is asked, and of what, as `given` shows it.
pub fn ask_of<F: FnOnce() -> io::Result<()>>(
    rt: &impl Print,
    place: &[u8],
    question: &[u8],
    given: F,
) -> io::Result<()>
    requires { F.pre given }
    ensures asked { IfOk result (λ u. F.post given (Ok u)) }
{
    rt.write_all(place)?;
    rt.write_all(b"  ")?;
    rt.write_all(question)?;
    given()?;
    rt.write_all(b": ")
}

// The same of a text.
pub fn ask(rt: &impl Print, place: &[u8], question: &[u8], given: &[u8]) -> io::Result<()> {
    ask_of(rt, place, question, || rt.write_all(given))
}

// The same of a number.
pub fn ask_number(rt: &impl Print, place: &[u8], question: &[u8], given: u64) -> io::Result<()> {
    ask_of(rt, place, question, || print!(rt; "{given}"))
}

// The same of a text that is told by its size.
pub fn ask_size(rt: &impl Print, place: &[u8], question: &[u8], given: &[u8]) -> io::Result<()> {
    ask_of(
        rt,
        place,
        question,
        || print!(rt; " of {} bytes", given.len()),
    )
}

// The same of a header block.
pub fn ask_block(rt: &impl Print, place: &[u8], question: &[u8], block: &[u8]) -> io::Result<()> {
    ask_of(rt, place, question, || {
        rt.write_all(b" of {")?;
        show_block(rt, block)?;
        rt.write_all(b"}")
    })
}

// The bytes of a block, its line ends as `\r\n`.
pub fn show_block(rt: &impl Print, block: &[u8]) -> io::Result<()> {
    for &b in block {
        show_byte(rt, b)?;
    }
    Ok(())
}

fn show_byte(rt: &impl Print, b: u8) -> io::Result<()> {
    match b {
        b'\r' => rt.write_all(b"\\r"),
        b'\n' => rt.write_all(b"\\n"),
        _ => rt.write_all(&[b]),
    }
}

// The part of a text that an answer names.
pub fn show_part(rt: &impl Print, s: &[u8], part: Span) -> io::Result<()> {
    show_text(rt, part_of(s, part))
}

fn part_of(s: &[u8], part: Span) -> Option<&[u8]> {
    s.get(part.start..)?.get(..part.length)
}

// A part of a text, or that it isn't one.
fn show_text(rt: &impl Print, part: Option<&[u8]>) -> io::Result<()> {
    match part {
        Some([]) => rt.write_all(b"empty"),
        Some(part) => rt.write_all(part),
        None => rt.write_all(b"outside"),
    }
}

// A part in brackets.
pub fn show_bracketed(rt: &impl Print, s: &[u8], part: Span) -> io::Result<()> {
    rt.write_all(b"[")?;
    show_part(rt, s, part)?;
    rt.write_all(b"]")
}

// How long a part is, and where it stands.
pub fn show_size(rt: &impl Print, part: Span) -> io::Result<()> {
    print!(rt; "{} bytes at {}", part.length, part.start)
}

pub fn show_refusal(rt: &impl Print, x: Refusal) -> io::Result<()> {
    print!(rt; "refused {}", x.number())
}

// Kept (2): `show_side` of sheet_dialogs has two other words; lent both, a function would be this `if`.
pub fn show_yes(rt: &impl Print, b: bool) -> io::Result<()> {
    if b {
        rt.write_all(b"yes")
    } else {
        rt.write_all(b"no")
    }
}

// What was answered, as `show` shows it, or why nothing was.
// Kept (2): `show_next` matches by itself: it answers where the next text begins, and `show` answers nothing.
// Kept (4): the two cases of an answer, each shown by a call; nothing is converted.
fn show_given<T, F: FnOnce(T) -> io::Result<()>>(
    rt: &impl Print,
    answer: Result<T, Refusal>,
    show: F,
) -> io::Result<()>
    requires { IfOk answer (λ x. F.pre show x) }
{
    match answer {
        Ok(given) => show(given),
        Err(x) => show_refusal(rt, x),
    }
}

// The same of what may not be there.
pub fn show_found<T, F: FnOnce(T) -> io::Result<()>>(
    rt: &impl Print,
    answer: Result<Option<T>, Refusal>,
    show: F,
) -> io::Result<()>
    requires { IfOk answer (λ o. IfSome o (λ x. F.pre show x)) }
    ensures shown { IfOk answer (λ o. IfSome o (λ x. F.post show x result)) }
{
    match answer {
        Ok(Some(found)) => show(found),
        Ok(None) => rt.write_all(b"nothing"),
        Err(x) => show_refusal(rt, x),
    }
}

// The part of a text that was found.
pub fn show_lookup(rt: &impl Print, s: &[u8], l: Result<Option<Span>, Refusal>) -> io::Result<()> {
    show_found(rt, l, |part| show_part(rt, s, part))
}

// What is there, as `show` shows it, or other words.
pub fn show_or<T, F: FnOnce(T) -> io::Result<()>>(
    rt: &impl Print,
    n: Option<T>,
    none: &[u8],
    show: F,
) -> io::Result<()>
    requires { IfSome n (λ x. F.pre show x) }
    ensures shown { IfSome n (λ x. F.post show x result) }
{
    match n {
        Some(n) => show(n),
        None => rt.write_all(none),
    }
}

// A number that was read, or that there is none.
pub fn show_number(rt: &impl Print, n: Option<u32>) -> io::Result<()> {
    show_or(rt, n, b"unreadable", |n| print!(rt; "{n}"))
}

pub fn show_check(rt: &impl Print, c: Result<(), Refusal>) -> io::Result<()> {
    show_given(rt, c, |_| rt.write_all(b"taken"))
}

// One of several texts, in brackets, or how they end.
pub fn show_next(
    rt: &impl Print,
    s: &[u8],
    n: Result<Option<(Span, usize)>, Refusal>,
) -> io::Result<Option<usize>> {
    match n {
        Ok(Some((part, next))) => {
            show_bracketed(rt, s, part)?;
            rt.write_all(b" ")?;
            Ok(Some(next))
        }
        Ok(None) => {
            rt.write_all(b"nothing")?;
            Ok(None)
        }
        Err(x) => {
            show_refusal(rt, x)?;
            Ok(None)
        }
    }
}

pub fn show_id(rt: &impl Print, block: &[u8], id: Result<DialogId, Refusal>) -> io::Result<()> {
    show_given(rt, id, |d| {
        show_part(rt, block, d.call_id)?;
        rt.write_all(b", local ")?;
        show_part(rt, block, d.local_tag)?;
        rt.write_all(b", remote ")?;
        show_part(rt, block, d.remote_tag)
    })
}

pub fn show_uri(rt: &impl Print, s: &[u8], u: Result<SipUri, Refusal>) -> io::Result<()> {
    show_given(rt, u, |parts| {
        if parts.secure {
            rt.write_all(b"sips, ")?;
        } else {
            rt.write_all(b"sip, ")?;
        }
        show_or(rt, parts.user, b"no user", |part| {
            rt.write_all(b"user ")?;
            show_part(rt, s, part)
        })?;
        rt.write_all(b", host ")?;
        show_part(rt, s, parts.host)?;
        show_or(rt, parts.port, b", no port", |n| print!(rt; ", port {n}"))
    })
}

// A number, or why there is none.
pub fn show_answer<N: Display + Drop>(rt: &impl Print, n: Result<N, Refusal>) -> io::Result<()> {
    show_given(rt, n, |n| print!(rt; "{n}"))
}

pub fn show_expires(
    rt: &impl Print,
    e: Result<Option<(u32, Option<Refresher>)>, Refusal>,
) -> io::Result<()> {
    show_found(rt, e, |(seconds, refresher)| {
        print!(rt; "{seconds}")?;
        show_refresher(rt, refresher)
    })
}

// Kept (4): the sheet's words for a type of a library.
fn show_refresher(rt: &impl Print, r: Option<Refresher>) -> io::Result<()> {
    match r {
        Some(Refresher::Uac) => rt.write_all(b", uac"),
        Some(Refresher::Uas) => rt.write_all(b", uas"),
        None => rt.write_all(b", no refresher"),
    }
}

pub fn show_seconds(rt: &impl Print, n: u64) -> io::Result<()> {
    print!(rt; "{n} s")
}

// Nanoseconds: as seconds where they are whole.
pub fn show_time(rt: &impl Print, nanos: u64) -> io::Result<()> {
    if nanos % NANOS_PER_SECOND == 0 {
        show_seconds(rt, nanos / NANOS_PER_SECOND)
    } else {
        print!(rt; "{nanos} ns")
    }
}

pub fn show_interval(rt: &impl Print, i: Result<u64, Refusal>) -> io::Result<()> {
    show_or_least(rt, i, |nanos| show_time(rt, nanos))
}

pub fn show_checked(rt: &impl Print, c: Result<u32, Refusal>) -> io::Result<()> {
    show_or_least(rt, c.map(|s| s as u64), |s| show_seconds(rt, s))
}

// A time as `show` shows it, or why there is none, and the least so too.
// Kept (4): as in `show_given`: the two cases of an answer, each shown by a call; nothing is converted.
fn show_or_least<F: Fn(u64) -> io::Result<()>>(
    rt: &impl Print,
    answer: Result<u64, Refusal>,
    show: F,
) -> io::Result<()>
    requires { F.IsAlwaysCallable show }
{
    match answer {
        Ok(time) => show(time),
        Err(x) => show_least(rt, x, show),
    }
}

// The number of a refusal, and the least seconds where it names some.
pub fn show_cause(rt: &impl Print, x: Refusal) -> io::Result<()> {
    show_least(rt, x, |least| show_seconds(rt, least))
}

// The number of a refusal, and the least, as `show` shows it, where it names one.
fn show_least<F: Fn(u64) -> io::Result<()>>(rt: &impl Print, x: Refusal, show: F) -> io::Result<()>
    requires { F.IsAlwaysCallable show }
{
    show_refusal(rt, x)?;
    if let Refusal::SessionExpiresTooSmall(least) = x {
        rt.write_all(b" with ")?;
        show(least)?;
    }
    Ok(())
}

// Yes or no, or why neither.
pub fn show_verdict(rt: &impl Print, b: Result<bool, Refusal>) -> io::Result<()> {
    show_given(rt, b, |b| show_yes(rt, b))
}

pub fn show_method_number(rt: &impl Print, m: Result<Option<u8>, Refusal>) -> io::Result<()> {
    show_found(rt, m, |n| print!(rt; "{n}"))
}

pub fn show_rack(rt: &impl Print, r: Result<RAck, Refusal>) -> io::Result<()> {
    show_given(
        rt,
        r,
        |rack| print!(rt; "{} {} {}", rack.rseq, rack.cseq, rack.method),
    )
}

// What was written at the front of the lent bytes.
pub fn show_written(rt: &impl Print, out: &[u8], w: Result<usize, Refusal>) -> io::Result<()> {
    show_given(rt, w, |n| show_text(rt, out.get(..n)))
}
