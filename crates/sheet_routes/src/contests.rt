// Who sets the interval: what a callee can force, for offers on both sides of every bound. Times are seconds.
use sheet_lines::{end_line, show_cause, show_seconds, show_yes};
use std::io;

const LARGEST: u64 = u64::MAX;

pub fn contests(rt: &impl Print) -> io::Result<()> {
    within(rt)?;
    least_bounds(rt)?;
    most_bounds(rt)
}

fn within(rt: &impl Print) -> io::Result<()> {
    contest(rt, 1800, 90)?;
    contest(rt, 1800, 120)?;
    contest(rt, 1800, 1799)?;
    contest(rt, 1800, 1800)?;
    contest(rt, 1800, 1801)?;
    contest(rt, 1799, 1800)
}

fn least_bounds(rt: &impl Print) -> io::Result<()> {
    contest(rt, 90, 90)?;
    contest(rt, 91, 90)?;
    contest(rt, 91, 91)?;
    contest(rt, 90, 89)?;
    contest(rt, 89, 89)?;
    contest(rt, 89, 90)?;
    contest(rt, 90, 91)?;
    contest(rt, 0, 0)?;
    contest(rt, 86401, 89)?;
    contest(rt, LARGEST, 0)
}

fn most_bounds(rt: &impl Print) -> io::Result<()> {
    contest(rt, 86399, 90)?;
    contest(rt, 86400, 90)?;
    contest(rt, 86401, 90)?;
    contest(rt, 86399, 86399)?;
    contest(rt, 86400, 86399)?;
    contest(rt, 86400, 86400)?;
    contest(rt, 86401, 86400)?;
    contest(rt, 86401, 86401)?;
    contest(rt, 86400, 86401)?;
    contest(rt, LARGEST, 90)?;
    contest(rt, 90, LARGEST)?;
    contest(rt, LARGEST, LARGEST)
}

fn contest(rt: &impl Print, requested: u64, min_se: u64) -> io::Result<()> {
    rt.write_all(b"02 request 12  offer of ")?;
    show_seconds(rt, requested)?;
    rt.write_all(b", Min-SE ")?;
    show_seconds(rt, min_se)?;
    rt.write_all(b": ")?;
    match interval_contest::interval_contest(requested, min_se) {
        Ok(c) => {
            let first = c.first;
            let retry = c.retry;
            rt.write_all(b"first ")?;
            show_forced(rt, first)?;
            rt.write_all(b"; retry ")?;
            show_forced(rt, retry)?;
            rt.write_all(b"; only the request or 13: ")?;
            show_yes(rt, c.only_requested)?;
        }
        Err(x) => show_cause(rt, x)?,
    }
    end_line(rt)
}

fn show_forced(rt: &impl Print, f: Option<(u64, u64)>) -> io::Result<()> {
    match f {
        Some((least, most)) => {
            show_seconds(rt, least)?;
            rt.write_all(b" to ")?;
            show_seconds(rt, most)
        }
        None => rt.write_all(b"none"),
    }
}
