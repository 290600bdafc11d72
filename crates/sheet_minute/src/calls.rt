// Each call on a run of verdicts, and its line.
use c_answers::check_number;
use limits::Refusal;
use sheet_lines::{Held, show_refusal};
use std::io;

// A verdict, and what was answered.
pub fn add<const N: usize>(
    rt: &impl Print,
    time: u64,
    verdict: Result<(), Refusal>,
    run: &mut Held<N>,
) -> io::Result<()> {
    let number = check_number(verdict);
    print!(rt; "add_verdict at {time}, number {number}: ")?;
    let answer = worst_minute::add_verdict(time, number, &mut run.bytes, run.used);
    run.changed(rt, answer)
}

// So many verdicts alike: a line for all of them, or for the first that is refused.
pub fn add_many<const N: usize>(
    rt: &impl Print,
    count: u64,
    time: u64,
    verdict: Result<(), Refusal>,
    run: &mut Held<N>,
) -> io::Result<()> {
    let number = check_number(verdict);
    print!(rt; "add_verdict at {time}, number {number}, times {count}: ")?;
    for _ in 0..count {
        match worst_minute::add_verdict(time, number, &mut run.bytes, run.used) {
            Ok(n) => run.used = n,
            Err(x) => return run.changed(rt, Err(x)),
        }
    }
    run.changed(rt, Ok(run.used))
}

// The worst minute.
pub fn worst<const N: usize>(rt: &impl Print, run: &Held<N>) -> io::Result<()> {
    rt.write_all(b"worst_minute: ")?;
    match worst_minute::worst_minute(&run.bytes, run.used) {
        Ok(Some((n, start))) => print!(rt; "{n} from {start}")?,
        Ok(None) => rt.write_all(b"0")?,
        Err(x) => show_refusal(rt, x)?,
    }
    run.end(rt)
}
