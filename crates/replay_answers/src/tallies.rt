// The counts, and what is printed of them.
ghost use Rattle.std.specs.Prelude.{◌≡◌};

use crate::Call;
use replay_lines::{ROWS, name_at};
use std::io;

// Of a row: how many calls, how many of them differ, and the line of the first that does, if one does.
#[derive(Clone, Copy)]
struct Tally {
    calls: u64,
    differ: u64,
    first: Option<usize>,
}

// Those of the rows, and how many lines can't be read.
#[derive(Clone, Copy)]
pub struct Tallies {
    rows: [Tally; ROWS],
    unreadable: u64,
}

impl Tallies {
    pub fn new() -> Tallies
        ensures { result.unreadable ≡ 0 }
    {
        let none = Tally {
            calls: 0,
            differ: 0,
            first: None,
        };
        Tallies {
            rows: [none; ROWS],
            unreadable: 0,
        }
    }
}

// Counts the call of a line, if it asks for one; none is given where the line can't be read.
pub fn take(
    rt: &impl Print,
    asked: Option<Option<Call>>,
    line: usize,
    tallies: &mut Tallies,
) -> io::Result<()> {
    match asked {
        Some(Some(call)) => add(tallies, call, line),
        Some(None) => {}
        None => {
            println!(rt; "line {line} can't be read")?;
            tallies.unreadable = tallies.unreadable.saturating_add(1);
        }
    }
    Ok(())
}

fn add(tallies: &mut Tallies, call: Call, line: usize) {
    let Some(tally) = tallies.rows.get_mut(call.row) else {
        return;
    };
    tally.calls = tally.calls.saturating_add(1);
    if call.same {
        return;
    }
    tally.first = tally.first.or(Some(line));
    tally.differ = tally.differ.saturating_add(1);
}

// A line for each operation, and the verdict.
pub fn report(rt: &impl Print, head: &[u8], tallies: &Tallies) -> io::Result<()> {
    let mut calls = 0u64;
    let mut differ = 0u64;
    for (number, tally) in tallies.rows.iter().enumerate() {
        if let Some(name) = name_at(head, number) {
            rt.write_all(name)?;
        }
        print!(rt; ": {} calls", tally.calls)?;
        show_differing(rt, *tally)?;
        calls = calls.saturating_add(tally.calls);
        differ = differ.saturating_add(tally.differ);
    }
    print!(rt; "{calls} calls")?;
    if differ == 0 && tallies.unreadable == 0 {
        return rt.write_all(b", all as recorded\n");
    }
    print!(rt; ", {differ} differ")?;
    if tallies.unreadable != 0 {
        print!(rt; ", {} lines can't be read", tallies.unreadable)?;
    }
    rt.write_all(b"\n")
}

fn show_differing(rt: &impl Print, tally: Tally) -> io::Result<()> {
    if let Some(first) = tally.first {
        print!(rt; ", {} differ, the first in line {first}", tally.differ)?;
    }
    rt.write_all(b"\n")
}
