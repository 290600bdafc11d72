// Replays recorded answers of the Rust (`oracle/run record`, oracle/README.md): calls the C function of each line of the list on its standard input and compares all
// that it answers with what the line has. Prints a line for each operation, and a last one.
#![tactic(auto)]

mod lines;

ghost use Rattle.std.specs.Prelude.{◌≡◌, ◌≤◌, IfOk, length};

use lines::one_line;
use replay_answers::{Memory, Tallies, report, take};
use replay_lines::{ROWS, part};
use std::io;
use std::io::Read;

fn main(rt: HostRuntime) -> io::Result<()> {
    let mut list = zeros();
    let n = read_full(&mut rt.reader(), &mut list)?;
    replay(&rt, &list[..n])
}

// Room for a list, for a memory as it was, or for a line's texts.
// Kept (6): README's rule: no heap. So the room is an array.
fn zeros() -> [u8; 786432]
    ensures { 786432 ≡ length result }
{
    [0; 786432]
}

// Reads to the end, or until the bytes are full: how many there are.
// Kept (2): `read_full` of listing_output has the same five lines; a crate below both programs for them alone would be longer.
fn read_full(input: &mut impl Read, bytes: &mut [u8]) -> io::Result<usize>
    ensures { IfOk result (λ n. n ≤ length bytes.new) }
{
    let mut rest: &mut [u8] = bytes;
    io::copy(&mut input.take(rest.len() as u64), &mut rest)?;
    let left = rest.len();
    Ok(bytes.len().saturating_sub(left))
}

// The head of the list has a row for each operation, and ends before the first empty line.
fn replay(rt: &impl Print, list: &[u8]) -> io::Result<()> {
    if list.len() == 786432 {
        return rt.write_all(b"the list is too long\n");
    }
    let head = part(list, 0, head_end(list));
    let rows = head.iter().filter(|b| **b == b'\n').count();
    if rows != ROWS || has_nameless(head) {
        return println!(rt; "the list doesn't begin with {ROWS} rows");
    }
    let mut tallies = Tallies::new();
    each_line(rt, list, head, &mut tallies)?;
    report(rt, head, &tallies)
}

// How many bytes the lines at the front have, up to the first that is empty or has no end.
fn head_end(list: &[u8]) -> usize {
    let mut end = 0usize;
    for line in list.split(|b| *b == b'\n') {
        let next = end.saturating_add(line.len()).saturating_add(1);
        if line.is_empty() || list.len() < next {
            return end;
        }
        end = next;
    }
    end
}

// Whether a row begins with a blank.
fn has_nameless(head: &[u8]) -> bool {
    head.split(|b| *b == b'\n')
        .any(|row| matches!(row, [b' ', ..]))
}

// Goes through the lines behind the head. They are numbered from 1 at the list's start.
fn each_line(rt: &impl Print, list: &[u8], head: &[u8], tallies: &mut Tallies) -> io::Result<()> {
    let mut memory = Memory::<786432>::new();
    let mut old = zeros();
    let mut bytes = zeros();
    for (before, line) in list.split(|b| *b == b'\n').enumerate().skip(ROWS) {
        let call = one_line(line, head, &mut memory, &mut old, &mut bytes);
        take(rt, call, before + 1, tallies)?;
    }
    Ok(())
}
