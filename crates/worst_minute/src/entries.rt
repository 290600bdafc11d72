// The entries of a run, read and written at a place.
ghost use Rattle.std.specs.Prelude.{◌≡◌, ◌+◌, ◌≤◌, length};
ghost use Rattle.edit.specs.Edit.{put_at};
ghost use Rattle.worst_minute.specs.Layout.{entry_bytes, is_sized, decode_run};
ghost use Rattle.worst_minute.specs.Steps.{time_at};
ghost use Rattle.worst_minute.specs.Answers.{last_of};

use crate::{ENTRY_SIZE, RUN_ROOM};
use codec::{read_eight, write_byte, write_eight};

// Whether so many bytes can be those of a run: whole entries, at most 4,096.
pub fn is_sized(n: usize) -> bool
    ensures { result ≡ is_sized n }
{
    n <= RUN_ROOM && n % ENTRY_SIZE == 0
}

// The last time of a run, where the bytes are one.
pub fn last_time(run: &[u8]) -> Option<u64>
    ensures { result ≡ last_of (decode_run run.now) }
{
    if !is_sized(run.len()) {
        return None;
    }
    let mut last: u64 = 0;
    for entry in run.chunks_exact(ENTRY_SIZE) {
        let t = time_at(entry, 0);
        if t < last {
            return None;
        }
        last = t;
    }
    Some(last)
}

// The time of the entry at a place: eight bytes, the highest first.
pub fn time_at(run: &[u8], at: usize) -> u64
    requires { at + 8 ≤ length run.now }
    ensures { result ≡ time_at run.now at }
{
    read_eight(run, at)
}

// An entry over the bytes at a place.
// Kept (1, 5): a number is any byte of the log, 0 or a cause; the place is one of the lent bytes, as for the writers of `codec`.
pub fn write_entry(bytes: &mut [u8], at: usize, time: u64, number: u8)
    requires { at + 9 ≤ length bytes.old }
    ensures { bytes.new ≡ put_at at (entry_bytes (record { time = time; number = number })) bytes.old }
{
    let end = write_eight(bytes, at, time);
    write_byte(bytes, end, number);
}
