// A run of request verdicts in lent bytes, of which so many are used, and the 60 s of it that have the most refusals.
#![tactic(auto)]

ghost use Rattle.std.specs.Prelude.{◌≡◌};
ghost use Rattle.output.specs.Output.{leaves, written_from};
ghost use Rattle.worst_minute.specs.Calls.{added, worst_in};
ghost use Rattle.worst_minute.specs.Answers.{worst_answer};

use edit::shift;
use limits::Refusal;

mod counting;
mod entries;

// The bytes of an entry: eight of its time, one of its number.
pub const ENTRY_SIZE: usize = 9;

// The bytes of 4,096 entries.
pub const RUN_ROOM: usize = 36864;

// A verdict at the end of the run: 3, 18. A time below the last one is taken as that one; the 4,097th drops the oldest. The new used length.
// Kept (1, 5, 6): a number is any byte of the log. C says how many of the lent bytes are used, perhaps too many: 3; so both are taken as given.
pub fn add_verdict(time: u64, number: u8, bytes: &mut [u8], used: usize) -> Result<usize, Refusal>
    ensures value { result ≡ written_from (added (record { time = time; number = number }) bytes.old used) }
    ensures bytes_after { bytes.new ≡ leaves (added (record { time = time; number = number }) bytes.old used) bytes.old }
{
    let run = bytes.get(..used).ok_or(Refusal::BadStore)?;
    let last = entries::last_time(run).ok_or(Refusal::BadStore)?;
    let t = last.max(time);
    if used == RUN_ROOM {
        let newest = RUN_ROOM - ENTRY_SIZE;
        shift(bytes, ENTRY_SIZE, 0, newest);
        entries::write_entry(bytes, newest, t, number);
        return Ok(used);
    }
    if bytes.len() - used < ENTRY_SIZE {
        return Err(Refusal::NoRoom);
    }
    entries::write_entry(bytes, used, t, number);
    Ok(used + ENTRY_SIZE)
}

// The most refusals in 60 s that start at a verdict, and the earliest start that has them: 3.
// Kept (5, 6): C says how many of the lent bytes are used, perhaps too many: 3, in its turn among the causes; so both are taken as given.
pub fn worst_minute(bytes: &[u8], used: usize) -> Result<Option<(usize, u64)>, Refusal>
    ensures { result ≡ worst_answer (worst_in bytes.now used) }
{
    let run = bytes.get(..used).ok_or(Refusal::BadStore)?;
    if !entries::is_sized(used) {
        return Err(Refusal::BadStore);
    }
    if used == 0 {
        return Ok(None);
    }
    counting::count(run).map(Some)
}
