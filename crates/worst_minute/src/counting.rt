// One pass over a run with two ends: the first verdict of the 60 s that are counted, and the one read last.
ghost use Rattle.std.specs.Prelude.{◌≡◌, ◌<◌, true, length, Ok};
ghost use Rattle.limits.specs.Outcome.{and_then, or_refuse};
ghost use Rattle.limits.specs.declared.Refusal.TheVariants.{BadStore};
ghost use Rattle.worst_minute.specs.Minute.{worst};
ghost use Rattle.worst_minute.specs.Layout.{is_sized, decode_run};
ghost use Rattle.worst_minute.specs.Steps.{Reaches, moved_to};
ghost use Rattle.worst_minute.specs.Answers.{some_worst, worst_answer};

use crate::ENTRY_SIZE;
use crate::entries::time_at;
use limits::Refusal;

// 60 s in nanoseconds.
const MINUTE: u64 = 60000000000;

// The verdicts from a place up to the one read last: the time of the first, and how many of them are refusals.
#[derive(Clone, Copy)]
pub struct Window {
    pub from: usize,
    pub start: u64,
    pub refusals: usize,
}

// The worst 60 s of whole entries that aren't none; 3 where a time falls.
pub fn count(run: &[u8]) -> Result<(usize, u64), Refusal>
    requires { (0 < length run.now) × (is_sized (length run.now) ≡ true) }
    ensures { some_worst result ≡ worst_answer (and_then (or_refuse BadStore (decode_run run.now)) (λ vs. Ok (worst vs))) }
{
    let first = time_at(run, 0);
    let mut w = Window {
        from: 0,
        start: first,
        refusals: 0,
    };
    let mut most = 0;
    let mut start = first;
    let mut last = first;
    let mut at = 0;
    // Kept (3): by `step_by` a verdict takes four instructions more, by a `for` over the numbers of the entries one: 73,786 and 61,501 for 4,096
    // verdicts, where 60,000 are the bar and this takes 57,402 (docs/LOOK-BACK.md).
    while at < run.len() {
        let t = time_at(run, at);
        if t < last {
            return Err(Refusal::BadStore);
        }
        if MINUTE <= t - w.start {
            if most < w.refusals {
                most = w.refusals;
                start = w.start;
            }
            w = moved(run, w, at);
        }
        if run[at + 8] != 0 {
            w.refusals += 1;
        }
        last = t;
        at += ENTRY_SIZE;
    }
    if w.refusals <= most {
        return Ok((most, start));
    }
    Ok((w.refusals, w.start))
}

// The window without the verdicts that are 60 s or more before the one at a place.
fn moved(run: &[u8], w: Window, at: usize) -> Window
    requires { Reaches run.now w at }
    ensures { result ≡ moved_to run.now w at }
{
    let t = time_at(run, at);
    let mut from = w.from;
    let mut start = w.start;
    let mut refusals = w.refusals;
    // Kept (3): the times decide where it ends; a `for` over the entries would have an end that is never reached.
    while MINUTE <= t - start {
        if run[from + 8] != 0 {
            refusals -= 1;
        }
        from += ENTRY_SIZE;
        start = time_at(run, from);
    }
    Window {
        from,
        start,
        refusals,
    }
}
