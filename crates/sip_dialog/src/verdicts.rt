// A run of request verdicts in lent bytes, given with how many of them are used, and its worst minute.
ghost use Rattle.std.specs.Prelude.{◌≡◌, ◌<◌};
ghost use Rattle.output.specs.Output.{leaves, written_from};
ghost use Rattle.worst_minute.specs.Calls.{added, worst_in};
ghost use Rattle.c_answers.specs.Given.{ValueGives};
ghost use Rattle.c_minute_answers.specs.Given.{MinuteGives};

use c_answers::give;
use c_minute_answers::give_worst;

// A verdict at the end of the run: 3, 18.
// Kept (1): the C header's parameter: any byte of the log, 0 or a cause.
pub fn sip_dialog_add_verdict(time: u64, number: u8, run: &mut [u8], used: &mut usize) -> u8
    ensures written_gives { ValueGives (written_from (added (record { time = time; number = number }) run.old used.old)) used.old result used.new }
    ensures run_after { run.new ≡ leaves (added (record { time = time; number = number }) run.old used.old) run.old }
    ensures time_bound { time < 18446744073709551616 }
{
    give(worst_minute::add_verdict(time, number, run, *used), used)
}

// The most refusals in 60 s that start at a verdict, and the earliest start that has them: 3.
// Kept (6): the C header's parameters: C lends bytes and says how many are used.
pub fn sip_dialog_worst_minute(
    run: &[u8],
    used: usize,
    refusals: &mut usize,
    found: &mut u8,
    start: &mut u64,
) -> u8
    ensures { MinuteGives (worst_in run.now used) (record { refusals = refusals.old; found = found.old; start = start.old }) result (record { refusals = refusals.new; found = found.new; start = start.new }) }
{
    give_worst(
        worst_minute::worst_minute(run, used),
        refusals,
        found,
        start,
    )
}
