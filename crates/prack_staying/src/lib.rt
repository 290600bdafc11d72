// Which entries of a body stay (prack_body/specs/Body.antt): the test of a cleanup, and that of `remove_pracked`.
#![tactic(auto)]

ghost use Rattle.std.specs.Prelude.{◌≡◌, Bool, List, ℕ, ◌++◌, ◌-◌, ◌≤◌, length};
ghost use Rattle.limits.specs.Settings.{limits_in};
ghost use Rattle.prack_body.specs.Lists.{Pending, stays, is_other};
ghost use Rattle.prack_body.specs.Layout.{pending_form, PendingFormed};

use codec::{read_eight, read_four};
use limits::{NANOS_PER_SECOND, Settings};
use prack_body::{ACKNOWLEDGED_AT, REGISTERED_AT};

// A test of entries.
pub trait Staying: Copy {
    ghost test: { Self → Pending → Bool };

    // Whether the entry stays that stands first.
    fn stays(self, entry: &[u8]) -> bool
        requires { 20 ≤ length entry.now }
        ensures { (p : Pending) (rest : List ℕ) → PendingFormed p → entry.now ≡ pending_form.write p ++ rest → result ≡ test self p };
}

// Those stay that are not acknowledged, and not older than a set's timeout at a time.
#[derive(Clone, Copy)]
pub struct Young {
    pub settings: Settings,
    pub time: u64,
}

impl Staying for Young {
    ghost test = { λ young. stays (limits_in young.settings) young.time };

    fn stays(self, entry: &[u8]) -> bool {
        let waits = entry[ACKNOWLEDGED_AT] != 1;
        let since = read_eight(entry, REGISTERED_AT);
        let timeout = self.settings.timeout_seconds as u64;
        waits && elapsed(self.time, since) <= timeout * NANOS_PER_SECOND
    }
}

// All stay but the acknowledged ones of an RSeq.
#[derive(Clone, Copy)]
pub struct Other {
    pub rseq: u32,
}

impl Staying for Other {
    ghost test = { λ other. is_other other.rseq };

    fn stays(self, entry: &[u8]) -> bool {
        read_four(entry, 0) != self.rseq || entry[ACKNOWLEDGED_AT] == 0
    }
}

// The time since another, 0 where it goes back.
pub fn elapsed(time: u64, since: u64) -> u64
    ensures { result ≡ time - since }
{
    time.saturating_sub(since)
}
