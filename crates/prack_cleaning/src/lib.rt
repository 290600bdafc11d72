// The entries that stay in a body (prack_body/specs/Body.antt), moved together: the cleanup of a call, and `remove_pracked`.
#![tactic(auto)]

ghost use Rattle.std.specs.Prelude.{◌≡◌, List, ◌++◌, ℕ, ◌+◌, ◌*◌, ◌≤◌, length, drop, Some};
ghost use Rattle.limits.specs.Limits.{LimitSet};
ghost use Rattle.limits.specs.Settings.{limits_in};
ghost use Rattle.codec.specs.Codec.{write_all};
ghost use Rattle.prack_body.specs.Lists.{Pending, Tracked, staying, cleaned, with_list, without_pracked};
ghost use Rattle.prack_body.specs.Layout.{pending_form, AllFormed};
ghost use Rattle.prack_body.specs.Body.{most_pending, body_room, Holds, Kept};
ghost use Rattle.prack_cleaning.specs.KeptList.{kept_list};

use codec::{read_eight, write_eight};
use edit::shift;
use limits::{NANOS_PER_SECOND, Settings};
use prack_body::{COUNT_AT, ENTRIES_AT, ENTRY_SIZE};
use prack_staying::{Other, Staying, Young, elapsed};

// The cleanup of a call at a time, where it is due: the time stored, and the entries that stay. The new length.
// Kept (5, 6): any lent bytes that have room will do; a struct that owns an array of that size, and its length, would ask more of callers.
pub fn clean(settings: Settings, body: &mut [u8], n: usize, time: u64) -> usize
    requires { (9 ≤ n) × ((n ≤ body_room) × (body_room ≤ length body.old)) }
    ensures { (t : Tracked) → Holds (limits_in settings) body.old n t → Holds (limits_in settings) body.new result (cleaned (limits_in settings) time t.id (Some t)) }
{
    let since = read_eight(body, 0);
    let cleanup = settings.cleanup_seconds as u64;
    if elapsed(time, since) < cleanup * NANOS_PER_SECOND {
        return n;
    }
    write_eight(body, 0, time);
    keep_list(body, n, Young { settings, time })
}

// All but the acknowledged entries of an RSeq. The new length.
// Kept (5, 6): any lent bytes that have room will do; a struct that owns an array of that size, and its length, would ask more of callers.
pub fn prune(body: &mut [u8], n: usize, rseq: u32) -> usize
    requires { (9 ≤ n) × ((n ≤ body_room) × (body_room ≤ length body.old)) }
    ensures { (L : LimitSet) (t : Tracked) → Holds L body.old n t → Holds L body.new result (with_list (without_pracked rseq t.list) t) }
{
    keep_list(body, n, Other { rseq })
}

// The entries that stay. The new length.
// Kept (5, 6): any lent bytes that have room will do; a struct that owns an array of that size, and its length, would ask more of callers.
fn keep_list<S: Staying>(body: &mut [u8], n: usize, which: S) -> usize
    requires { (9 ≤ n) × ((n ≤ body_room) × (body_room ≤ length body.old)) }
    ensures { (L : LimitSet) (t : Tracked) → Holds L body.old n t → Holds L body.new result (with_list (kept_list (S.test which) t.list) t) }
{
    if n < ENTRIES_AT {
        return n;
    }
    let kept = keep(body, (n - ENTRIES_AT) / ENTRY_SIZE, which);
    body[COUNT_AT] = kept as u8;
    ENTRIES_AT + kept * ENTRY_SIZE
}

// The entries that stay, moved together behind the count byte. How many.
// Kept (6): the entries begin behind the count byte, where those that stay go; cut out of the body they would be bytes of another place than the clause has.
fn keep<S: Staying>(body: &mut [u8], count: usize, which: S) -> usize
    requires { (count ≤ most_pending) × (10 + count * 20 ≤ length body.old) }
    ensures upper_bound { result ≤ count }
    ensures kept { (ps : List Pending) (rest : List ℕ) → AllFormed ps → count ≡ length ps → drop 10 body.old ≡ write_all pending_form ps ++ rest → Kept body.old (staying (S.test which) ps) body.new result }
{
    let mut kept = 0;
    for at in (ENTRIES_AT..ENTRIES_AT + count * ENTRY_SIZE).step_by(ENTRY_SIZE) {
        if which.stays(&body[at..at + ENTRY_SIZE]) {
            shift(body, at, ENTRIES_AT + kept * ENTRY_SIZE, ENTRY_SIZE);
            kept += 1;
        }
    }
    kept
}
