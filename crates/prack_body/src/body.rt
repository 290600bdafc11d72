// What is held for one identifier text, without the text, in a small array of which the first n bytes are its body (specs/Body.antt).
ghost use Rattle.std.specs.Prelude.{◌≡◌, List, ℕ, ◌+◌, ◌-◌, ◌≤◌, ◌<◌, length, None};
ghost use Rattle.limits.specs.Limits.{LimitSet};
ghost use Rattle.prack_body.specs.Lists.{Tracked, cleaned};
ghost use Rattle.prack_body.specs.Body.{Holds, Stands};

use crate::TrackedAt;
use codec::write_eight;
use edit::put;

// The body of what is held, taken from where it lies. Its length.
// Kept (5, 6): any lent bytes that have room will do; a struct that owns an array of that size, and its length, would ask more of callers.
pub fn load(bytes: &[u8], held: TrackedAt, body: &mut [u8]) -> usize
    requires { (held.id.start + held.id.length ≤ held.end) × (held.end ≤ length bytes.now) × (held.end - (held.id.start + held.id.length) ≤ length body.old) }
    ensures value { result ≡ held.end - (held.id.start + held.id.length) }
    ensures holds { (L : LimitSet) (t : Tracked) → Stands L bytes.now held t → Holds L body.new result t }
{
    let from = held.id.end();
    let to = held.end;
    put(body, 0, &bytes[from..to]);
    to - from
}

// The body for an identifier of which nothing was held: a time without a list. Its length.
// Kept (5, 6): any lent bytes that have room will do; a struct that owns an array of that size, and its length, would ask more of callers.
pub fn begin(body: &mut [u8], time: u64) -> usize
    requires { 9 ≤ length body.old }
    ensures { (L : LimitSet) (id : List ℕ) → length id < 65536 → Holds L body.new result (cleaned L time id None) }
{
    let end = write_eight(body, 0, time);
    body[end] = 0;
    end + 1
}
