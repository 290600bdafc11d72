// One entry more in a body.
ghost use Rattle.std.specs.Prelude.{◌≡◌, true, ◌+◌, ◌≤◌, ◌<◌, length};
ghost use Rattle.limits.specs.Settings.{limits_in};
ghost use Rattle.edit.specs.Edit.{put_at};
ghost use Rattle.methods.specs.Methods.{is_method};
ghost use Rattle.prack_body.specs.Lists.{Tracked, entries_of, registered};
ghost use Rattle.prack_body.specs.Layout.{pending_form};
ghost use Rattle.prack_body.specs.Body.{most_pending, body_room, Holds, Kept};
ghost use Rattle.prack_list.specs.Steps.{last_of, pending_in};

use codec::{write_byte, write_eight, write_four, write_two};
use edit::shift;
use limits::Settings;
use prack_body::{COUNT_AT, ENTRIES_AT, ENTRY_SIZE, LIST_AT};

// Where the second entry begins.
const SECOND_AT: usize = ENTRIES_AT + ENTRY_SIZE;

// A reliable provisional response as it is registered, and when.
// Kept (1): the method is a number, since `register` refuses an unknown one with 28, after 1; a narrower type would ask more of callers.
#[derive(Clone, Copy)]
pub struct Provisional {
    pub rseq: u32,
    pub cseq: u32,
    pub method: u8,
    pub code: u16,
    pub time: u64,
}

// One response more: a list of one where none stood, without the first entry where as many are held as the set allows. The new length.
// Kept (5, 6): any lent bytes that have room will do; a struct that owns an array of that size, and its length, would ask more of callers.
pub fn push(settings: Settings, body: &mut [u8], n: usize, response: Provisional) -> usize
    requires pending { (1 ≤ settings.pending) × (settings.pending ≤ most_pending) }
    requires room { (is_method response.method ≡ true) × ((n ≤ body_room) × (body_room ≤ length body.old)) }
    ensures { (t : Tracked) → Holds (limits_in settings) body.old n t → Holds (limits_in settings) body.new result (registered (limits_in settings) (pending_in response) t) }
{
    let count = make_room(settings, body, n);
    let end = write_entry(body, ENTRIES_AT + count * ENTRY_SIZE, response);
    body[LIST_AT] = 1;
    body[COUNT_AT] = (count + 1) as u8;
    end
}

// Room for one entry more behind the others: where as many are held as the set allows, the first goes. How many are left.
// Kept (5, 6): any lent bytes that have room will do; a struct that owns an array of that size, and its length, would ask more of callers.
fn make_room(settings: Settings, body: &mut [u8], n: usize) -> usize
    requires pending { (1 ≤ settings.pending) × (settings.pending ≤ most_pending) }
    requires room { (n ≤ body_room) × (body_room ≤ length body.old) }
    ensures upper_bound { result < settings.pending }
    ensures kept { (t : Tracked) → Holds (limits_in settings) body.old n t → Kept body.old (last_of (limits_in settings) (entries_of t.list)) body.new result }
{
    if n < ENTRIES_AT {
        return 0;
    }
    let count = (n - ENTRIES_AT) / ENTRY_SIZE;
    let most = settings.pending as usize;
    if count < most {
        return count;
    }
    let others = most - 1;
    shift(body, SECOND_AT, ENTRIES_AT, others * ENTRY_SIZE);
    others
}

// An entry, not acknowledged. The place after it.
// Kept (5): written at a place of bytes, as each number of it is by codec.
fn write_entry(out: &mut [u8], at: usize, response: Provisional) -> usize
    requires { at + 20 ≤ length out.old }
    ensures value { result ≡ at + 20 }
    ensures out_after { out.new ≡ put_at at (pending_form.write (pending_in response)) out.old }
{
    let a = write_four(out, at, response.rseq);
    let b = write_four(out, a, response.cseq);
    let m = write_byte(out, b, response.method);
    let d = write_two(out, m, response.code as usize);
    let k = write_byte(out, d, 0);
    write_eight(out, k, response.time)
}
