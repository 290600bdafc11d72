// The responses of a body that wait for their PRACK: RSeq in four bytes and code in two, in list order.
ghost use Rattle.std.specs.Prelude.{◌≡◌, ◌++◌, ◌+◌, ◌*◌, ◌≤◌, length};
ghost use Rattle.limits.specs.Limits.{LimitSet};
ghost use Rattle.edit.specs.Edit.{put_at, over};
ghost use Rattle.codec.specs.Codec.{two, four};
ghost use Rattle.prack_body.specs.Lists.{Pending, Tracked, open_in};
ghost use Rattle.prack_body.specs.Layout.{pending_form, open_bytes};
ghost use Rattle.prack_body.specs.Body.{body_room, Holds};

use edit::put;
use prack_body::{ACKNOWLEDGED_AT, CODE_AT, CSEQ_AT, ENTRIES_AT, ENTRY_SIZE};

// The bytes that are written of an entry.
const OPEN_SIZE: usize = 6;

// How many bytes they take.
// Kept (2): the walk of `open_bytes`, which writes only where they fit and the store has taken its bytes: 18 leaves the output as it was.
// Kept (5): the bytes are a body's alone, as `load` and `push` count them; a type of a short body would be made at each call from an array.
pub fn open_size(body: &[u8]) -> usize
    requires { length body.now ≤ body_room }
    ensures { (L : LimitSet) (t : Tracked) → Holds L body.now (length body.now) t → result ≡ length (open_bytes (open_in t.list)) }
{
    if body.len() < ENTRIES_AT {
        return 0;
    }
    let mut size = 0;
    for entry in body[ENTRIES_AT..].chunks_exact(ENTRY_SIZE) {
        if entry[ACKNOWLEDGED_AT] == 0 {
            size += OPEN_SIZE;
        }
    }
    size
}

// Over the front of an output that has room for them. How many bytes.
pub fn open_bytes(body: &[u8], out: &mut [u8]) -> usize
    requires { (L : LimitSet) × (t : Tracked) × (Holds L body.now (length body.now) t × (length (open_bytes (open_in t.list)) ≤ length out.old)) }
    ensures { (L : LimitSet) (t : Tracked) → Holds L body.now (length body.now) t → (result ≡ length (open_bytes (open_in t.list))) × (out.new ≡ over (open_bytes (open_in t.list)) out.old) }
{
    if body.len() < ENTRIES_AT {
        return 0;
    }
    let mut to = 0;
    for entry in body[ENTRIES_AT..].chunks_exact(ENTRY_SIZE) {
        if entry[ACKNOWLEDGED_AT] == 0 {
            to = put_open(entry, out, to);
        }
    }
    to
}

// The RSeq and the code of an entry, at a place. The place after them.
// Kept (5): a writer of `&mut [u8]` and place would need a clause that names the writer's reference in each function that is lent it,
// beside those about bytes and place: three where two stand.
fn put_open(entry: &[u8], out: &mut [u8], to: usize) -> usize
    requires { (20 ≤ length entry.now) × (to + 6 ≤ length out.old) }
    ensures value { result ≡ to + 6 }
    ensures out_after { (p : Pending) → entry.now ≡ pending_form.write p → out.new ≡ put_at to (four.write p.rseq ++ two.write p.code) out.old }
{
    put(out, to, &entry[..CSEQ_AT]);
    put(out, to + CSEQ_AT, &entry[CODE_AT..CODE_AT + 2]);
    to + OPEN_SIZE
}
