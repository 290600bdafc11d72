// What is held for one identifier text in a PRACK store: read at a place, and taken into a small array.
#![tactic(auto)]

ghost use Rattle.std.specs.Prelude.{◌≡◌, List, ℕ, ◌+◌, ◌*◌, ◌≤◌, length, take, drop};
ghost use Rattle.limits.specs.Settings.{limits_in};
ghost use Rattle.codec.specs.Codec.{read_all};
ghost use Rattle.prack_body.specs.Layout.{pending_form, list_form, tracked_form};
ghost use Rattle.prack_body.specs.Places.{is_read, list_from, tracked_from};

use limits::{Limits, Settings};
use text::Span;

mod body;

pub use body::{begin, load};

// What lies behind a text (specs/Body.antt): eight bytes of time, then a list's first byte, its count byte and its entries.
pub const LIST_AT: usize = 8;

pub const COUNT_AT: usize = 9;

pub const ENTRIES_AT: usize = 10;

// Where the parts of an entry lie behind its RSeq, and the bytes of one.
pub const CSEQ_AT: usize = 4;

pub const METHOD_AT: usize = 8;

pub const CODE_AT: usize = 9;

pub const ACKNOWLEDGED_AT: usize = 11;

pub const REGISTERED_AT: usize = 12;

pub const ENTRY_SIZE: usize = 20;

// The bytes behind a text with as many entries as a site can have in a list.
pub const BODY_ROOM: usize = ENTRIES_AT + Limits::MAX_PENDING_SETTING * ENTRY_SIZE;

// The bytes of a list before its entries.
const LIST_HEAD: usize = ENTRIES_AT - LIST_AT;

// Where the entries of a list lie: how many there are, and where the first begins.
#[derive(Clone, Copy)]
pub struct EntriesAt {
    pub count: usize,
    pub first: usize,
}

// Where a list lies: its entries, if one stands, and where it ends.
#[derive(Clone, Copy)]
pub struct ListAt {
    pub entries: Option<EntriesAt>,
    pub end: usize,
}

// Where the parts lie of what is held for one identifier text, and the last cleanup's time.
#[derive(Clone, Copy)]
pub struct TrackedAt {
    pub id: Span,
    pub cleaned_at: u64,
    pub entries: Option<EntriesAt>,
    pub end: usize,
}

// What is held, whose text begins with its length bytes at a place.
// Kept (5): a reader by value, with the fact as its ghost field, would be made anew at each place, and clauses would say `r.bytes.now`;
// one lent as `&mut` has a clause for what is read, one for its place and one for its bytes.
pub fn read_tracked(settings: Settings, bytes: &[u8], at: usize) -> Option<TrackedAt>
    requires { at ≤ length bytes.now }
    ensures { result ≡ tracked_from at ((tracked_form (limits_in settings)).read (drop at bytes.now)) }
{
    let id = codec::read_text(bytes, at)?;
    let time = id.end();
    if bytes.len() - time < LIST_AT {
        return None;
    }
    let cleaned_at = codec::read_eight(bytes, time);
    let l = read_list(settings, bytes, time + LIST_AT)?;
    Some(TrackedAt {
        id,
        cleaned_at,
        entries: l.entries,
        end: l.end,
    })
}

// A byte that says whether a list stands, then its count byte and its entries.
// Kept (5): a reader by value, with the fact as its ghost field, would be made anew at each place, and clauses would say `r.bytes.now`;
// one lent as `&mut` has a clause for what is read, one for its place and one for its bytes.
fn read_list(settings: Settings, bytes: &[u8], at: usize) -> Option<ListAt>
    requires { at ≤ length bytes.now }
    ensures { result ≡ list_from at ((list_form (limits_in settings)).read (drop at bytes.now)) }
{
    if bytes.len() == at {
        return None;
    }
    let stands = bytes[at];
    if stands == 0 {
        return Some(ListAt {
            entries: None,
            end: at + 1,
        });
    }
    if stands != 1 {
        return None;
    }
    if bytes.len() - at < LIST_HEAD {
        return None;
    }
    let count = codec::wide(bytes[at + 1]);
    let most = settings.pending as usize;
    if most < count {
        return None;
    }
    if bytes.len() - at - LIST_HEAD < count * ENTRY_SIZE {
        return None;
    }
    let first = at + LIST_HEAD;
    let end = first + count * ENTRY_SIZE;
    if !are_entries(&bytes[first..end]) {
        return None;
    }
    Some(ListAt {
        entries: Some(EntriesAt { count, first }),
        end,
    })
}

// Whether entries have a method's number and a flag where these lie.
fn are_entries(entries: &[u8]) -> bool
    ensures { (bytes : List ℕ) (first count : ℕ) → first + count * 20 ≤ length bytes → entries.now ≡ take (count * 20) (drop first bytes) → result ≡ is_read (read_all pending_form count (drop first bytes)) }
{
    for entry in entries.chunks_exact(ENTRY_SIZE) {
        if !methods::is_method(entry[METHOD_AT]) || 1 < entry[ACKNOWLEDGED_AT] {
            return false;
        }
    }
    true
}
