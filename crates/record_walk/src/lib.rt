// The records of a store's used bytes, one after another: where the parts of a record end, and the record, of bytes that are
// known to be whole records.
#![tactic(auto)]

ghost use Rattle.std.specs.Prelude.{◌≡◌, true, ◌+◌, ◌≤◌, ◌<◌, length};
ghost use Rattle.record_walk.specs.Walk.{At, two_at, past_text, EndsRead, ids_end, end_at, texts_end};

use codec::{LENGTH_SIZE, wide};

mod records;

pub use records::Records;

// Where the texts of an identifier end, one after another; the last end is the identifier's.
#[derive(Clone, Copy)]
pub struct IdEnds {
    pub call_id: usize,
    pub local_tag: usize,
    pub remote_tag: usize,
}

// The place past the record at a place.
// Kept (5): `Records` has the place as its own field, and `close_up` writes the bytes that a struct of bytes and place with `At` as its ghost field
// would borrow.
pub fn record_end(bytes: &[u8], p: usize) -> usize
    requires { At bytes.now p }
    ensures { result ≡ end_at bytes.now p }
{
    let m = two(bytes, p);
    let target = ids_end(bytes, p) + 1;
    let local_uri = past(bytes, target);
    let remote_uri = past(bytes, local_uri);
    let numbers = past(bytes, remote_uri);
    let count = m / 128 % 2 + m / 256 % 2 + m / 512 % 2 + m / 1024 % 2 + m / 2048 % 2;
    let routes = numbers + 4 * count;
    if m / 4096 % 2 == 0 {
        return routes;
    }
    texts_end(bytes, routes + 1, wide(bytes[routes]))
}

// The place past the identifier of the record at a place.
// Kept (5): the tables of `distinct` hold bare places, and `close_up` writes the bytes that a struct of bytes and place with `At` as its ghost field
// would borrow.
pub fn ids_end(bytes: &[u8], p: usize) -> usize
    requires { At bytes.now p }
    ensures { (result ≡ ids_end bytes.now p) × (result ≤ length bytes.now) }
{
    id_ends(bytes, p).remote_tag
}

// Where the texts of the identifier of the record at a place end. A text that doesn't stand ends where it would begin.
// Kept (5): the tables of `distinct` hold bare places, and `close_up` writes the bytes that a struct of bytes and place with `At` as its ghost field
// would borrow.
pub fn id_ends(bytes: &[u8], p: usize) -> IdEnds
    requires { At bytes.now p }
    ensures ends { EndsRead bytes.now p result }
    ensures remote_tag_in_bounds { result.remote_tag ≤ length bytes.now }
{
    let m = two(bytes, p);
    let call_id = past_if(bytes, p + 2, m % 2 == 1);
    let local_tag = past_if(bytes, call_id, m / 2 % 2 == 1);
    let remote_tag = past_if(bytes, local_tag, m / 4 % 2 == 1);
    IdEnds {
        call_id,
        local_tag,
        remote_tag,
    }
}

// The place past a text that may stand or not.
// Kept (5): a place is a number that the code adds up, and each reading goes on at the one before's end.
// Kept (7): there is no step to hand over: the other case is the place itself. A closure would be `|| past(bytes, at)` at each of three calls,
// with a clause for when it may be called.
pub fn past_if(bytes: &[u8], at: usize, stands: bool) -> usize
    requires { past_text bytes.now at stands ≤ length bytes.now }
    ensures { result ≡ past_text bytes.now at stands }
{
    if stands { past(bytes, at) } else { at }
}

// The place past a text: its length in two bytes, and its bytes.
// Kept (5): a place is a number that the code adds up, and each reading goes on at the one before's end.
pub fn past(bytes: &[u8], at: usize) -> usize
    requires { past_text bytes.now at true ≤ length bytes.now }
    ensures { result ≡ past_text bytes.now at true }
{
    at + LENGTH_SIZE + two(bytes, at)
}

// The number in two bytes.
// Kept (4, 5): a place is a number that the code adds up: a record's, for its map, or a text's, at the end of the one before. By `u16::from_be_bytes`, which
// `codec::read_two` is, a request at 1,000 records takes 3,637 instructions a record, by these products 3,578; issue 19 gives 3,600 (PERFORMANCE).
pub fn two(bytes: &[u8], at: usize) -> usize
    requires { at + 1 < length bytes.now }
    ensures { (result ≡ two_at bytes.now at) × (result < 65536) }
{
    wide(bytes[at]) * 256 + wide(bytes[at + 1])
}

// The place past so many texts.
// Kept (5): a place is a number that the code adds up, and each reading goes on at the one before's end.
pub fn texts_end(bytes: &[u8], at: usize, count: usize) -> usize
    requires { texts_end count bytes.now at ≤ length bytes.now }
    ensures { result ≡ texts_end count bytes.now at }
{
    let mut end = at;
    for i in 0..count {
        end = past(bytes, end);
    }
    end
}
