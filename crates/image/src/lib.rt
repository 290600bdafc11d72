// One record image, read at a place of lent bytes (document 01, "Record image").
#![tactic(auto)]

ghost use Rattle.std.specs.Prelude.{◌≡◌, ◌&&◌, ◌||◌, ◌≤◌, ◌/◌, ◌%◌, eqb, ltb, length, drop};
ghost use Rattle.record.specs.Record.{image};
ghost use Rattle.image.specs.Places.{record_from};

use crate::sections::TailAt;
use record::{Numbers, State};

mod parts;
mod sections;

pub use parts::state_number;
pub use sections::{IdsAt, UrisAt};

// Where the parts of a record lie: the texts, the state byte, the routes' section and the end; and its numbers.
#[derive(Clone, Copy)]
pub struct RecordAt {
    pub ids: IdsAt,
    pub state: usize,
    pub we_are_uac: bool,
    pub uris: UrisAt,
    pub numbers: Numbers,
    pub routes: usize,
    pub route_count: usize,
    pub end: usize,
}

// The record whose image begins at a place.
// Kept (5): a store is one slice with many records, each at a place.
pub fn read_record(bytes: &[u8], at: usize) -> Option<RecordAt>
    requires { at ≤ length bytes.now }
    ensures { result ≡ record_from at (image.read (drop at bytes.now)) }
{
    if bytes.len() - at < 2 {
        return None;
    }
    let map = codec::read_two(bytes, at);
    if !is_map(map) {
        return None;
    }
    let ids = sections::read_ids(bytes, at + 2, map)?;
    let state_at = ids.end;
    let (state, we_are_uac, secure) = parts::read_state(bytes, state_at)?;
    let uris = sections::read_uris(bytes, state_at + 1)?;
    if secure != either(uris.local_secure, uris.remote_secure) {
        return None;
    }
    let tail = sections::read_tail(bytes, uris.end, map)?;
    Some(placed(state, we_are_uac, ids, uris, tail))
}

// Whether bits 3 to 6 stand, and none above 12.
fn is_map(map: usize) -> bool
    ensures { result ≡ eqb (map / 8 % 16) 15 && ltb map 8192 }
{
    map / 8 % 16 == 15 && map < 8192
}

// One of two flags stands, or both.
pub fn either(a: bool, b: bool) -> bool
    ensures { result ≡ a || b }
{
    a || b
}

// The parts of a record that was read.
fn placed(state: State, we_are_uac: bool, ids: IdsAt, uris: UrisAt, tail: TailAt) -> RecordAt
    ensures { result ≡ record { ids = ids; state = ids.end; we_are_uac = we_are_uac; uris = uris; numbers = record { state = state; local = tail.local; remote = tail.remote; last_ack = tail.last_ack; seconds = tail.seconds; refresher = tail.refresher }; routes = tail.routes; route_count = tail.route_count; end = tail.end } }
{
    let last_ack = tail.last_ack;
    let seconds = tail.seconds;
    let refresher = tail.refresher;
    RecordAt {
        ids,
        state: ids.end,
        we_are_uac,
        uris,
        numbers: Numbers {
            state,
            local: tail.local,
            remote: tail.remote,
            last_ack,
            seconds,
            refresher,
        },
        routes: tail.routes,
        route_count: tail.route_count,
        end: tail.end,
    }
}
