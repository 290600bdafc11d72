// The sections of an image: identifiers, URIs, numbers with routes. `map` is the image's bit map.
ghost use Rattle.std.specs.Prelude.{◌≡◌, ◌≤◌, ◌<◌, ◌/◌, ◌%◌, eqb, length, drop};
ghost use Rattle.record.specs.Record.{id_text, ids_field, uris_field, tail_field};
ghost use Rattle.image.specs.Places.{id_from, ids_from, uris_from, tail_from};

use crate::parts::{
    read_id, read_number, read_optional, read_refresher, read_routes, read_uri_text, where_stands,
};
use dialog_id::DialogId;
use headers::Refresher;
use text::Span;

// Where the identifier's parts lie, and the place after them.
#[derive(Clone, Copy)]
pub struct IdsAt {
    pub id: DialogId,
    pub end: usize,
}

// Where the URIs lie, which of the local and the remote one is `sips`, and the place after them.
#[derive(Clone, Copy)]
pub struct UrisAt {
    pub target: Span,
    pub local_uri: Span,
    pub remote_uri: Span,
    pub local_secure: bool,
    pub remote_secure: bool,
    pub end: usize,
}

// The numbers, where the routes' section lies, how many routes it has, and the place after it.
#[derive(Clone, Copy)]
pub struct TailAt {
    pub local: u32,
    pub remote: u32,
    pub last_ack: Option<u32>,
    pub seconds: Option<u32>,
    pub refresher: Option<Refresher>,
    pub routes: usize,
    pub route_count: usize,
    pub end: usize,
}

// Kept (5): a reader by value, with the fact as its ghost field, would be made anew at each place, and clauses would say `r.bytes.now`;
// one lent as `&mut` has a clause for what is read, one for its place and one for its bytes.
pub fn read_ids(bytes: &[u8], at: usize, map: usize) -> Option<IdsAt>
    requires { at ≤ length bytes.now }
    ensures { result ≡ ids_from at ((ids_field map).read (drop at bytes.now)) }
{
    let call_id = read_part(bytes, at, bit(map, 1))?;
    let local_tag = read_part(bytes, call_id.end(), bit(map, 2))?;
    let remote_tag = read_part(bytes, local_tag.end(), bit(map, 4))?;
    Some(IdsAt {
        id: DialogId {
            call_id,
            local_tag,
            remote_tag,
        },
        end: remote_tag.end(),
    })
}

// An identifier part by its bit.
// Kept (1): document 01's identifier has three texts, an absent one is empty, and so `DialogId` has three parts; the empty one stands where it would
// begin, where the next is read.
// Kept (7): the flag goes on to `where_stands`, which says why.
// Kept (5): a reader by value, with the fact as its ghost field, would be made anew at each place, and clauses would say `r.bytes.now`;
// one lent as `&mut` has a clause for what is read, one for its place and one for its bytes.
fn read_part(bytes: &[u8], at: usize, stands: bool) -> Option<Span>
    requires { at ≤ length bytes.now }
    ensures { result ≡ id_from at ((id_text stands).read (drop at bytes.now)) }
{
    let absent = Span {
        start: at,
        length: 0,
    };
    where_stands(stands, absent, || read_id(bytes, at))
}

// Kept (5): a reader by value, with the fact as its ghost field, would be made anew at each place, and clauses would say `r.bytes.now`;
// one lent as `&mut` has a clause for what is read, one for its place and one for its bytes.
pub fn read_uris(bytes: &[u8], at: usize) -> Option<UrisAt>
    requires { at ≤ length bytes.now }
    ensures { result ≡ uris_from at (uris_field.read (drop at bytes.now)) }
{
    let (target, _) = read_uri_text(bytes, at)?;
    let (local_uri, local_secure) = read_uri_text(bytes, target.end())?;
    let (remote_uri, remote_secure) = read_uri_text(bytes, local_uri.end())?;
    Some(UrisAt {
        target,
        local_uri,
        remote_uri,
        local_secure,
        remote_secure,
        end: remote_uri.end(),
    })
}

// Kept (5): a reader by value, with the fact as its ghost field, would be made anew at each place, and clauses would say `r.bytes.now`;
// one lent as `&mut` has a clause for what is read, one for its place and one for its bytes.
pub fn read_tail(bytes: &[u8], at: usize, map: usize) -> Option<TailAt>
    requires { at ≤ length bytes.now }
    ensures { result ≡ tail_from at ((tail_field map).read (drop at bytes.now)) }
{
    let (local, b) = where_stands(bit(map, 128), (0, at), || read_number(bytes, at))?;
    let (remote, c) = where_stands(bit(map, 256), (0, b), || read_number(bytes, b))?;
    let (last_ack, d) = where_stands(bit(map, 512), (None, c), || read_optional(bytes, c))?;
    let (seconds, e) = where_stands(bit(map, 1024), (None, d), || read_optional(bytes, d))?;
    let (refresher, routes) = where_stands(bit(map, 2048), (None, e), || read_refresher(bytes, e))?;
    let (route_count, end) = where_stands(
        bit(map, 4096),
        (0, routes),
        || read_routes(bytes, routes),
    )?;
    Some(TailAt {
        local,
        remote,
        last_ack,
        seconds,
        refresher,
        routes,
        route_count,
        end,
    })
}

// Whether a bit of the map stands; `power` is 2 to the bit's number.
fn bit(map: usize, power: usize) -> bool
    requires { 0 < power }
    ensures { result ≡ eqb (map / power % 2) 1 }
{
    map / power % 2 == 1
}
