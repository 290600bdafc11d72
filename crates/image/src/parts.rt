// The fields of an image, each read at a place. A field whose bit doesn't stand takes no bytes.
ghost use Rattle.std.specs.Prelude.{◌≡◌, ◌+◌, ◌≤◌, ◌<◌, true, false, length, drop, Some};
ghost use Rattle.record.specs.Record.{id_text, uri_text, number, optional, refresher_field, routes_field, state_number, state_byte};
ghost use Rattle.record.specs.NumbersForm.{state_in};
ghost use Rattle.image.specs.Places.{id_from, uri_from, number_at, optional_at, refresher_at, routes_at, state_field_of};

use codec::{read_four, read_text, wide};
use headers::Refresher;
use limits::Limits;
use record::State;
use text::Span;

// A field of the map: what `read` answers where its bit stands, else what is absent.
// Kept (7): the other case is no step but the value that is absent, so that one closure is lent; a second one would only hand that value out.
pub fn where_stands<T: Copy, F: FnOnce() -> Option<T>>(
    stands: bool,
    absent: T,
    read: F,
) -> Option<T>
    requires { stands ≡ true → F.pre read }
    ensures standing { stands ≡ true → F.post read result }
    ensures absent { stands ≡ false → result ≡ Some absent }
{
    if stands {
        return read();
    }
    Some(absent)
}

// An identifier part: not empty, of bytes allowed in block values.
// Kept (5): a reader by value, with the fact as its ghost field, would be made anew at each place, and clauses would say `r.bytes.now`;
// one lent as `&mut` has a clause for what is read, one for its place and one for its bytes.
pub fn read_id(bytes: &[u8], at: usize) -> Option<Span>
    requires { at ≤ length bytes.now }
    ensures { result ≡ id_from at ((id_text true).read (drop at bytes.now)) }
{
    let t = read_text(bytes, at)?;
    if t.length == 0 || !text::all_value(t.text(bytes)) {
        return None;
    }
    Some(t)
}

// A URI's text: one that can be read; and whether it is `sips`.
// Kept (1): document 01 names `let .. else` for the reading of a URI.
// Kept (5): a reader by value, with the fact as its ghost field, would be made anew at each place, and clauses would say `r.bytes.now`;
// one lent as `&mut` has a clause for what is read, one for its place and one for its bytes.
pub fn read_uri_text(bytes: &[u8], at: usize) -> Option<(Span, bool)>
    requires { at ≤ length bytes.now }
    ensures { result ≡ uri_from at (uri_text.read (drop at bytes.now)) }
{
    let t = read_text(bytes, at)?;
    let Some(u) = uri::read_uri(t.text(bytes)) else {
        return None;
    };
    Some((t, u.secure))
}

// A number that isn't 0, and the place after it.
// Kept (5): a reader by value, with the fact as its ghost field, would be made anew at each place, and clauses would say `r.bytes.now`;
// one lent as `&mut` has a clause for what is read, one for its place and one for its bytes.
pub fn read_number(bytes: &[u8], at: usize) -> Option<(u32, usize)>
    requires { at ≤ length bytes.now }
    ensures { result ≡ number_at at ((number true).read (drop at bytes.now)) }
{
    if bytes.len() - at < 4 {
        return None;
    }
    let n = read_four(bytes, at);
    if n == 0 {
        return None;
    }
    Some((n, at + 4))
}

// A number that may be absent, and may be 0; and the place after it.
// Kept (5): a reader by value, with the fact as its ghost field, would be made anew at each place, and clauses would say `r.bytes.now`;
// one lent as `&mut` has a clause for what is read, one for its place and one for its bytes.
pub fn read_optional(bytes: &[u8], at: usize) -> Option<(Option<u32>, usize)>
    requires { at ≤ length bytes.now }
    ensures { result ≡ optional_at at ((optional true).read (drop at bytes.now)) }
{
    if bytes.len() - at < 4 {
        return None;
    }
    Some((Some(read_four(bytes, at)), at + 4))
}

// Who refreshes: 1 uac, 2 uas; and the place after it.
// Kept (5): a reader by value, with the fact as its ghost field, would be made anew at each place, and clauses would say `r.bytes.now`;
// one lent as `&mut` has a clause for what is read, one for its place and one for its bytes.
pub fn read_refresher(bytes: &[u8], at: usize) -> Option<(Option<Refresher>, usize)>
    requires { at ≤ length bytes.now }
    ensures { result ≡ refresher_at at ((refresher_field true).read (drop at bytes.now)) }
{
    if bytes.len() - at < 4 {
        return None;
    }
    // Kept (4): the one place where a number becomes this enum: a `TryFrom` would be this match, with an error that is dropped here.
    match read_four(bytes, at) {
        1 => Some((Some(Refresher::Uac), at + 4)),
        2 => Some((Some(Refresher::Uas), at + 4)),
        _ => None,
    }
}

// A count byte, 1 to 50, then as many URIs: how many, and the place after them.
// Kept (5): a reader by value, with the fact as its ghost field, would be made anew at each place, and clauses would say `r.bytes.now`;
// one lent as `&mut` has a clause for what is read, one for its place and one for its bytes.
pub fn read_routes(bytes: &[u8], at: usize) -> Option<(usize, usize)>
    requires { at ≤ length bytes.now }
    ensures { result ≡ routes_at at ((routes_field true).read (drop at bytes.now)) }
{
    let count = wide(*bytes.get(at)?);
    if count == 0 || Limits::MAX_ROUTE_SET_SIZE < count {
        return None;
    }
    let mut end = at + 1;
    for read in 0..count {
        let (t, _) = read_uri_text(bytes, end)?;
        end = t.end();
    }
    Some((count, end))
}

// The state byte: low two bits the state, bit 2 we are uac, bit 3 secure, the rest 0.
// Kept (5): a reader by value, with the fact as its ghost field, would be made anew at each place, and clauses would say `r.bytes.now`;
// one lent as `&mut` has a clause for what is read, one for its place and one for its bytes.
pub fn read_state(bytes: &[u8], at: usize) -> Option<(State, bool, bool)>
    requires { at ≤ length bytes.now }
    ensures { result ≡ state_field_of (state_byte.read (drop at bytes.now)) }
{
    let b = *bytes.get(at)?;
    if 16 <= b {
        return None;
    }
    // Kept (4): the one place where a number becomes this enum: a `TryFrom` would be this match, with an error that is dropped here.
    let state = match b % 4 {
        1 => State::Early,
        2 => State::Confirmed,
        3 => State::Terminated,
        _ => return None,
    };
    Some((state, b / 4 % 2 == 1, b / 8 == 1))
}

// The number that the state byte has for a state.
// Kept (4): the enum's own number by `as`; a `From` would be this line, without the bound that image_writer's `state_byte` adds up with.
pub fn state_number(state: State) -> u8
    ensures { (result ≡ state_number (state_in state)) × (result ≤ 3) }
{
    state as u8
}
