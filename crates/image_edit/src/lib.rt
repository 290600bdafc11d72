// A record's numbers changed in its place in lent bytes. The caller has read it, and has measured that the change fits.
#![tactic(auto)]

ghost use Rattle.std.specs.Prelude.{◌≡◌, ◌∷◌, [], ◌||◌, ◌+◌, ◌-◌, ◌≤◌, ◌<◌, ltb, length, take};
ghost use Rattle.edit.specs.Edit.{over, put_at, spliced};
ghost use Rattle.codec.specs.Codec.{two};
ghost use Rattle.record.specs.NumbersForm.{meaning};
ghost use Rattle.record.specs.Record.{bit_of, state_byte_number};
ghost use Rattle.image_edit.specs.Changes.{changed};
ghost use Rattle.image_edit.specs.Stands.{StandsAt};
ghost use Rattle.image_edit.specs.Maps.{map_from};

use codec::{write_byte, write_two};
use edit::move_tail;
use image::{IdsAt, RecordAt, either};
use image_writer::{numbers_bits, state_byte};
use record::Numbers;

mod tail;

pub use tail::Tail;

// A record that was read among the used bytes: where its image begins, and its parts.
#[derive(Clone, Copy)]
pub struct RecordPlace {
    pub used: usize,
    pub at: usize,
    pub record: RecordAt,
}

// Other numbers, the state among them, for the record whose image begins at a place of the used bytes, or numbers and routes. The new used length.
// Kept (5): the bytes are `&mut`: a struct of them and the place isn't Copy, so that it would be made anew for each further call, and clauses
// would say `p.exit.0.now` for `bytes.new`.
pub fn change_numbers<T: Tail>(bytes: &mut [u8], p: RecordPlace, tail: T) -> usize
    requires stands { StandsAt bytes.old p }
    requires bytes_in_bounds { length (changed (T.makes tail) p.at (take p.used bytes.old)) ≤ length bytes.old }
    ensures value { result ≡ length (changed (T.makes tail) p.at (take p.used bytes.old)) }
    ensures bytes_after { bytes.new ≡ over (changed (T.makes tail) p.at (take p.used bytes.old)) bytes.old }
{
    let n = replace_tail(bytes, p, tail);
    write_marks(bytes, p, tail.numbers(), tail.count(p.record));
    n
}

// The bit map and the state byte of a record with these numbers and so many routes, which stands at the place: the bytes between them stay.
// Kept (5): the bytes are `&mut`: a struct of them and the place isn't Copy, so that it would be made anew for each further call, and clauses
// would say `p.exit.0.now` for `bytes.new`.
pub fn write_marks(bytes: &mut [u8], p: RecordPlace, numbers: Numbers, count: usize)
    requires { (p.at + 2 ≤ length bytes.old) × (p.record.state + 1 ≤ length bytes.old) }
    ensures { bytes.new ≡ put_at p.at (two.write (map_from (meaning numbers) p.record.ids count)) (put_at p.record.state (state_byte_number (record { state = (meaning numbers).state; we_are_uac = p.record.we_are_uac; secure = p.record.uris.local_secure || p.record.uris.remote_secure }) ∷ []) bytes.old) }
{
    let r = p.record;
    let uris = r.uris;
    let secure = either(uris.local_secure, uris.remote_secure);
    let map = new_map(numbers, r.ids, count);
    write_byte(bytes, r.state, state_byte(numbers, r.we_are_uac, secure));
    write_two(bytes, p.at, map);
}

// The section behind the URIs of the record that goes, replaced by this one. The new used length.
// Kept (5): the bytes are `&mut`: a struct of them and the place isn't Copy, so that it would be made anew for each further call, and clauses
// would say `p.exit.0.now` for `bytes.new`.
fn replace_tail<T: Tail>(bytes: &mut [u8], p: RecordPlace, tail: T) -> usize
    requires in_order { (p.record.uris.end ≤ T.ended p.record) × (T.ended p.record ≤ p.used) × (p.used ≤ length bytes.old) }
    requires bytes_in_bounds { p.used - (T.ended p.record - p.record.uris.end) + length (T.section tail) ≤ length bytes.old }
    ensures value { result ≡ p.used - (T.ended p.record - p.record.uris.end) + length (T.section tail) }
    ensures bytes_after { bytes.new ≡ over (spliced p.record.uris.end (T.ended p.record - p.record.uris.end) (T.section tail) (take p.used bytes.old)) bytes.old }
{
    let r = p.record;
    let uris = r.uris;
    let at = uris.end;
    let n = move_tail(bytes, p.used, at, T::end(r) - at, tail.size());
    tail.write(bytes, at);
    n
}

// The bit map of a record with these identifiers, these numbers and so many routes.
// Kept (2): `front_map` of image_writer has the identifiers' texts, which no caller here is asked for. What is the same is the last line, a sum:
// a function of it would have a clause as long, and a bound of its own.
pub fn new_map(x: Numbers, ids: IdsAt, routes: usize) -> usize
    ensures value { result ≡ map_from (meaning x) ids routes }
    ensures upper_bound { result < 65536 }
{
    let id = ids.id;
    let call_id = id.call_id;
    let local_tag = id.local_tag;
    let remote_tag = id.remote_tag;
    let parts = bit(call_id.length) + 2 * bit(local_tag.length) + 4 * bit(remote_tag.length);
    parts + 120 + numbers_bits(x) + 4096 * bit(routes)
}

// 1 where there are some.
// Kept (2): image_writer's `number_bit`, which is private there, of a length: one for both would be public, of a `usize`, and lent the two numbers by `as`, for
// one line.
fn bit(n: usize) -> usize
    ensures { (result ≡ bit_of (ltb 0 n)) × (result ≤ 1) }
{
    usize::from(0 < n)
}
