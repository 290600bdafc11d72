// The sections of an image and their sizes, and the two fields that say what stands: the map and the state byte.
ghost use Rattle.std.specs.Prelude.{◌≡◌, ◌+◌, ◌*◌, ◌≤◌, ◌<◌, length, ltb};
ghost use Rattle.edit.specs.Edit.{put_at};
ghost use Rattle.record.specs.NumbersForm.{meaning};
ghost use Rattle.record.specs.Record.{bit_of, is_filled, is_given, id_text, state_byte_number};
ghost use Rattle.image_writer.specs.Parts.{ids_given, uris_given, ids_bytes, uris_bytes, numbers_bytes, numbers_map, map_with};

use crate::fields::{write_id, write_number, write_optional};
use crate::{Front, UriTexts};
use codec::{LENGTH_SIZE, write_text};
use dialog_id::IdTexts;
use image::state_number;
use record::Numbers;

// ---- sizes

pub fn ids_size(front: Front<'_>) -> usize
    ensures value { result ≡ length (ids_bytes (ids_given front.entry.id)) }
    ensures upper_bound { result ≤ 200000 }
{
    let id = front.id;
    id_size(id.call_id) + id_size(id.local_tag) + id_size(id.remote_tag)
}

// Kept (5): one text of a `Front`, whose ghost field `id_short` says this of each; a type of a short text would be put around all three.
fn id_size(t: &[u8]) -> usize
    requires { length t.now < 65536 }
    ensures value { result ≡ length ((id_text (is_filled t.now)).write t.now) }
    ensures upper_bound { result < 65538 }
{
    if t.is_empty() {
        return 0;
    }
    LENGTH_SIZE + t.len()
}

pub fn uris_size(uris: UriTexts<'_>) -> usize
    ensures value { result ≡ length (uris_bytes (uris_given uris.entry)) }
    ensures upper_bound { result ≤ 200000 }
{
    3 * LENGTH_SIZE + uris.target.len() + uris.local_uri.len() + uris.remote_uri.len()
}

pub fn numbers_size(x: Numbers) -> usize
    ensures value { result ≡ length (numbers_bytes (meaning x)) }
    ensures upper_bound { result ≤ 20 }
{
    let last_ack = x.last_ack;
    let seconds = x.seconds;
    let refresher = x.refresher;
    4 * (number_bit(x.local)
        + number_bit(x.remote)
        + optional_bit(last_ack)
        + optional_bit(seconds)
        + optional_bit(refresher))
}

// ---- what stands

// The bit map, with routes or without: bits 3 to 6 always stand.
pub fn front_map(x: Numbers, id: IdTexts<'_>, routed: bool) -> usize
    ensures value { result ≡ map_with (ids_given id.entry) (meaning x) routed }
    ensures upper_bound { result < 65536 }
{
    let ids = text_bit(id.call_id) + 2 * text_bit(id.local_tag) + 4 * text_bit(id.remote_tag);
    ids + 120 + (numbers_bits(x) + 4096 * usize::from(routed))
}

// The bits of the numbers.
pub fn numbers_bits(x: Numbers) -> usize
    ensures value { result ≡ numbers_map (meaning x) }
    ensures upper_bound { result < 4096 }
{
    let last_ack = x.last_ack;
    let seconds = x.seconds;
    let refresher = x.refresher;
    128 * number_bit(x.local)
        + 256 * number_bit(x.remote)
        + 512 * optional_bit(last_ack)
        + 1024 * optional_bit(seconds)
        + 2048 * optional_bit(refresher)
}

// The state byte: the state, bit 2 we are uac, bit 3 secure.
pub fn state_byte(x: Numbers, we_are_uac: bool, secure: bool) -> u8
    ensures { result ≡ state_byte_number (record { state = (meaning x).state; we_are_uac = we_are_uac; secure = secure }) }
{
    let state = x.state;
    state_number(state) + 4 * u8::from(we_are_uac) + 8 * u8::from(secure)
}

// 1 where the text is not empty, the number is not 0, the value is present.
// Kept (2): each has the definition's test of its own type in its clause; with one function over a bool each caller would have to show that its test is that.
fn text_bit(t: &[u8]) -> usize
    ensures { (result ≡ bit_of (is_filled t.now)) × (result ≤ 1) }
{
    usize::from(!t.is_empty())
}

// Kept (2): as `text_bit`.
fn number_bit(n: u32) -> usize
    ensures { (result ≡ bit_of (ltb 0 n)) × (result ≤ 1) }
{
    usize::from(n != 0)
}

// Kept (2): as `text_bit`.
fn optional_bit<T: Copy>(o: Option<T>) -> usize
    ensures { (result ≡ bit_of (is_given o)) × (result ≤ 1) }
{
    usize::from(o.is_some())
}

// ---- the sections

// Kept (5): a writer of `&mut [u8]` and place would need a clause that names the writer's reference in each function that is lent it,
// beside those about bytes and place: three where two stand.
// Kept (2): `write_uris` has these three lines with `write_text`: an empty URI is written too, as two length bytes, an empty part isn't.
pub fn write_ids(out: &mut [u8], at: usize, front: Front<'_>) -> usize
    requires { at + length (ids_bytes (ids_given front.id)) ≤ length out.old }
    ensures value { result ≡ at + length (ids_bytes (ids_given front.entry.id)) }
    ensures out_after { out.new ≡ put_at at (ids_bytes (ids_given front.entry.id)) out.old }
{
    let id = front.id;
    let a = write_id(out, at, id.call_id);
    let b = write_id(out, a, id.local_tag);
    write_id(out, b, id.remote_tag)
}

// Kept (5): a writer of `&mut [u8]` and place would need a clause that names the writer's reference in each function that is lent it,
// beside those about bytes and place: three where two stand.
// Kept (2): store_ids' `write_id` and rseq_manager's `write_entry` have three such lines, of an identifier's texts: one function of them would be lent three
// slices, with a clause for each one's length.
// Kept (4): three fields written in turn: no derive and no trait of std's writes a value's bytes into lent ones.
pub fn write_uris(out: &mut [u8], at: usize, uris: UriTexts<'_>) -> usize
    requires { at + length (uris_bytes (uris_given uris)) ≤ length out.old }
    ensures value { result ≡ at + length (uris_bytes (uris_given uris.entry)) }
    ensures out_after { out.new ≡ put_at at (uris_bytes (uris_given uris.entry)) out.old }
{
    let a = write_text(out, at, uris.target);
    let b = write_text(out, a, uris.local_uri);
    write_text(out, b, uris.remote_uri)
}

// Kept (5): a writer of `&mut [u8]` and place would need a clause that names the writer's reference in each function that is lent it,
// beside those about bytes and place: three where two stand.
pub fn write_numbers(out: &mut [u8], at: usize, x: Numbers) -> usize
    requires { at + length (numbers_bytes (meaning x)) ≤ length out.old }
    ensures value { result ≡ at + length (numbers_bytes (meaning x)) }
    ensures out_after { out.new ≡ put_at at (numbers_bytes (meaning x)) out.old }
{
    let last_ack = x.last_ack;
    let seconds = x.seconds;
    let refresher = x.refresher;
    let a = write_number(out, at, x.local);
    let b = write_number(out, a, x.remote);
    let c = write_optional(out, b, last_ack);
    let d = write_optional(out, c, seconds);
    let who = refresher.map(|side| side as u32);
    write_optional(out, d, who)
}
