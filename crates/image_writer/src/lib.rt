// One record image, written over the front of lent bytes (document 01, "Record image"): whole into the free end of a store, or made from its
// parts, all but its routes.
#![tactic(auto)]

ghost use Rattle.std.specs.Prelude.{◌≡◌, ◌≤◌, length, ltb};
ghost use Rattle.edit.specs.Edit.{over};
ghost use Rattle.output.specs.Output.{fitted, leaves, written_from};
ghost use Rattle.image_writer.specs.Parts.{front_from, front_of, fitted_before};

use crate::sections::{front_map, ids_size, uris_size, write_ids, write_uris};
use codec::{write_byte, write_two};
use limits::Refusal;

mod fields;
mod front;
mod sections;

pub use front::{Front, UriTexts};
pub use sections::{numbers_bits, numbers_size, state_byte, write_numbers};

// A new record's image over the front of `free`, a store's bytes from its used length on: 18.
pub fn write_image(image: &[u8], free: &mut [u8]) -> Result<usize, Refusal>
    ensures value { result ≡ written_from (fitted (length free.old) image.now) }
    ensures free_after { free.new ≡ leaves (fitted (length free.old) image.now) free.old }
{
    output::put(image, free)
}

// All sections of an image before its routes, over the front of `free`, the bytes that a creation is lent. `routes` is how many bytes
// the routes' section has, 0 where there are none: 18 where both are larger than `free`. Where that section begins.
pub fn write_front(free: &mut [u8], front: Front<'_>, routes: usize) -> Result<usize, Refusal>
    ensures value { result ≡ written_from (fitted_before routes (length free.old) (front_of (front_from front.entry (ltb 0 routes)))) }
    ensures free_after { free.new ≡ leaves (fitted_before routes (length free.old) (front_of (front_from front.entry (ltb 0 routes)))) free.old }
{
    let size = 2 + ids_size(front) + 1 + uris_size(front.uris) + numbers_size(front.numbers);
    if free.len() < size || free.len() - size < routes {
        return Err(Refusal::NoRoom);
    }
    write_parts(free, front, 0 < routes);
    Ok(size)
}

// The same where it fits.
fn write_parts(free: &mut [u8], front: Front<'_>, routed: bool)
    requires { length (front_of (front_from front routed)) ≤ length free.old }
    ensures { free.new ≡ over (front_of (front_from front.entry routed)) free.old }
{
    let map = front_map(front.numbers, front.id, routed);
    let state = state_byte(front.numbers, front.we_are_uac, front.secure);
    let a = write_two(free, 0, map);
    let b = write_ids(free, a, front);
    let c = write_byte(free, b, state);
    let d = write_uris(free, c, front.uris);
    write_numbers(free, d, front.numbers);
}
