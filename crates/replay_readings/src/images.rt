// Made by `tools/face write` from crates/sip_dialog/src, not by hand.
// The calls of images.rt.
ghost use Rattle.std.specs.Prelude.{◌≡◌, drop};

use crate::settings;
use replay_lines::lent::{one, seven, six, three};
use replay_lines::{Items, OUTS};
use sip_dialog::images;

// Calls the function of that name, if it is one of these: what it returns.
pub fn call(name: &[u8], i: Items<'_>, o: &mut [u64; OUTS]) -> Option<u64>
    ensures rest { drop 7 o.new ≡ drop 7 o.old }
{
    Some(match name {
        b"image_id" => six(i, [6, 7, 8, 9, 10, 11], o, |a, b, c, d, e, f| {
            images::sip_dialog_image_id(settings(i, [0, 1, 2, 3, 4]), i.text(5), a, b, c, d, e, f)
        }),
        b"image_state" => three(i, [6, 7, 8], o, |state, we_are_uac, secure| {
            images::sip_dialog_image_state(
                settings(i, [0, 1, 2, 3, 4]),
                i.text(5),
                state,
                we_are_uac,
                secure,
            )
        }),
        b"image_uris" => six(i, [6, 7, 8, 9, 10, 11], o, |a, b, c, d, e, f| {
            images::sip_dialog_image_uris(settings(i, [0, 1, 2, 3, 4]), i.text(5), a, b, c, d, e, f)
        }),
        b"image_numbers" => seven(i, [6, 7, 8, 9, 10, 11, 12], o, |a, b, c, d, e, f, g| {
            images::sip_dialog_image_numbers(
                settings(i, [0, 1, 2, 3, 4]),
                i.text(5),
                a,
                b,
                c,
                d,
                e,
                f,
                g,
            )
        }),
        b"image_route_count" => one(i, [6], o, |count| {
            images::sip_dialog_image_route_count(settings(i, [0, 1, 2, 3, 4]), i.text(5), count)
        }),
        b"image_route" => three(i, [7, 8, 9], o, |found, place, length| {
            images::sip_dialog_image_route(
                settings(i, [0, 1, 2, 3, 4]),
                i.text(5),
                i.value(6) as usize,
                found,
                place,
                length,
            )
        }),
        b"image_matches_request" => one(i, [7], o, |matches| {
            images::sip_dialog_image_matches_request(
                settings(i, [0, 1, 2, 3, 4]),
                i.text(5),
                i.text(6),
                matches,
            )
        }),
        b"image_needs_refresh" => one(i, [7], o, |due| {
            images::sip_dialog_image_needs_refresh(
                settings(i, [0, 1, 2, 3, 4]),
                i.text(5),
                i.value(6),
                due,
            )
        }),
        _ => return None,
    })
}
