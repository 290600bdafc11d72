// Made by `tools/face write` from crates/sip_dialog/src, not by hand.
// The calls of images.rt.
ghost use Rattle.std.specs.Prelude.{◌≡◌, drop};

use crate::settings;
use replay_lines::lent::{one, two};
use replay_lines::{Items, OUTS, low16};
use sip_dialog::images;

// Calls the function of that name, if it is one of these: what it returns.
pub fn call(name: &[u8], i: Items<'_>, out: &mut [u8], o: &mut [u64; OUTS]) -> Option<u64>
    ensures rest { drop 2 o.new ≡ drop 2 o.old }
{
    Some(match name {
        b"image_confirm" => one(i, [6], o, |used| {
            images::sip_dialog_image_confirm(settings(i, [0, 1, 2, 3, 4]), out, used)
        }),
        b"image_terminate" => one(i, [6], o, |used| {
            images::sip_dialog_image_terminate(settings(i, [0, 1, 2, 3, 4]), out, used)
        }),
        b"image_next_local_cseq" => two(i, [6, 7], o, |used, number| {
            images::sip_dialog_image_next_local_cseq(
                settings(i, [0, 1, 2, 3, 4]),
                out,
                used,
                number,
            )
        }),
        b"image_set_session_expires" => two(i, [6, 8], o, |used, least| {
            images::sip_dialog_image_set_session_expires(
                settings(i, [0, 1, 2, 3, 4]),
                out,
                used,
                i.value(7),
                least,
            )
        }),
        b"image_update_from_request" => one(i, [8], o, |used| {
            images::sip_dialog_image_update_from_request(
                settings(i, [0, 1, 2, 3, 4]),
                i.text(5),
                i.text(6),
                out,
                used,
            )
        }),
        b"image_update_from_response" => one(i, [8], o, |used| {
            images::sip_dialog_image_update_from_response(
                settings(i, [0, 1, 2, 3, 4]),
                low16(i.value(5)),
                i.text(6),
                out,
                used,
            )
        }),
        _ => return None,
    })
}
