// Made by `tools/face write` from crates/sip_dialog/src, not by hand.
// The calls of prack_lists.rt.
ghost use Rattle.std.specs.Prelude.{◌≡◌, drop};

use crate::settings;
use replay_lines::lent::{four, one, two};
use replay_lines::{Items, OUTS, low8, low16, low32};
use sip_dialog::prack_lists;

// Calls the function of that name, if it is one of these: what it returns.
pub fn call(
    name: &[u8],
    i: Items<'_>,
    store: &mut [u8],
    out: &mut [u8],
    o: &mut [u64; OUTS],
) -> Option<u64>
    ensures rest { drop 4 o.new ≡ drop 4 o.old }
{
    Some(match name {
        b"prack_register" => one(i, [12], o, |used| {
            prack_lists::sip_dialog_prack_register(
                settings(i, [0, 1, 2, 3, 4]),
                i.text(5),
                low32(i.value(6)),
                low32(i.value(7)),
                low8(i.value(8)),
                low16(i.value(9)),
                i.value(10),
                store,
                used,
            )
        }),
        b"prack_validate" => four(i, [9, 10, 11, 12], o, |used, rseq, cseq, method| {
            prack_lists::sip_dialog_prack_validate(
                settings(i, [0, 1, 2, 3, 4]),
                i.text(5),
                i.text(6),
                i.value(7),
                store,
                used,
                rseq,
                cseq,
                method,
            )
        }),
        b"prack_is_pracked" => two(i, [8, 9], o, |used, pracked| {
            prack_lists::sip_dialog_prack_is_pracked(
                settings(i, [0, 1, 2, 3, 4]),
                i.text(5),
                low32(i.value(6)),
                store,
                *used,
                pracked,
            )
        }),
        b"prack_get_pending" => two(i, [8, 10], o, |used, written| {
            prack_lists::sip_dialog_prack_get_pending(
                settings(i, [0, 1, 2, 3, 4]),
                i.text(5),
                i.value(6),
                store,
                used,
                out,
                written,
            )
        }),
        b"prack_remove_dialog" => one(i, [7], o, |used| {
            prack_lists::sip_dialog_prack_remove_dialog(
                settings(i, [0, 1, 2, 3, 4]),
                i.text(5),
                store,
                used,
            )
        }),
        b"prack_remove_pracked" => one(i, [8], o, |used| {
            prack_lists::sip_dialog_prack_remove_pracked(
                settings(i, [0, 1, 2, 3, 4]),
                i.text(5),
                low32(i.value(6)),
                store,
                used,
            )
        }),
        _ => return None,
    })
}
