// Made by `tools/face write` from crates/sip_dialog/src, not by hand.
// The calls of stores.rt.
ghost use Rattle.std.specs.Prelude.{◌≡◌, drop};

use crate::settings;
use replay_lines::lent::{one, two};
use replay_lines::{Items, OUTS, low16};
use sip_dialog::stores;

// Calls the function of that name, if it is one of these: what it returns.
pub fn call(name: &[u8], i: Items<'_>, store: &mut [u8], o: &mut [u64; OUTS]) -> Option<u64>
    ensures rest { drop 2 o.new ≡ drop 2 o.old }
{
    Some(match name {
        b"put" => two(i, [7, 8], o, |used, created| {
            stores::sip_dialog_put(
                settings(i, [0, 1, 2, 3, 4]),
                i.text(5),
                store,
                used,
                created,
            )
        }),
        b"request" => one(i, [8], o, |used| {
            stores::sip_dialog_request(
                settings(i, [0, 1, 2, 3, 4]),
                i.text(5),
                i.text(6),
                store,
                used,
            )
        }),
        b"response" => one(i, [11], o, |used| {
            stores::sip_dialog_response(
                settings(i, [0, 1, 2, 3, 4]),
                i.text(5),
                i.text(6),
                i.text(7),
                low16(i.value(8)),
                i.text(9),
                store,
                used,
            )
        }),
        b"terminate" => one(i, [9], o, |used| {
            stores::sip_dialog_terminate(
                settings(i, [0, 1, 2, 3, 4]),
                i.text(5),
                i.text(6),
                i.text(7),
                store,
                used,
            )
        }),
        b"next_local_cseq" => two(i, [9, 10], o, |used, number| {
            stores::sip_dialog_next_local_cseq(
                settings(i, [0, 1, 2, 3, 4]),
                i.text(5),
                i.text(6),
                i.text(7),
                store,
                used,
                number,
            )
        }),
        b"set_session_expires" => two(i, [10, 11], o, |used, least| {
            stores::sip_dialog_set_session_expires(
                settings(i, [0, 1, 2, 3, 4]),
                i.text(5),
                i.text(6),
                i.text(7),
                i.value(8),
                store,
                used,
                least,
            )
        }),
        b"remove" => two(i, [9, 10], o, |used, terminated| {
            stores::sip_dialog_remove(
                settings(i, [0, 1, 2, 3, 4]),
                i.text(5),
                i.text(6),
                i.text(7),
                store,
                used,
                terminated,
            )
        }),
        b"sweep" => one(i, [6], o, |used| {
            stores::sip_dialog_sweep(settings(i, [0, 1, 2, 3, 4]), store, used)
        }),
        _ => return None,
    })
}
