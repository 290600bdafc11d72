// Made by `tools/face write` from crates/sip_dialog/src, not by hand.
// The calls of store_readings.rt.
ghost use Rattle.std.specs.Prelude.{◌≡◌, drop};

use crate::settings;
use replay_lines::lent::{one, three, two};
use replay_lines::{Items, OUTS};
use sip_dialog::store_readings;

// Calls the function of that name, if it is one of these: what it returns.
pub fn call(
    name: &[u8],
    i: Items<'_>,
    store: &mut [u8],
    out: &mut [u8],
    o: &mut [u64; OUTS],
) -> Option<u64>
    ensures rest { drop 3 o.new ≡ drop 3 o.old }
{
    Some(match name {
        b"get" => three(i, [9, 10, 11], o, |used, place, length| {
            store_readings::sip_dialog_get(
                settings(i, [0, 1, 2, 3, 4]),
                i.text(5),
                i.text(6),
                i.text(7),
                store,
                *used,
                place,
                length,
            )
        }),
        b"find_by_call_id" => three(i, [7, 8, 9], o, |used, place, length| {
            store_readings::sip_dialog_find_by_call_id(
                settings(i, [0, 1, 2, 3, 4]),
                i.text(5),
                store,
                *used,
                place,
                length,
            )
        }),
        b"find_by_request" => three(i, [7, 8, 9], o, |used, place, length| {
            store_readings::sip_dialog_find_by_request(
                settings(i, [0, 1, 2, 3, 4]),
                i.text(5),
                store,
                *used,
                place,
                length,
            )
        }),
        b"count" => two(i, [6, 7], o, |used, count| {
            store_readings::sip_dialog_count(settings(i, [0, 1, 2, 3, 4]), store, *used, count)
        }),
        b"all_ids" => two(i, [6, 8], o, |used, written| {
            store_readings::sip_dialog_all_ids(
                settings(i, [0, 1, 2, 3, 4]),
                store,
                *used,
                out,
                written,
            )
        }),
        b"listing" => one(i, [7], o, |written| {
            store_readings::sip_dialog_listing(
                settings(i, [0, 1, 2, 3, 4]),
                i.text(5),
                out,
                written,
            )
        }),
        _ => return None,
    })
}
