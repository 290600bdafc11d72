// Made by `tools/face write` from crates/sip_dialog/src, not by hand.
// The calls of values.rt.
ghost use Rattle.std.specs.Prelude.{◌≡◌, drop};

use replay_lines::lent::{four, one, three};
use replay_lines::{Items, OUTS};
use sip_dialog::values;

// Calls the function of that name, if it is one of these: what it returns.
pub fn call(name: &[u8], i: Items<'_>, o: &mut [u64; OUTS]) -> Option<u64>
    ensures rest { drop 4 o.new ≡ drop 4 o.old }
{
    Some(match name {
        b"next_header_value" => four(i, [2, 3, 4, 5], o, |found, place, length, next| {
            values::sip_dialog_next_header_value(
                i.text(0),
                i.value(1) as usize,
                found,
                place,
                length,
                next,
            )
        }),
        b"contact" => three(i, [1, 2, 3], o, |found, place, length| {
            values::sip_dialog_contact(i.text(0), found, place, length)
        }),
        b"route_count" => one(i, [1], o, |count| {
            values::sip_dialog_route_count(i.text(0), count)
        }),
        b"route" => three(i, [3, 4, 5], o, |found, place, length| {
            values::sip_dialog_route(
                i.text(0),
                i.value(1) != 0,
                i.value(2) as usize,
                found,
                place,
                length,
            )
        }),
        b"parse_session_expires" => three(i, [1, 2, 3], o, |found, seconds, refresher| {
            values::sip_dialog_parse_session_expires(i.text(0), found, seconds, refresher)
        }),
        b"session_expires" => three(i, [1, 2, 3], o, |found, seconds, refresher| {
            values::sip_dialog_session_expires(i.text(0), found, seconds, refresher)
        }),
        _ => return None,
    })
}
