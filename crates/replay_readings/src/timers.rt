// Made by `tools/face write` from crates/sip_dialog/src, not by hand.
// The calls of timers.rt.
ghost use Rattle.std.specs.Prelude.{◌≡◌, drop};

use replay_lines::lent::{one, two};
use replay_lines::{Items, OUTS, low32};
use sip_dialog::timers;

// Calls the function of that name, if it is one of these: what it returns.
pub fn call(name: &[u8], i: Items<'_>, o: &mut [u64; OUTS]) -> Option<u64>
    ensures rest { drop 2 o.new ≡ drop 2 o.old }
{
    Some(match name {
        b"validate_session_expires" => one(i, [3], o, |least| {
            timers::sip_dialog_validate_session_expires(
                i.value(0),
                i.value(1) != 0,
                i.value(2),
                least,
            )
        }),
        b"negotiate_session_expires" => two(i, [6, 7], o, |interval, least| {
            timers::sip_dialog_negotiate_session_expires(
                i.value(0),
                i.value(1),
                i.value(2) != 0,
                i.value(3),
                i.value(4) != 0,
                i.value(5),
                interval,
                least,
            )
        }),
        b"non_refresher_expiry" => timers::sip_dialog_non_refresher_expiry(i.value(0)) as u64,
        b"calculate_refresh_time" => timers::sip_dialog_calculate_refresh_time(i.value(0)) as u64,
        b"needs_refresh" => timers::sip_dialog_needs_refresh(
            i.value(0) != 0,
            low32(i.value(1)),
            i.value(2),
        ) as u64,
        b"determine_refresher_role" => one(i, [3], o, |we_refresh| {
            timers::sip_dialog_determine_refresher_role(
                i.value(0) != 0,
                i.text(1),
                i.value(2) != 0,
                we_refresh,
            )
        }),
        b"record_created" => timers::sip_dialog_record_created(i.value(0)) as u64,
        b"record_terminated" => timers::sip_dialog_record_terminated(i.value(0)) as u64,
        _ => return None,
    })
}
