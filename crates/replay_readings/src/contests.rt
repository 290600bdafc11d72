// Made by `tools/face write` from crates/sip_dialog/src, not by hand.
// The calls of contests.rt.
use replay_lines::lent::eight;
use replay_lines::{Items, OUTS};
use sip_dialog::contests;

// Calls the function of that name, if it is one of these: what it returns.
pub fn call(name: &[u8], i: Items<'_>, o: &mut [u64; OUTS]) -> Option<u64> {
    Some(match name {
        b"interval_contest" => eight(i, [2, 3, 4, 5, 6, 7, 8, 9], o, |a, b, c, d, e, f, g, h| {
            contests::sip_dialog_interval_contest(i.value(0), i.value(1), a, b, c, d, e, f, g, h)
        }),
        _ => return None,
    })
}
