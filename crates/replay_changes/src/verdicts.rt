// Made by `tools/face write` from crates/sip_dialog/src, not by hand.
// The calls of verdicts.rt.
ghost use Rattle.std.specs.Prelude.{◌≡◌, drop};

use replay_lines::lent::{four, one};
use replay_lines::{Items, OUTS, low8};
use sip_dialog::verdicts;

// Calls the function of that name, if it is one of these: what it returns.
pub fn call(name: &[u8], i: Items<'_>, store: &mut [u8], o: &mut [u64; OUTS]) -> Option<u64>
    ensures rest { drop 4 o.new ≡ drop 4 o.old }
{
    Some(match name {
        b"add_verdict" => one(i, [3], o, |used| {
            verdicts::sip_dialog_add_verdict(i.value(0), low8(i.value(1)), store, used)
        }),
        b"worst_minute" => four(i, [1, 2, 3, 4], o, |used, refusals, found, start| {
            verdicts::sip_dialog_worst_minute(store, *used, refusals, found, start)
        }),
        _ => return None,
    })
}
