// Made by `tools/face write` from crates/sip_dialog/src, not by hand.
// The calls of prack.rt.
ghost use Rattle.std.specs.Prelude.{◌≡◌, drop};

use replay_lines::lent::one;
use replay_lines::{Items, OUTS, low8, low32};
use sip_dialog::prack;

// Calls the function of that name, if it is one of these: what it returns.
pub fn call(name: &[u8], i: Items<'_>, out: &mut [u8], o: &mut [u64; OUTS]) -> Option<u64>
    ensures rest { drop 1 o.new ≡ drop 1 o.old }
{
    Some(match name {
        b"method_text" => one(i, [2], o, |written| {
            prack::sip_dialog_method_text(low8(i.value(0)), out, written)
        }),
        b"format_rack" => one(i, [4], o, |written| {
            prack::sip_dialog_format_rack(
                low32(i.value(0)),
                low32(i.value(1)),
                low8(i.value(2)),
                out,
                written,
            )
        }),
        _ => return None,
    })
}
