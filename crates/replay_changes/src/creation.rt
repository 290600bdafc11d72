// Made by `tools/face write` from crates/sip_dialog/src, not by hand.
// The calls of creation.rt.
ghost use Rattle.std.specs.Prelude.{◌≡◌, drop};

use replay_lines::lent::two;
use replay_lines::{Items, OUTS, low16};
use sip_dialog::creation;

// Calls the function of that name, if it is one of these: what it returns.
pub fn call(name: &[u8], i: Items<'_>, out: &mut [u8], o: &mut [u64; OUTS]) -> Option<u64>
    ensures rest { drop 2 o.new ≡ drop 2 o.old }
{
    Some(match name {
        b"new_uac" => two(i, [7, 8], o, |written, least| {
            creation::sip_dialog_new_uac(
                i.text(0),
                i.text(1),
                low16(i.value(2)),
                i.text(3),
                i.text(4),
                i.text(5),
                out,
                written,
                least,
            )
        }),
        b"new_uas" => two(i, [7, 8], o, |written, least| {
            creation::sip_dialog_new_uas(
                i.text(0),
                i.text(1),
                low16(i.value(2)),
                i.text(3),
                i.text(4),
                i.text(5),
                out,
                written,
                least,
            )
        }),
        _ => return None,
    })
}
