// Made by `tools/face write` from crates/sip_dialog/src, not by hand.
// The calls of prack.rt.
ghost use Rattle.std.specs.Prelude.{◌≡◌, drop};

use replay_lines::lent::{one, three, two};
use replay_lines::{Items, OUTS, low16};
use sip_dialog::prack;

// Calls the function of that name, if it is one of these: what it returns.
pub fn call(name: &[u8], i: Items<'_>, o: &mut [u64; OUTS]) -> Option<u64>
    ensures rest { drop 3 o.new ≡ drop 3 o.old }
{
    Some(match name {
        b"cseq_number" => one(i, [1], o, |number| {
            prack::sip_dialog_cseq_number(i.text(0), number)
        }),
        b"cseq_method" => one(i, [1], o, |method| {
            prack::sip_dialog_cseq_method(i.text(0), method)
        }),
        b"rseq" => one(i, [1], o, |number| {
            prack::sip_dialog_rseq(i.text(0), number)
        }),
        b"is_reliable_provisional" => one(i, [2], o, |reliable| {
            prack::sip_dialog_is_reliable_provisional(low16(i.value(0)), i.text(1), reliable)
        }),
        b"method_number" => two(i, [1, 2], o, |found, method| {
            prack::sip_dialog_method_number(i.text(0), found, method)
        }),
        b"parse_rack" => three(i, [1, 2, 3], o, |rseq, cseq, method| {
            prack::sip_dialog_parse_rack(i.text(0), rseq, cseq, method)
        }),
        _ => return None,
    })
}
