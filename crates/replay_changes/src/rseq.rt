// Made by `tools/face write` from crates/sip_dialog/src, not by hand.
// The calls of rseq.rt.
ghost use Rattle.std.specs.Prelude.{◌≡◌, drop};

use replay_lines::lent::{one, two};
use replay_lines::{Items, OUTS, low32};
use sip_dialog::rseq;

// Calls the function of that name, if it is one of these: what it returns.
pub fn call(name: &[u8], i: Items<'_>, store: &mut [u8], o: &mut [u64; OUTS]) -> Option<u64>
    ensures rest { drop 2 o.new ≡ drop 2 o.old }
{
    Some(match name {
        b"rseq_next" => two(i, [5, 6], o, |used, rseq| {
            rseq::sip_dialog_rseq_next(
                i.text(0),
                i.text(1),
                i.text(2),
                low32(i.value(3)),
                store,
                used,
                rseq,
            )
        }),
        b"rseq_current" => two(i, [4, 5], o, |used, rseq| {
            rseq::sip_dialog_rseq_current(i.text(0), i.text(1), i.text(2), store, *used, rseq)
        }),
        b"rseq_remove" => one(i, [4], o, |used| {
            rseq::sip_dialog_rseq_remove(i.text(0), i.text(1), i.text(2), store, used)
        }),
        b"rseq_len" => two(i, [1, 2], o, |used, count| {
            rseq::sip_dialog_rseq_len(store, *used, count)
        }),
        b"rseq_is_empty" => two(i, [1, 2], o, |used, empty| {
            rseq::sip_dialog_rseq_is_empty(store, *used, empty)
        }),
        _ => return None,
    })
}
