// Made by `tools/face write` from crates/sip_dialog/src, not by hand.
// The calls of identifiers.rt.
ghost use Rattle.std.specs.Prelude.{◌≡◌, drop};

use replay_lines::lent::{six, two};
use replay_lines::{Items, OUTS};
use sip_dialog::identifiers;

// Calls the function of that name, if it is one of these: what it returns.
pub fn call(name: &[u8], i: Items<'_>, o: &mut [u64; OUTS]) -> Option<u64>
    ensures rest { drop 6 o.new ≡ drop 6 o.old }
{
    Some(match name {
        b"extract_tag" => two(i, [1, 2], o, |place, length| {
            identifiers::sip_dialog_extract_tag(i.text(0), place, length)
        }),
        b"dialog_id_new" => identifiers::sip_dialog_dialog_id_new(
            i.text(0),
            i.text(1),
            i.text(2),
        ) as u64,
        b"from_request" => six(i, [1, 2, 3, 4, 5, 6], o, |a, b, c, d, e, f| {
            identifiers::sip_dialog_from_request(i.text(0), a, b, c, d, e, f)
        }),
        b"from_response_uac" => six(i, [1, 2, 3, 4, 5, 6], o, |a, b, c, d, e, f| {
            identifiers::sip_dialog_from_response_uac(i.text(0), a, b, c, d, e, f)
        }),
        b"from_response_uas" => six(i, [1, 2, 3, 4, 5, 6], o, |a, b, c, d, e, f| {
            identifiers::sip_dialog_from_response_uas(i.text(0), a, b, c, d, e, f)
        }),
        _ => return None,
    })
}
