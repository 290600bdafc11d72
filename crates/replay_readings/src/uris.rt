// Made by `tools/face write` from crates/sip_dialog/src, not by hand.
// The calls of uris.rt.
ghost use Rattle.std.specs.Prelude.{◌≡◌, drop};

use replay_lines::lent::{one, seven, three};
use replay_lines::{Items, OUTS};
use sip_dialog::uris;

// Calls the function of that name, if it is one of these: what it returns.
pub fn call(name: &[u8], i: Items<'_>, o: &mut [u64; OUTS]) -> Option<u64>
    ensures rest { drop 7 o.new ≡ drop 7 o.old }
{
    Some(match name {
        b"sip_uri" => seven(i, [1, 2, 3, 4, 5, 6, 7], o, |a, b, c, d, e, f, g| {
            uris::sip_dialog_sip_uri(i.text(0), a, b, c, d, e, f, g)
        }),
        b"uri_estimate" => one(i, [1], o, |estimate| {
            uris::sip_dialog_uri_estimate(i.text(0), estimate)
        }),
        b"parse_uri_from_header" => three(i, [1, 2, 3], o, |found, place, length| {
            uris::sip_dialog_parse_uri_from_header(i.text(0), found, place, length)
        }),
        _ => return None,
    })
}
