// Made by `tools/face write` from crates/sip_dialog/src, not by hand.
// The calls of blocks.rt.
ghost use Rattle.std.specs.Prelude.{◌≡◌, drop};

use replay_lines::lent::{four, three};
use replay_lines::{Items, OUTS, low16};
use sip_dialog::blocks;

// Calls the function of that name, if it is one of these: what it returns.
pub fn call(name: &[u8], i: Items<'_>, o: &mut [u64; OUTS]) -> Option<u64>
    ensures rest { drop 4 o.new ≡ drop 4 o.old }
{
    Some(match name {
        b"check_block" => blocks::sip_dialog_check_block(i.text(0)) as u64,
        b"header" => three(i, [2, 3, 4], o, |found, place, length| {
            blocks::sip_dialog_header(i.text(0), i.text(1), found, place, length)
        }),
        b"next_header" => four(i, [3, 4, 5, 6], o, |found, place, length, next| {
            blocks::sip_dialog_next_header(
                i.text(0),
                i.text(1),
                i.value(2) as usize,
                found,
                place,
                length,
                next,
            )
        }),
        b"is_informational" => blocks::sip_dialog_is_informational(low16(i.value(0))) as u64,
        b"is_success" => blocks::sip_dialog_is_success(low16(i.value(0))) as u64,
        b"is_redirection" => blocks::sip_dialog_is_redirection(low16(i.value(0))) as u64,
        b"is_client_error" => blocks::sip_dialog_is_client_error(low16(i.value(0))) as u64,
        b"is_server_error" => blocks::sip_dialog_is_server_error(low16(i.value(0))) as u64,
        b"is_global_failure" => blocks::sip_dialog_is_global_failure(low16(i.value(0))) as u64,
        b"is_error" => blocks::sip_dialog_is_error(low16(i.value(0))) as u64,
        _ => return None,
    })
}
