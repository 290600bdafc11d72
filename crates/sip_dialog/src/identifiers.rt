// Tags and identifiers.
ghost use Rattle.std.specs.Prelude.{◌≡◌};
ghost use Rattle.limits.specs.Limits.{rust_limits};
ghost use Rattle.limits.specs.Outcome.{check_of, number_in};
ghost use Rattle.headers.specs.Tag.{part_answer, extract_tag};
ghost use Rattle.dialog_id.specs.DialogId.{identifier_cause, id_answer, from_request, from_response_uac, from_response_uas};
ghost use Rattle.c_answers.specs.Given.{PartGives, IdGives};

use c_answers::{check_number, give_id, give_part};
use dialog_id::{DialogId, IdTexts};

// The tag of a From or To value: 1, 2, 4.
pub fn sip_dialog_extract_tag(value: &[u8], place: &mut usize, length: &mut usize) -> u8
    ensures { PartGives (part_answer (extract_tag rust_limits value.now)) (record { place = place.old; length = length.old }) result (record { place = place.new; length = length.new }) }
{
    give_part(headers::extract_tag(value), place, length)
}

// The check of an identifier's parts: 1, then 25, 26, 27 of each.
pub fn sip_dialog_dialog_id_new(call_id: &[u8], local_tag: &[u8], remote_tag: &[u8]) -> u8
    ensures { result ≡ number_in (check_of (identifier_cause rust_limits call_id.now local_tag.now remote_tag.now)) }
{
    let id = IdTexts {
        call_id,
        local_tag,
        remote_tag,
    };
    check_number(DialogId::new(id))
}

// The identifier of a request, with the tag of From as local tag: 1, 2, 4.
// Kept (2): the C header's parameters, and each function has a clause of its own.
pub fn sip_dialog_from_request(
    block: &[u8],
    call_id: &mut usize,
    call_id_length: &mut usize,
    local_tag: &mut usize,
    local_tag_length: &mut usize,
    remote_tag: &mut usize,
    remote_tag_length: &mut usize,
) -> u8
    ensures { IdGives (id_answer (from_request rust_limits block.now)) (record { call = call_id.old; call_length = call_id_length.old; local = local_tag.old; local_length = local_tag_length.old; remote = remote_tag.old; remote_length = remote_tag_length.old }) result (record { call = call_id.new; call_length = call_id_length.new; local = local_tag.new; local_length = local_tag_length.new; remote = remote_tag.new; remote_length = remote_tag_length.new }) }
{
    give_id(
        DialogId::from_request(block),
        call_id,
        call_id_length,
        local_tag,
        local_tag_length,
        remote_tag,
        remote_tag_length,
    )
}

// The identifier of a response to a request that we sent: 1, 2, 4.
// Kept (2): the C header's parameters, and each function has a clause of its own.
pub fn sip_dialog_from_response_uac(
    block: &[u8],
    call_id: &mut usize,
    call_id_length: &mut usize,
    local_tag: &mut usize,
    local_tag_length: &mut usize,
    remote_tag: &mut usize,
    remote_tag_length: &mut usize,
) -> u8
    ensures { IdGives (id_answer (from_response_uac rust_limits block.now)) (record { call = call_id.old; call_length = call_id_length.old; local = local_tag.old; local_length = local_tag_length.old; remote = remote_tag.old; remote_length = remote_tag_length.old }) result (record { call = call_id.new; call_length = call_id_length.new; local = local_tag.new; local_length = local_tag_length.new; remote = remote_tag.new; remote_length = remote_tag_length.new }) }
{
    give_id(
        DialogId::from_response_uac(block),
        call_id,
        call_id_length,
        local_tag,
        local_tag_length,
        remote_tag,
        remote_tag_length,
    )
}

// The identifier of a response that we sent: 1, 2, 4.
// Kept (2): the C header's parameters, and each function has a clause of its own.
pub fn sip_dialog_from_response_uas(
    block: &[u8],
    call_id: &mut usize,
    call_id_length: &mut usize,
    local_tag: &mut usize,
    local_tag_length: &mut usize,
    remote_tag: &mut usize,
    remote_tag_length: &mut usize,
) -> u8
    ensures { IdGives (id_answer (from_response_uas rust_limits block.now)) (record { call = call_id.old; call_length = call_id_length.old; local = local_tag.old; local_length = local_tag_length.old; remote = remote_tag.old; remote_length = remote_tag_length.old }) result (record { call = call_id.new; call_length = call_id_length.new; local = local_tag.new; local_length = local_tag_length.new; remote = remote_tag.new; remote_length = remote_tag_length.new }) }
{
    give_id(
        DialogId::from_response_uas(block),
        call_id,
        call_id_length,
        local_tag,
        local_tag_length,
        remote_tag,
        remote_tag_length,
    )
}
