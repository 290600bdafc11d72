// One record image: its parts, whether a request belongs to it, and its changes in place.
ghost use Rattle.std.specs.Prelude.{◌≡◌};
ghost use Rattle.limits.specs.Limits.{rust_limits};
ghost use Rattle.limits.specs.Outcome.{refuse_by};
ghost use Rattle.limits.specs.Settings.{limits_in, settings_cause};
ghost use Rattle.text.specs.Answers.{lookup_of};
ghost use Rattle.output.specs.Output.{written_from, leaves};
ghost use Rattle.dialog_rules.specs.OneImage.{one_record};
ghost use Rattle.dialog.specs.Readings.{image_answer, refresh_of, refresh_answer};
ghost use Rattle.dialog.specs.ImageRoutes.{image_route};
ghost use Rattle.dialog.specs.Matching.{matches_request, matches_answer};
ghost use Rattle.dialog_changes.specs.ImageUpdates.{confirmed, terminated, local_raised, raised_record, raised_answer, interval_set};
ghost use Rattle.dialog_updates.specs.Messages.{requested, responded};
ghost use Rattle.c_answers.specs.Given.{ValueGives, FlagGives, WithUsedGives, WithLeastGives, LookupGives};
ghost use Rattle.c_image_answers.specs.Given.{ImageIdGives, StateGives, UrisGives, NumbersGives, RouteCountGives};

use c_answers::{give, give_flag, give_id, give_lookup, give_with_least, give_with_used};
use c_image_answers::{give_numbers, give_state, give_uris};
use limits::{Refusal, Settings};
use msg::{Request, Response};

// Where the parts of the identifier lie: 30, 3.
// Kept (2): the C header's parameters, and each function has a clause of its own.
pub fn sip_dialog_image_id(
    settings: Settings,
    image: &[u8],
    call_id: &mut usize,
    call_id_length: &mut usize,
    local_tag: &mut usize,
    local_tag_length: &mut usize,
    remote_tag: &mut usize,
    remote_tag_length: &mut usize,
) -> u8
    ensures { ImageIdGives (refuse_by (settings_cause settings) (image_answer (one_record image.now))) (record { call = call_id.old; call_length = call_id_length.old; local = local_tag.old; local_length = local_tag_length.old; remote = remote_tag.old; remote_length = remote_tag_length.old }) result (record { call = call_id.new; call_length = call_id_length.new; local = local_tag.new; local_length = local_tag_length.new; remote = remote_tag.new; remote_length = remote_tag_length.new }) }
{
    if !settings.in_bounds() {
        return Refusal::SettingOutOfBounds.number();
    }
    let id = dialog::read_image(image).map(|r| r.ids.id);
    give_id(
        id,
        call_id,
        call_id_length,
        local_tag,
        local_tag_length,
        remote_tag,
        remote_tag_length,
    )
}

// The state, the side, and whether the dialog is secure: 30, 3.
pub fn sip_dialog_image_state(
    settings: Settings,
    image: &[u8],
    state: &mut u8,
    we_are_uac: &mut u8,
    secure: &mut u8,
) -> u8
    ensures { StateGives (refuse_by (settings_cause settings) (image_answer (one_record image.now))) (record { state = state.old; we_are_uac = we_are_uac.old; secure = secure.old }) result (record { state = state.new; we_are_uac = we_are_uac.new; secure = secure.new }) }
{
    if !settings.in_bounds() {
        return Refusal::SettingOutOfBounds.number();
    }
    give_state(dialog::read_image(image), state, we_are_uac, secure)
}

// Where the target, the local and the remote URI lie: 30, 3.
// Kept (2): the C header's parameters, and each function has a clause of its own.
pub fn sip_dialog_image_uris(
    settings: Settings,
    image: &[u8],
    target: &mut usize,
    target_length: &mut usize,
    local_uri: &mut usize,
    local_uri_length: &mut usize,
    remote_uri: &mut usize,
    remote_uri_length: &mut usize,
) -> u8
    ensures { UrisGives (refuse_by (settings_cause settings) (image_answer (one_record image.now))) (record { target = target.old; target_length = target_length.old; local_uri = local_uri.old; local_uri_length = local_uri_length.old; remote_uri = remote_uri.old; remote_uri_length = remote_uri_length.old }) result (record { target = target.new; target_length = target_length.new; local_uri = local_uri.new; local_uri_length = local_uri_length.new; remote_uri = remote_uri.new; remote_uri_length = remote_uri_length.new }) }
{
    if !settings.in_bounds() {
        return Refusal::SettingOutOfBounds.number();
    }
    give_uris(
        dialog::read_image(image),
        target,
        target_length,
        local_uri,
        local_uri_length,
        remote_uri,
        remote_uri_length,
    )
}

// The numbers: 30, 3.
// Kept (2): the C header's parameters, and each function has a clause of its own.
pub fn sip_dialog_image_numbers(
    settings: Settings,
    image: &[u8],
    local: &mut u32,
    remote: &mut u32,
    has_last_ack: &mut u8,
    last_ack: &mut u32,
    has_seconds: &mut u8,
    seconds: &mut u32,
    refresher: &mut u8,
) -> u8
    ensures { NumbersGives (refuse_by (settings_cause settings) (image_answer (one_record image.now))) (record { local = local.old; remote = remote.old; has_last_ack = has_last_ack.old; last_ack = last_ack.old; has_seconds = has_seconds.old; seconds = seconds.old; refresher = refresher.old }) result (record { local = local.new; remote = remote.new; has_last_ack = has_last_ack.new; last_ack = last_ack.new; has_seconds = has_seconds.new; seconds = seconds.new; refresher = refresher.new }) }
{
    if !settings.in_bounds() {
        return Refusal::SettingOutOfBounds.number();
    }
    give_numbers(
        dialog::read_image(image),
        local,
        remote,
        has_last_ack,
        last_ack,
        has_seconds,
        seconds,
        refresher,
    )
}

// How many routes there are: 30, 3.
pub fn sip_dialog_image_route_count(settings: Settings, image: &[u8], count: &mut usize) -> u8
    ensures { RouteCountGives (refuse_by (settings_cause settings) (image_answer (one_record image.now))) count.old result count.new }
{
    if !settings.in_bounds() {
        return Refusal::SettingOutOfBounds.number();
    }
    let routes = dialog::read_image(image).map(|r| r.route_count);
    give(routes, count)
}

// Where the route at an index from 0 lies: 30, 3.
pub fn sip_dialog_image_route(
    settings: Settings,
    image: &[u8],
    index: usize,
    found: &mut u8,
    place: &mut usize,
    length: &mut usize,
) -> u8
    ensures { LookupGives (refuse_by (settings_cause settings) (lookup_of (image_route image.now index))) (record { found = found.old; place = place.old; length = length.old }) result (record { found = found.new; place = place.new; length = length.new }) }
{
    if !settings.in_bounds() {
        return Refusal::SettingOutOfBounds.number();
    }
    give_lookup(dialog::image_route(image, index), found, place, length)
}

// Whether a request belongs to the record: 30, 1, 2, 3.
// Kept (2): the C header's parameters, and each function has a clause of its own.
pub fn sip_dialog_image_matches_request(
    settings: Settings,
    block: &[u8],
    image: &[u8],
    matches: &mut u8,
) -> u8
    ensures { FlagGives (refuse_by (settings_cause settings) (matches_answer (matches_request rust_limits block.now image.now))) matches.old result matches.new }
{
    if !settings.in_bounds() {
        return Refusal::SettingOutOfBounds.number();
    }
    give_flag(dialog::matches_request(block, image), matches)
}

// Whether the session is to be refreshed after a time in nanoseconds: 30, 3.
// Kept (2): the C header's parameters, and each function has a clause of its own.
pub fn sip_dialog_image_needs_refresh(
    settings: Settings,
    image: &[u8],
    elapsed: u64,
    due: &mut u8,
) -> u8
    ensures { FlagGives (refuse_by (settings_cause settings) (refresh_answer (refresh_of image.now elapsed))) due.old result due.new }
{
    if !settings.in_bounds() {
        return Refusal::SettingOutOfBounds.number();
    }
    give_flag(dialog::needs_refresh(image, elapsed), due)
}

// A request from the peer: 30, 1, 2, 3, 4, 9; ACK: 11; others: 10, 11, 12; 18.
// Kept (2): the C header's parameters, and each function has a clause of its own.
pub fn sip_dialog_image_update_from_request(
    settings: Settings,
    method: &[u8],
    block: &[u8],
    image: &mut [u8],
    used: &mut usize,
) -> u8
    ensures written_gives { ValueGives (written_from (refuse_by (settings_cause settings) (requested (limits_in settings) method.now block.now image.old used.old))) used.old result used.new }
    ensures image_after { image.new ≡ leaves (refuse_by (settings_cause settings) (requested (limits_in settings) method.now block.now image.old used.old)) image.old }
{
    if !settings.in_bounds() {
        return Refusal::SettingOutOfBounds.number();
    }
    let request = Request { method, block };
    give(
        dialog_requests::update_from_request(settings, request, image, *used),
        used,
    )
}

// A response: 30, 1, 2, 3, 18.
// Kept (2): the C header's parameters, and each function has a clause of its own.
pub fn sip_dialog_image_update_from_response(
    settings: Settings,
    status: u16,
    block: &[u8],
    image: &mut [u8],
    used: &mut usize,
) -> u8
    ensures written_gives { ValueGives (written_from (refuse_by (settings_cause settings) (responded rust_limits status block.now image.old used.old))) used.old result used.new }
    ensures image_after { image.new ≡ leaves (refuse_by (settings_cause settings) (responded rust_limits status block.now image.old used.old)) image.old }
{
    if !settings.in_bounds() {
        return Refusal::SettingOutOfBounds.number();
    }
    let response = Response { status, block };
    give(
        dialog_responses::update_from_response(response, image, *used),
        used,
    )
}

// Early becomes Confirmed: 30, 3.
// Kept (2): the C header's parameters, and each function has a clause of its own.
pub fn sip_dialog_image_confirm(settings: Settings, image: &mut [u8], used: &mut usize) -> u8
    ensures written_gives { ValueGives (written_from (refuse_by (settings_cause settings) (confirmed image.old used.old))) used.old result used.new }
    ensures image_after { image.new ≡ leaves (refuse_by (settings_cause settings) (confirmed image.old used.old)) image.old }
{
    if !settings.in_bounds() {
        return Refusal::SettingOutOfBounds.number();
    }
    give(dialog_changes::confirm(image, *used), used)
}

// Every state becomes Terminated: 30, 3.
// Kept (2): the C header's parameters, and each function has a clause of its own.
pub fn sip_dialog_image_terminate(settings: Settings, image: &mut [u8], used: &mut usize) -> u8
    ensures written_gives { ValueGives (written_from (refuse_by (settings_cause settings) (terminated image.old used.old))) used.old result used.new }
    ensures image_after { image.new ≡ leaves (refuse_by (settings_cause settings) (terminated image.old used.old)) image.old }
{
    if !settings.in_bounds() {
        return Refusal::SettingOutOfBounds.number();
    }
    give(dialog_changes::terminate(image, *used), used)
}

// The next local number, kept in the image: 30, 3, 18.
pub fn sip_dialog_image_next_local_cseq(
    settings: Settings,
    image: &mut [u8],
    used: &mut usize,
    number: &mut u32,
) -> u8
    ensures raised_gives { WithUsedGives (refuse_by (settings_cause settings) (raised_answer (raised_record image.old used.old))) (record { used = used.old; value = number.old }) result (record { used = used.new; value = number.new }) }
    ensures image_after { image.new ≡ leaves (refuse_by (settings_cause settings) (local_raised image.old used.old)) image.old }
{
    if !settings.in_bounds() {
        return Refusal::SettingOutOfBounds.number();
    }
    give_with_used(dialog_changes::next_local_cseq(image, *used), used, number)
}

// A new session interval in seconds: 30, 3, 13 with the least, 14, 18.
pub fn sip_dialog_image_set_session_expires(
    settings: Settings,
    image: &mut [u8],
    used: &mut usize,
    seconds: u64,
    least: &mut u64,
) -> u8
    ensures set_gives { WithLeastGives (written_from (refuse_by (settings_cause settings) (interval_set rust_limits seconds image.old used.old))) (record { value = used.old; least = least.old }) result (record { value = used.new; least = least.new }) }
    ensures image_after { image.new ≡ leaves (refuse_by (settings_cause settings) (interval_set rust_limits seconds image.old used.old)) image.old }
{
    if !settings.in_bounds() {
        return Refusal::SettingOutOfBounds.number();
    }
    give_with_least(
        dialog_changes::set_session_expires(image, *used, seconds),
        used,
        least,
    )
}
