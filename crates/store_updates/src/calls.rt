// The calls that name their record by its identifier.
ghost use Rattle.std.specs.Prelude.{◌≡◌, None};
ghost use Rattle.limits.specs.Limits.{rust_limits};
ghost use Rattle.dialog_id.specs.IdTexts.{ident_of};
ghost use Rattle.dialog_manager.specs.Answers.{written_in};
ghost use Rattle.store_entries.specs.Entries.{raised_in, used_after, used_raised, terminating, responding, setting, raising, standing_of, Ready};
ghost use Rattle.store_updates.specs.Finding.{found_in};

use dialog_id::IdTexts;
use dialog_responses::response_at;
use image_edit::RecordPlace;
use limits::Refusal;
use msg::Response;
use store_entries::locate;
use store_steps::{interval_at, local_at, terminate_at};

// Dialog::terminate, by identifier: 1, 3, 15.
// Kept (5, 6): C says how many of the lent bytes are used, perhaps too many: 3, in its turn among the causes; so both are taken as given.
// Kept (2): two lines, and a clause of its own for each: what is found, and the step that is taken there.
pub fn terminate(id: IdTexts<'_>, bytes: &mut [u8], used: usize) -> Result<usize, Refusal>
    ensures value { result ≡ written_in (terminating rust_limits id.entry.call_id.now id.entry.local_tag.now id.entry.remote_tag.now bytes.old used) }
    ensures bytes_after { bytes.new ≡ (terminating rust_limits id.entry.call_id.now id.entry.local_tag.now id.entry.remote_tag.now bytes.old used).bytes }
    ensures used_value { used_after result used ≡ (terminating rust_limits id.entry.call_id.now id.entry.local_tag.now id.entry.remote_tag.now bytes.old used).used }
{
    let p = find_record(id, bytes, used)?;
    terminate_at(bytes, p)
}

// Dialog::update_from_response, by identifier: 1, 2, 3, 15, 18.
// Kept (5, 6): C says how many of the lent bytes are used, perhaps too many: 3, in its turn among the causes; so both are taken as given.
pub fn response(
    id: IdTexts<'_>,
    response: Response<'_>,
    bytes: &mut [u8],
    used: usize,
) -> Result<usize, Refusal>
    ensures value { result ≡ written_in (responding rust_limits id.entry.call_id.now id.entry.local_tag.now id.entry.remote_tag.now response.entry.status response.entry.block.now bytes.old used) }
    ensures bytes_after { bytes.new ≡ (responding rust_limits id.entry.call_id.now id.entry.local_tag.now id.entry.remote_tag.now response.entry.status response.entry.block.now bytes.old used).bytes }
    ensures used_value { used_after result used ≡ (responding rust_limits id.entry.call_id.now id.entry.local_tag.now id.entry.remote_tag.now response.entry.status response.entry.block.now bytes.old used).used }
{
    id.check_lengths()?;
    msg::check_block(response.block)?;
    let p = locate(bytes, used, id)?;
    response_at(bytes, p, response)
}

// Dialog::set_session_expires, by identifier: 1, 3, 15, 13 with 90, 14, 18.
// Kept (5, 6): C says how many of the lent bytes are used, perhaps too many: 3, in its turn among the causes; so both are taken as given.
pub fn set_session_expires(
    id: IdTexts<'_>,
    seconds: u64,
    bytes: &mut [u8],
    used: usize,
) -> Result<usize, Refusal>
    ensures value { result ≡ written_in (setting rust_limits id.entry.call_id.now id.entry.local_tag.now id.entry.remote_tag.now seconds bytes.old used) }
    ensures bytes_after { bytes.new ≡ (setting rust_limits id.entry.call_id.now id.entry.local_tag.now id.entry.remote_tag.now seconds bytes.old used).bytes }
    ensures used_value { used_after result used ≡ (setting rust_limits id.entry.call_id.now id.entry.local_tag.now id.entry.remote_tag.now seconds bytes.old used).used }
{
    let p = find_record(id, bytes, used)?;
    interval_at(bytes, p, seconds)
}

// Dialog::next_local_cseq, by identifier: 1, 3, 15, 18. Answers the new number, or the largest again.
// Kept (5, 6): C says how many of the lent bytes are used, perhaps too many: 3, in its turn among the causes; so both are taken as given.
// Kept (2): two lines, and a clause of its own for each: what is found, and the step that is taken there.
pub fn next_local_cseq(
    id: IdTexts<'_>,
    bytes: &mut [u8],
    used: usize,
) -> Result<(u32, usize), Refusal>
    ensures value { result ≡ raised_in (raising rust_limits id.entry.call_id.now id.entry.local_tag.now id.entry.remote_tag.now bytes.old used) }
    ensures bytes_after { bytes.new ≡ (raising rust_limits id.entry.call_id.now id.entry.local_tag.now id.entry.remote_tag.now bytes.old used).bytes }
    ensures used_value { used_raised result used ≡ (raising rust_limits id.entry.call_id.now id.entry.local_tag.now id.entry.remote_tag.now bytes.old used).used }
{
    let p = find_record(id, bytes, used)?;
    local_at(bytes, p)
}

// Where the record of an identifier stands: 1, 3, 15.
// Kept (5, 6): 3 comes after 1, so that the caller cannot check the used length before.
fn find_record(id: IdTexts<'_>, bytes: &[u8], used: usize) -> Result<RecordPlace, Refusal>
    ensures value { result ≡ standing_of used (found_in (ident_of id.entry) None bytes.now used) }
    ensures ready { Ready bytes.now result }
{
    id.check_lengths()?;
    locate(bytes, used, id)
}
