// The updates of one record that no message makes, on its image in lent bytes with room behind it. Each answers the image's new length.
#![tactic(auto)]

ghost use Rattle.std.specs.Prelude.{◌≡◌, IfOk};
ghost use Rattle.limits.specs.Limits.{rust_limits};
ghost use Rattle.output.specs.Output.{leaves, written_from};
ghost use Rattle.image_edit.specs.Stands.{StandsAt};
ghost use Rattle.dialog_changes.specs.ImageUpdates.{used_record, place_answer, terminated, confirmed, local_raised, raised_record, raised_answer, interval_set};

use dialog::read_image;
use image_edit::RecordPlace;
use limits::Refusal;
use record_edit::revise_numbers;
use store_steps::{interval_at, local_at, terminate_at};

// Dialog::confirm: 3. Early becomes Confirmed; every other state stays.
// Kept (5, 6): C says how many of the lent bytes are used, perhaps too many: 3, in its turn among the causes; so both are taken as given.
pub fn confirm(bytes: &mut [u8], used: usize) -> Result<usize, Refusal>
    ensures value { result ≡ written_from (confirmed bytes.old used) }
    ensures bytes_after { bytes.new ≡ leaves (confirmed bytes.old used) bytes.old }
{
    let p = read_used(bytes, used)?;
    revise_numbers(bytes, p, p.record.numbers.confirm())
}

// Dialog::terminate: 3.
// Kept (5, 6): C says how many of the lent bytes are used, perhaps too many: 3, in its turn among the causes; so both are taken as given.
// Kept (2): two lines, and a clause of its own for each: what is found, and the step that is taken there.
pub fn terminate(bytes: &mut [u8], used: usize) -> Result<usize, Refusal>
    ensures value { result ≡ written_from (terminated bytes.old used) }
    ensures bytes_after { bytes.new ≡ leaves (terminated bytes.old used) bytes.old }
{
    let p = read_used(bytes, used)?;
    terminate_at(bytes, p)
}

// Dialog::next_local_cseq: 3, 18. Answers the new number, and the image's new length.
// Kept (5, 6): C says how many of the lent bytes are used, perhaps too many: 3, in its turn among the causes; so both are taken as given.
// Kept (2): two lines, and a clause of its own for each: what is found, and the step that is taken there.
pub fn next_local_cseq(bytes: &mut [u8], used: usize) -> Result<(u32, usize), Refusal>
    ensures value { result ≡ raised_answer (raised_record bytes.old used) }
    ensures bytes_after { bytes.new ≡ leaves (local_raised bytes.old used) bytes.old }
{
    let p = read_used(bytes, used)?;
    local_at(bytes, p)
}

// Dialog::set_session_expires: 3, 13 with 90, 14, 18.
// Kept (5, 6): C says how many of the lent bytes are used, perhaps too many: 3, in its turn among the causes; so both are taken as given.
pub fn set_session_expires(bytes: &mut [u8], used: usize, seconds: u64) -> Result<usize, Refusal>
    ensures value { result ≡ written_from (interval_set rust_limits seconds bytes.old used) }
    ensures bytes_after { bytes.new ≡ leaves (interval_set rust_limits seconds bytes.old used) bytes.old }
{
    let p = read_used(bytes, used)?;
    interval_at(bytes, p, seconds)
}

// The one record of the used bytes, which begins at 0: 3.
// Kept (5, 6): C says how many of the lent bytes are used, perhaps too many: 3, in its turn among the causes; so both are taken as given.
pub fn read_used(bytes: &[u8], used: usize) -> Result<RecordPlace, Refusal>
    ensures value { result ≡ place_answer used (used_record bytes.now used) }
    ensures stands { IfOk result (λ p. StandsAt bytes.now p) }
{
    let held = bytes.get(..used).ok_or(Refusal::BadStore)?;
    let record = read_image(held)?;
    Ok(RecordPlace {
        used,
        at: 0,
        record,
    })
}
