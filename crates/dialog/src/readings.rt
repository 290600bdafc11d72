// Readings of one record's image, given by itself.
ghost use Rattle.std.specs.Prelude.{◌≡◌};
ghost use Rattle.dialog_rules.specs.OneImage.{one_record};
ghost use Rattle.dialog.specs.Readings.{image_answer, refresh_of, refresh_answer};

use image::RecordAt;
use limits::Refusal;

// The Rust's accessors: 3. Answers where the parts of a record lie in its image, and its numbers.
pub fn read_image(bytes: &[u8]) -> Result<RecordAt, Refusal>
    ensures { result ≡ image_answer (one_record bytes.now) }
{
    let r = image::read_record(bytes, 0).ok_or(Refusal::BadStore)?;
    if r.end < bytes.len() {
        return Err(Refusal::BadStore);
    }
    Ok(r)
}

// Dialog::needs_refresh, so many nanoseconds after the last refresh: 3.
pub fn needs_refresh(bytes: &[u8], elapsed: u64) -> Result<bool, Refusal>
    ensures { result ≡ refresh_answer (refresh_of bytes.now elapsed) }
{
    let r = read_image(bytes)?;
    let numbers = r.numbers;
    Ok(session_timer_manager::needs_refresh(numbers.seconds, elapsed))
}
