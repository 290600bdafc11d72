// Whether a request belongs to a record, given as its image.
ghost use Rattle.std.specs.Prelude.{◌≡◌};
ghost use Rattle.limits.specs.Limits.{rust_limits};
ghost use Rattle.dialog.specs.Matching.{matches_request, matches_answer};

use crate::readings::read_image;
use dialog_id::request_id;
use limits::Refusal;

// Dialog::matches_request: 1, 2, 3. It is false where an identifier part is absent. What is remote to the record is local to who asks.
pub fn matches_request(block: &[u8], bytes: &[u8]) -> Result<bool, Refusal>
    ensures { result ≡ matches_answer (matches_request rust_limits block.now bytes.now) }
{
    msg::check_block(block)?;
    let r = read_image(bytes)?;
    let Some(asked) = request_id(block) else {
        return Ok(false);
    };
    let ids = r.ids;
    let held = ids.id.swapped();
    Ok(asked.texts(block) == held.texts(bytes))
}
