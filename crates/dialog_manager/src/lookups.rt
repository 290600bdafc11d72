// Where the record of an identifier, of a Call-ID or of a request lies in a store.
ghost use Rattle.std.specs.Prelude.{◌≡◌, length};
ghost use Rattle.limits.specs.Limits.{rust_limits};
ghost use Rattle.book.specs.Calls.{read, find_by_request, find_by_call_id};
ghost use Rattle.book.specs.Store.{run};
ghost use Rattle.dialog_manager.specs.Lookups.{getting, answer_in};

use crate::finding::{OfCallId, OfId};
use crate::placing::{place, place_of_request};
use dialog_id::{IdTexts, request_id};
use limits::Refusal;

// DialogManager::get: 1, 3, 15.
// Kept (5, 6): C says how many of the lent bytes are used, perhaps too many: 3, in its turn among the causes; so both are taken as given.
pub fn get(id: IdTexts<'_>, bytes: &[u8], used: usize) -> Result<(usize, usize), Refusal>
    ensures { answer_in result ≡ (run rust_limits (read (length bytes.now) (getting id.entry.call_id.now id.entry.local_tag.now id.entry.remote_tag.now)) bytes.now used).answer }
{
    id.check_lengths()?;
    let held = store::read(bytes, used)?;
    place(held, &OfId { id })
}

// DialogManager::find_by_call_id: 1, 3, 15. The first in the store.
// Kept (5, 6): C says how many of the lent bytes are used, perhaps too many: 3, in its turn among the causes; so both are taken as given.
pub fn find_by_call_id(call_id: &[u8], bytes: &[u8], used: usize) -> Result<(usize, usize), Refusal>
    ensures { answer_in result ≡ (run rust_limits (read (length bytes.now) (find_by_call_id call_id.now)) bytes.now used).answer }
{
    text::check_length(call_id)?;
    let held = store::read(bytes, used)?;
    place(held, &OfCallId { call_id })
}

// DialogManager::find_by_request: 1, 2, 3, 15, the last where a part of the identifier can't be read too. A request from the peer has From as remote tag.
// Kept (5, 6): C says how many of the lent bytes are used, perhaps too many: 3, in its turn among the causes; so both are taken as given.
pub fn find_by_request(block: &[u8], bytes: &[u8], used: usize) -> Result<(usize, usize), Refusal>
    ensures { answer_in result ≡ (run rust_limits (read (length bytes.now) (find_by_request block.now)) bytes.now used).answer }
{
    msg::check_block(block)?;
    let held = store::read(bytes, used)?;
    let i = request_id(block).ok_or(Refusal::NotFound)?;
    place_of_request(block, i, held)
}
