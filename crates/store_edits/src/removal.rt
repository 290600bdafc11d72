// One record taken out of a store.
ghost use Rattle.std.specs.Prelude.{◌≡◌, length};
ghost use Rattle.limits.specs.Limits.{rust_limits};
ghost use Rattle.book.specs.Store.{run};
ghost use Rattle.dialog_manager.specs.Answers.{written_in};
ghost use Rattle.store_edits.specs.Edits.{removing};

use dialog_id::IdTexts;
use limits::Refusal;

// DialogManager::remove: 1, 3, 15. The bytes behind the record move over it.
// Kept (5, 6): C says how many of the lent bytes are used, perhaps too many: 3, in its turn among the causes; so both are taken as given.
pub fn remove(id: IdTexts<'_>, bytes: &mut [u8], used: usize) -> Result<usize, Refusal>
    ensures value { result ≡ written_in (run rust_limits (removing (length bytes.old) id.entry.call_id.now id.entry.local_tag.now id.entry.remote_tag.now) bytes.old used) }
    ensures bytes_after { bytes.new ≡ (run rust_limits (removing (length bytes.old) id.entry.call_id.now id.entry.local_tag.now id.entry.remote_tag.now) bytes.old used).bytes }
{
    let (at, n) = dialog_manager::get(id, bytes, used)?;
    Ok(edit::replace(bytes, used, at, n, b""))
}
