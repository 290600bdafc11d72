// All Terminated records taken out of a store.
ghost use Rattle.std.specs.Prelude.{◌≡◌, length};
ghost use Rattle.limits.specs.Limits.{rust_limits};
ghost use Rattle.edit.specs.Edit.{over};
ghost use Rattle.record_walk.specs.Walk.{At};
ghost use Rattle.record.specs.Store.{decode_all};
ghost use Rattle.book.specs.Store.{run};
ghost use Rattle.dialog_manager.specs.Answers.{written_in};
ghost use Rattle.dialog_manager.specs.Search.{Stored};
ghost use Rattle.store_edits.specs.Edits.{sweeping, living_in, TerminatedAt};

use limits::Refusal;
use record::State;
use record_walk::{ids_end, record_end};

// DialogManager::cleanup_terminated: 3. The records that stay keep their order.
// Kept (5, 6): C says how many of the lent bytes are used, perhaps too many: 3, in its turn among the causes; so both are taken as given.
pub fn sweep(bytes: &mut [u8], used: usize) -> Result<usize, Refusal>
    ensures value { result ≡ written_in (run rust_limits (sweeping (length bytes.old)) bytes.old used) }
    ensures bytes_after { bytes.new ≡ (run rust_limits (sweeping (length bytes.old)) bytes.old used).bytes }
{
    store::count(bytes, used)?;
    Ok(close_up(&mut bytes[..used]))
}

// Of the used bytes: each record that stays moved down to the end of those before it. The new used length.
fn close_up(bytes: &mut [u8]) -> usize
    requires { Stored bytes.old }
    ensures value { result ≡ length (living_in (decode_all bytes.old)) }
    ensures bytes_after { bytes.new ≡ over (living_in (decode_all bytes.old)) bytes.old }
{
    let mut at = 0;
    let mut to = 0;
    // Kept (3): the bytes are written as they are walked, so that no iterator can hold them.
    while at < bytes.len() {
        let end = record_end(bytes, at);
        if !is_terminated(bytes, at) {
            let n = end - at;
            edit::shift(bytes, at, to, n);
            to += n;
        }
        at = end;
    }
    to
}

// The state byte of the record at a place stands behind its identifier; its low two bits tell the state.
// Kept (5): `close_up`, its one caller, writes the bytes as it walks; a struct of bytes and place with `At` as its ghost field would borrow them, and be
// made anew for each record.
fn is_terminated(bytes: &[u8], at: usize) -> bool
    requires { At bytes.now at }
    ensures { TerminatedAt bytes.now at result }
{
    bytes[ids_end(bytes, at)] % 4 == State::Terminated as u8
}
