// RSeqManager: the RSeq number of each dialog, in a lent store of which so many bytes are used.
#![tactic(auto)]

ghost use Rattle.std.specs.Prelude.{◌≡◌};
ghost use Rattle.limits.specs.Limits.{rust_limits};
ghost use Rattle.ordered_store.specs.Answers.{written_in, used_written};
ghost use Rattle.dialog_id.specs.IdTexts.{ident_of};
ghost use Rattle.rseq_manager.specs.RSeq.{first_number, next_number, next, current, remove, len, ran};
ghost use Rattle.rseq_manager.specs.Answers.{numbered_in, used_after, current_of, counted_of, empty_of};

use crate::writing::insert;
use codec::{LENGTH_SIZE, write_four};
use dialog_id::IdTexts;
use limits::Refusal;
use rseq_entries::{count_entries, find};

mod writing;

// RSeqManager::next_rseq: 1, 3, 18. A new identifier starts at n's low 31 bits, at least 1; a held number rises by one.
// The number, and the new used length.
// Kept (5, 6): C says how many of the lent bytes are used, perhaps too many: 3, in its turn among the causes; so both are taken as given.
pub fn next_rseq(
    id: IdTexts<'_>,
    n: u32,
    bytes: &mut [u8],
    used: usize,
) -> Result<(u32, usize), Refusal>
    ensures value { result ≡ numbered_in (ran rust_limits (next (ident_of id.entry) n) bytes.old used) }
    ensures bytes_after { bytes.new ≡ (ran rust_limits (next (ident_of id.entry) n) bytes.old used).bytes }
    ensures used_value { used_after result used ≡ (ran rust_limits (next (ident_of id.entry) n) bytes.old used).used }
{
    id.check_lengths()?;
    match find(id, bytes, used)? {
        Ok(e) => {
            let m = raised(e.number);
            write_four(bytes, e.end - 4, m);
            Ok((m, used))
        }
        Err(at) => insert(id, first_number(n), bytes, used, at),
    }
}

// RSeqManager::current_rseq: 1, 3, 15.
// Kept (5, 6): C says how many of the lent bytes are used, perhaps too many: 3, in its turn among the causes; so both are taken as given.
pub fn current_rseq(id: IdTexts<'_>, bytes: &[u8], used: usize) -> Result<u32, Refusal>
    ensures value { result ≡ current_of (ran rust_limits (current (ident_of id.entry)) bytes.now used).answer }
    ensures bytes_value { bytes.now ≡ (ran rust_limits (current (ident_of id.entry)) bytes.now used).bytes }
    ensures used_value { used ≡ (ran rust_limits (current (ident_of id.entry)) bytes.now used).used }
{
    id.check_lengths()?;
    let entry = find(id, bytes, used)?.map_err(|_| Refusal::NotFound)?;
    Ok(entry.number)
}

// RSeqManager::remove: 1, 3. The bytes behind the entry move over it; where there is none, nothing changes. The new used length.
// Kept (2): `prack_removal::remove_dialog` does so with its entry. A function of both would ask `Entry` for the place where one begins: one
// more member, with a law of the layout and its proof in each crate.
// Kept (5, 6): C says how many of the lent bytes are used, perhaps too many: 3, in its turn among the causes; so both are taken as given.
pub fn remove(id: IdTexts<'_>, bytes: &mut [u8], used: usize) -> Result<usize, Refusal>
    ensures value { result ≡ written_in (ran rust_limits (remove (ident_of id.entry)) bytes.old used) }
    ensures bytes_after { bytes.new ≡ (ran rust_limits (remove (ident_of id.entry)) bytes.old used).bytes }
    ensures used_value { used_written result used ≡ (ran rust_limits (remove (ident_of id.entry)) bytes.old used).used }
{
    id.check_lengths()?;
    match find(id, bytes, used)? {
        Ok(e) => {
            let at = e.id.call_id.start - LENGTH_SIZE;
            Ok(edit::replace(bytes, used, at, e.end - at, b""))
        }
        Err(_) => Ok(used),
    }
}

// RSeqManager::len: 3. How many dialogs have a number.
// Kept (5, 6): C says how many of the lent bytes are used, perhaps too many: 3, in its turn among the causes; so both are taken as given.
pub fn len(bytes: &[u8], used: usize) -> Result<usize, Refusal>
    ensures value { result ≡ counted_of (ran rust_limits len bytes.now used).answer }
    ensures bytes_value { bytes.now ≡ (ran rust_limits len bytes.now used).bytes }
    ensures used_value { used ≡ (ran rust_limits len bytes.now used).used }
{
    let held = bytes.get(..used).ok_or(Refusal::BadStore)?;
    count_entries(held).ok_or(Refusal::BadStore)
}

// RSeqManager::is_empty: 3. Whether no dialog has a number.
// Kept (5, 6): C says how many of the lent bytes are used, perhaps too many: 3, in its turn among the causes; so both are taken as given.
pub fn is_empty(bytes: &[u8], used: usize) -> Result<bool, Refusal>
    ensures value { result ≡ empty_of (ran rust_limits len bytes.now used).answer }
    ensures bytes_value { bytes.now ≡ (ran rust_limits len bytes.now used).bytes }
    ensures used_value { used ≡ (ran rust_limits len bytes.now used).used }
{
    let n = len(bytes, used)?;
    Ok(n == 0)
}

// The number that a new identifier starts at: n's low 31 bits, at least 1.
fn first_number(n: u32) -> u32
    ensures { result ≡ first_number n }
{
    (n % 2147483648).max(1)
}

// One more; the largest number stays.
fn raised(n: u32) -> u32
    ensures { result ≡ next_number n }
{
    n.saturating_add(1)
}
