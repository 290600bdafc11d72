// PrackValidator: the calls that remove, on a lent store of which so many bytes are used. Neither cleans.
#![tactic(auto)]

ghost use Rattle.std.specs.Prelude.{◌≡◌, true};
ghost use Rattle.limits.specs.Settings.{in_bounds, limits_in};
ghost use Rattle.ordered_store.specs.Answers.{written_in, used_written};
ghost use Rattle.prack_validator.specs.Validator.{remove_dialog, remove_pracked, ran};

use codec::LENGTH_SIZE;
use limits::{Refusal, Settings};
use prack_entries::{find, set};

// PrackValidator::remove_dialog: 1, 3. Nothing held: nothing changes. The new used length.
// Kept (2): `rseq_manager::remove` does so with its entry. A function of both would ask `Entry` for the place where one begins: one more
// member, with a law of the layout and its proof in each crate.
// Kept (5, 6): C says how many of the lent bytes are used, perhaps too many: 3, in its turn among the causes; so both are taken as given.
pub fn remove_dialog(
    settings: Settings,
    id: &[u8],
    bytes: &mut [u8],
    used: usize,
) -> Result<usize, Refusal>
    ensures value { result ≡ written_in (ran (limits_in settings) (remove_dialog id.now) bytes.old used) }
    ensures bytes_after { bytes.new ≡ (ran (limits_in settings) (remove_dialog id.now) bytes.old used).bytes }
    ensures used_value { used_written result used ≡ (ran (limits_in settings) (remove_dialog id.now) bytes.old used).used }
{
    text::check_length(id)?;
    match find(settings, id, bytes, used)? {
        Ok(t) => {
            let at = t.id.start - LENGTH_SIZE;
            Ok(edit::replace(bytes, used, at, t.end - at, b""))
        }
        Err(_) => Ok(used),
    }
}

// PrackValidator::remove_pracked: 1, 3. The acknowledged entries of an RSeq go; an emptied list stands. The new used length.
// Kept (5, 6): C says how many of the lent bytes are used, perhaps too many: 3, in its turn among the causes; so both are taken as given.
pub fn remove_pracked(
    settings: Settings,
    id: &[u8],
    rseq: u32,
    bytes: &mut [u8],
    used: usize,
) -> Result<usize, Refusal>
    requires permitted { in_bounds settings ≡ true }
    ensures value { result ≡ written_in (ran (limits_in settings) (remove_pracked id.now rseq) bytes.old used) }
    ensures bytes_after { bytes.new ≡ (ran (limits_in settings) (remove_pracked id.now rseq) bytes.old used).bytes }
    ensures used_value { used_written result used ≡ (ran (limits_in settings) (remove_pracked id.now rseq) bytes.old used).used }
{
    text::check_length(id)?;
    let slot = find(settings, id, bytes, used)?;
    match slot {
        Ok(t) => {
            // Kept (6): no heap: room for the largest body, of which so many bytes are used.
            let mut body = [0u8; prack_body::BODY_ROOM];
            let n = prack_body::load(&bytes[..used], t, &mut body);
            let m = prack_cleaning::prune(&mut body, n, rseq);
            set(id, slot, &body[..m], bytes, used)
        }
        Err(_) => Ok(used),
    }
}
