// What is held for one text: copied from the store and cleaned, and set in the store.
ghost use Rattle.std.specs.Prelude.{◌≡◌, List, ◌++◌, ℕ, ◌+◌, ◌≤◌, ◌<◌, length, take};
ghost use Rattle.limits.specs.Limits.{LimitSet};
ghost use Rattle.limits.specs.Settings.{limits_in};
ghost use Rattle.edit.specs.Edit.{spliced};
ghost use Rattle.output.specs.Output.{fitted, written_from, leaves};
ghost use Rattle.codec.specs.Codec.{text};
ghost use Rattle.ordered_store.specs.Entries.{set_entry};
ghost use Rattle.prack_body.specs.Lists.{Tracked};
ghost use Rattle.prack_body.specs.Body.{most_pending, body_room, body_of, Holds};
ghost use Rattle.prack_entries.specs.Entries.{key_of, encode_tracked, clean_for};
ghost use Rattle.prack_entries.specs.Places.{Sought};

use codec::LENGTH_SIZE;
use limits::{Refusal, Settings};
use prack_body::TrackedAt;

// What is held after the cleanup of a call at a time, without the text, in lent bytes. Its length.
// Kept (5, 6): any lent bytes that have room will do; a struct that owns an array of that size, and its length, would ask more of callers.
pub fn clean_copy(
    settings: Settings,
    slot: Result<TrackedAt, usize>,
    bytes: &[u8],
    time: u64,
    body: &mut [u8],
) -> usize
    requires pending { settings.pending ≤ most_pending }
    requires room { (body_room ≤ length body.old) × ((id : List ℕ) × Sought (limits_in settings) id bytes.now (length bytes.now) slot) }
    ensures lower_bound { (9 ≤ result) × (result ≤ body_room) }
    ensures by_index { (id : List ℕ) (s : Sought (limits_in settings) id bytes.now (length bytes.now) slot) → length id < 65536 → Holds (limits_in settings) body.new result (clean_for (limits_in settings) time id s.list) }
{
    match slot {
        Ok(t) => {
            let n = prack_body::load(bytes, t, body);
            prack_cleaning::clean(settings, body, n, time)
        }
        Err(_) => prack_body::begin(body, time),
    }
}

// What is held for a text from now on, in the place of what was, or at its own: 18. The new used length.
// Kept (5): a type of a short text would be put around `id` by each caller and taken off before codec's `write_text`, which takes bytes.
// Kept (5, 6): the bytes past the used ones are room for a longer body.
pub fn set(
    id: &[u8],
    slot: Result<TrackedAt, usize>,
    body: &[u8],
    bytes: &mut [u8],
    used: usize,
) -> Result<usize, Refusal>
    requires { (length id.now < 65536) × ((length body.now ≤ body_room) × ((L : LimitSet) × Sought L id.now bytes.old used slot)) }
    ensures value { (L : LimitSet) (s : Sought L id.now bytes.old used slot) (t : Tracked) → t.id ≡ id.now → body.now ≡ body_of L t → result ≡ written_from (fitted (length bytes.old) (encode_tracked L (set_entry key_of t s.list))) }
    ensures bytes_after { (L : LimitSet) (s : Sought L id.now bytes.old used slot) (t : Tracked) → t.id ≡ id.now → body.now ≡ body_of L t → bytes.new ≡ leaves (fitted (length bytes.old) (encode_tracked L (set_entry key_of t s.list))) bytes.old }
{
    match slot {
        Ok(t) => {
            let from = t.id.end();
            output::replace(bytes, used, from, t.end - from, body)
        }
        Err(at) => insert(id, body, bytes, used, at),
    }
}

// A text with its length bytes and what is held for it, put in at a place of the used bytes: 18. The new used length.
// Kept (5): a type of a short text would be put around `id` by each caller and taken off before codec's `write_text`, which takes bytes.
// Kept (2, 5, 6): the bytes past the used ones are room for the entry. `rseq_manager` has the test and the move too: one function of the two would answer by
// `fitted` of bytes that aren't there yet, for two lines in two callers.
fn insert(
    id: &[u8],
    body: &[u8],
    bytes: &mut [u8],
    used: usize,
    at: usize,
) -> Result<usize, Refusal>
    requires id_len_bound { (length id.now < 65536) × (length body.now ≤ body_room) }
    requires at_le_used { (at ≤ used) × (used ≤ length bytes.old) }
    ensures value { result ≡ written_from (fitted (length bytes.old) (spliced at 0 (text.write id.now ++ body.now) (take used bytes.old))) }
    ensures bytes_after { bytes.new ≡ leaves (fitted (length bytes.old) (spliced at 0 (text.write id.now ++ body.now) (take used bytes.old))) bytes.old }
{
    let size = LENGTH_SIZE + id.len() + body.len();
    if bytes.len() - used < size {
        return Err(Refusal::NoRoom);
    }
    let n = edit::move_tail(bytes, used, at, 0, size);
    let behind = codec::write_text(bytes, at, id);
    edit::put(bytes, behind, body);
    Ok(n)
}
