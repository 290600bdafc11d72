// What the used bytes of a store hold: where the one that is asked for stands or would go.
ghost use Rattle.std.specs.Prelude.{◌≡◌};
ghost use Rattle.limits.specs.Settings.{limits_in};
ghost use Rattle.prack_body.specs.Lists.{Tracked};
ghost use Rattle.prack_body.specs.Layout.{tracked_form, TrackedWhole};
ghost use Rattle.prack_entries.specs.Entries.{key_of_text};
ghost use Rattle.prack_entries.specs.Places.{parts, slot_for};
ghost use Rattle.prack_entries.specs.Laws.{lawful};

use limits::{Refusal, Settings};
use ordered_store::{Entry, KeyedBy, compare};
use prack_body::{TrackedAt, read_tracked};
use std::cmp::Ordering;

// What is held for a text, as an entry of the store.
#[derive(Clone, Copy)]
struct StoreEntry {
    places: TrackedAt,
}

impl Entry for StoreEntry {
    type Context = Settings;

    ghost Value = { Tracked };

    ghost parts = { parts };

    ghost form = { λ settings. tracked_form (limits_in settings) };

    ghost Good = { λ settings. TrackedWhole (limits_in settings) };

    // Kept (5): the parameters of `Entry::read`, which says why.
    fn read(settings: Settings, bytes: &[u8], at: usize) -> Option<StoreEntry> {
        let places = read_tracked(settings, bytes, at)?;
        Some(StoreEntry { places })
    }

    fn end(self) -> usize {
        self.places.end
    }

    fn ascends(self, next: StoreEntry, bytes: &[u8]) -> bool {
        self.compare(bytes, next.places.id.text(bytes)).is_lt()
    }

    ghost lawful = { λ settings. lawful (limits_in settings) };
}

impl<'a> KeyedBy<&'a [u8]> for StoreEntry {
    ghost texts = { λ id. key_of_text id.now };

    // Kept (4, 5): an entry and a key are of different types, which `Ord` can't compare; the parameters are those of `KeyedBy`, which says why.
    fn compare(self, bytes: &[u8], key: &'a [u8]) -> Ordering {
        compare(self.places.id.text(bytes), key)
    }
}

// Of lent bytes of which so many are used: where what is held for a text lies, or the place where it would go; 3.
// Kept (5, 6): lent bytes and how many are used, as its callers have them, which C calls; that the used length lies within is checked here.
pub fn find(
    settings: Settings,
    id: &[u8],
    bytes: &[u8],
    used: usize,
) -> Result<Result<TrackedAt, usize>, Refusal>
    ensures { result ≡ slot_for (limits_in settings) id.now bytes.now used }
{
    Ok(ordered_store::find::<&[u8], StoreEntry>(settings, id, bytes, used)?.map(|e| e.places))
}
