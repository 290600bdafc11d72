// The entries of a store's used bytes, of any kind: how many there are, and where the one of a key stands or would go.
ghost use Rattle.std.specs.Prelude.{◌≡◌, ◌≤◌, length, drop};
ghost use Rattle.codec.specs.Codec.{Codec};
ghost use Rattle.ordered_store.specs.Entries.{Key, decode_entries};
ghost use Rattle.ordered_store.specs.Layout.{Parts, Lawful, layout_by, places_read, found_of, found_for};
ghost use Rattle.ordered_store.specs.Order.{key_order, is_before};
ghost use Rattle.ordered_store.specs.Places.{Stored, count_of};
ghost use Rattle.ordered_store.specs.Slot.{slot_read};

use crate::walking::Entries;
use limits::Refusal;
use std::cmp::Ordering;

// An entry of a store, by the places of its parts.
pub trait Entry: Copy {
    // What is read by, beside the bytes: the limits of a site, where the form of an entry depends on them.
    type Context: Copy;

    ghost Value: { Type 0 };

    ghost parts: { Parts Value Self };

    ghost form: { Self.Context → Codec Value };

    ghost Good: { Self.Context → Value → Type 0 };

    // The entry that begins at a place.
    // Kept (5): a reader of bytes and place, with the fact as its ghost field, would be made anew at each place, as for `codec`'s readers.
    fn read(context: Self::Context, bytes: &[u8], at: usize) -> Option<Self>
        requires { at ≤ length bytes.now }
        ensures { result ≡ places_read parts at ((form context).read (drop at bytes.now)) };

    // The place after it.
    fn end(self) -> usize
        ensures { result ≡ parts.end_of self };

    // Whether its key is before that of another.
    fn ascends(self, next: Self, bytes: &[u8]) -> bool
        requires within { parts.Within bytes.now self }
        requires within_2 { parts.Within bytes.now next }
        ensures { result ≡ is_before (key_order (parts.key_at bytes.now self) (parts.key_at bytes.now next)) };

    // Its bytes are read back, and its parts lie where the layout says.
    ghost lawful: { (context : Self.Context) → Lawful (layout_by (form context) (Good context) parts) };
}

// An entry whose key is asked for as a K.
pub trait KeyedBy<K>: Entry {
    ghost texts: { K → Key };

    // Its key against one that is asked for.
    // Kept (5): an entry is places alone, so that its store can be changed while it is held; the texts of its key lie in the bytes.
    fn compare(self, bytes: &[u8], key: K) -> Ordering
        requires { Self.parts.Within bytes.now self }
        ensures { result ≡ key_order (Self.parts.key_at bytes.now self) (texts key) };
}

// Of lent bytes of which so many are used: the entry of a key, or the place where it would go; 3.
// Kept (5, 6): lent bytes and how many are used, as its callers have them, which C calls; that the used length lies within is checked here.
pub fn find<K: Copy, E: KeyedBy<K>>(
    context: E::Context,
    key: K,
    bytes: &[u8],
    used: usize,
) -> Result<Result<E, usize>, Refusal>
    ensures { result ≡ found_for E.parts (E.form context) (E.texts key) bytes.now used }
{
    let held = bytes.get(..used).ok_or(Refusal::BadStore)?;
    count_entries::<E>(context, held).ok_or(Refusal::BadStore)?;
    search(context, key, held)
}

// The entries from the front to the end, each before the next.
pub fn count_entries<E: Entry>(context: E::Context, bytes: &[u8]) -> Option<usize>
    ensures { result ≡ count_of (decode_entries (E.form context) E.parts.key_of bytes.now) }
{
    let mut last: Option<E> = None;
    let mut n = 0;
    for (_, entry) in Entries::<E>::new(context, bytes) {
        let e = entry?;
        if let Some(l) = last {
            if !l.ascends(e, bytes) {
                return None;
            }
        }
        n += 1;
        last = Some(e);
    }
    Some(n)
}

// The first entry whose key isn't before the one asked for. The bytes are those of a store that was read.
// Kept (6): entries have no fixed size, so no place in the middle is known to begin one: it is searched from the front.
fn search<K: Copy, E: KeyedBy<K>>(
    context: E::Context,
    key: K,
    bytes: &[u8],
) -> Result<Result<E, usize>, Refusal>
    requires { Stored (E.form context) E.parts.key_of bytes.now }
    ensures { result ≡ found_of E.parts (slot_read (E.form context) E.parts.key_of (E.texts key) (decode_entries (E.form context) E.parts.key_of bytes.now)) }
{
    for (at, entry) in Entries::<E>::new(context, bytes) {
        let e = entry.ok_or(Refusal::BadStore)?;
        match e.compare(bytes, key) {
            Ordering::Less => {}
            Ordering::Equal => {
                return Ok(Ok(e));
            }
            Ordering::Greater => {
                return Ok(Err(at));
            }
        }
    }
    Ok(Err(bytes.len()))
}
