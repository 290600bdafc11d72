// One entry of the RSeq store, read at a place: three texts with two length bytes each, then a number that isn't 0.
ghost use Rattle.std.specs.Prelude.{◌≡◌, ◌≤◌, length, drop};
ghost use Rattle.dialog_id.specs.IdTexts.{ident_of};
ghost use Rattle.rseq_entries.specs.Entries.{key_of_ident, Entry, entry_form, WellFormed};
ghost use Rattle.rseq_entries.specs.Places.{reading_of, parts};
ghost use Rattle.rseq_entries.specs.Laws.{lawful};

use codec::{read_four, read_text};
use dialog_id::{DialogId, IdTexts};
use ordered_store::{Entry, KeyedBy};
use std::cmp::Ordering;

// Where its texts lie, its number, and the place after it.
#[derive(Clone, Copy)]
pub struct EntryAt {
    pub id: DialogId,
    pub number: u32,
    pub end: usize,
}

impl Entry for EntryAt {
    // The form of an entry depends on no limit that a site sets.
    type Context = ();

    ghost Value = { Entry };

    ghost parts = { parts };

    ghost form = { λ context. entry_form };

    ghost Good = { λ context. WellFormed };

    // Kept (5): the parameters of `Entry::read`, which says why.
    fn read(_context: (), bytes: &[u8], at: usize) -> Option<EntryAt> {
        read_entry(bytes, at)
    }

    fn end(self) -> usize {
        self.end
    }

    fn ascends(self, next: EntryAt, bytes: &[u8]) -> bool {
        self.id.texts(bytes).cmp(&next.id.texts(bytes)).is_lt()
    }

    ghost lawful = { λ context. lawful };
}

impl<'a> KeyedBy<IdTexts<'a>> for EntryAt {
    ghost texts = { λ id. key_of_ident (ident_of id) };

    // Kept (4, 5): an entry and a key are of different types, which `Ord` can't compare; the parameters are those of `KeyedBy`, which says why.
    fn compare(self, bytes: &[u8], key: IdTexts<'a>) -> Ordering {
        self.id.texts(bytes).cmp(&key)
    }
}

// The entry that begins at a place.
// Kept (5): a reader by value, with the fact as its ghost field, would be made anew at each place, and clauses would say `r.bytes.now`;
// one lent as `&mut` has a clause for what is read, one for its place and one for its bytes.
fn read_entry(bytes: &[u8], at: usize) -> Option<EntryAt>
    requires { at ≤ length bytes.now }
    ensures { result ≡ reading_of at (entry_form.read (drop at bytes.now)) }
{
    let call_id = read_text(bytes, at)?;
    let local_tag = read_text(bytes, call_id.end())?;
    let remote_tag = read_text(bytes, local_tag.end())?;
    let place = remote_tag.end();
    if bytes.len() - place < 4 {
        return None;
    }
    let number = read_four(bytes, place);
    if number == 0 {
        return None;
    }
    Some(EntryAt {
        id: DialogId {
            call_id,
            local_tag,
            remote_tag,
        },
        number,
        end: place + 4,
    })
}
