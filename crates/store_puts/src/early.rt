// The Early records of a Call-ID in the used bytes of a store that was read.
ghost use Rattle.std.specs.Prelude.{◌≡◌, ◌<◌, length};
ghost use Rattle.limits.specs.Settings.{limits_in};
ghost use Rattle.record.specs.NumbersForm.{state_in};
ghost use Rattle.dialog_id.specs.IdTexts.{ident_of};
ghost use Rattle.record.specs.Store.{decode_all};
ghost use Rattle.book.specs.Book.{is_early};
ghost use Rattle.dialog_manager.specs.Search.{IdsWithin};
ghost use Rattle.store_puts.specs.Puts.{crowded_in, early_others, state_at, early_at};

use dialog_id::IdTexts;
use image::IdsAt;
use limits::Settings;
use record::State;
use store::{Held, ids_at};

// 17: the state is Early, and so many other Early records have this Call-ID.
// Kept (5): what is looked for, and the store it is looked for in: each is used with others too.
pub fn is_crowded(settings: Settings, state: State, held: Held<'_>, id: IdTexts<'_>) -> bool
    ensures { result ≡ crowded_in (limits_in settings) (state_in state) (ident_of id.entry) (decode_all held.entry.bytes.now) }
{
    is_early(state) && settings.early_cap as usize <= early_others(held, id)
}

// How many Early records have this Call-ID and another identifier.
// Kept (5): what is looked for, and the store it is looked for in: each is used with others too.
fn early_others(held: Held<'_>, id: IdTexts<'_>) -> usize
    ensures { result ≡ early_others (ident_of id.entry) (decode_all held.entry.bytes.now) }
{
    let bytes = held.bytes;
    let mut n = 0;
    for at in held.records() {
        let ids = ids_at(bytes, at);
        if is_early_other(bytes, ids, id) {
            n += 1;
        }
    }
    n
}

// An Early record of this Call-ID and another identifier. The state byte stands past the identifier.
// Kept (5): the bytes are those of the store searched, and the places are others at each record.
fn is_early_other(bytes: &[u8], ids: IdsAt, id: IdTexts<'_>) -> bool
    requires { IdsWithin bytes.now ids × (ids.end < length bytes.now) }
    ensures { result ≡ early_at bytes.now ids id.entry.call_id.now id.entry.local_tag.now id.entry.remote_tag.now }
{
    let other = ids.id.texts(bytes);
    is_early_at(bytes, ids.end) && other.call_id == id.call_id && other != id
}

// Whether the state byte at a place tells Early, in its low two bits.
// Kept (5): the bytes are those of the store searched, and the place is another at each record.
fn is_early_at(bytes: &[u8], at: usize) -> bool
    requires { at < length bytes.now }
    ensures { result ≡ is_early (state_at bytes.now at) }
{
    bytes[at] % 4 == State::Early as u8
}

fn is_early(state: State) -> bool
    ensures { result ≡ is_early (state_in state) }
{
    matches!(state, State::Early)
}
