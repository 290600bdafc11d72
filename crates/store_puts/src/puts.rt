// One record's image put into a store.
ghost use Rattle.std.specs.Prelude.{◌≡◌, ◌++◌, ◌≤◌, length, take};
ghost use Rattle.limits.specs.Settings.{limits_in};
ghost use Rattle.output.specs.Output.{fitted, leaves, written_from};
ghost use Rattle.book.specs.Store.{run};
ghost use Rattle.dialog_manager.specs.Answers.{written_in};
ghost use Rattle.store_puts.specs.Puts.{putting, Named, Open};

use crate::early::is_crowded;
use dialog_id::IdTexts;
use dialog_manager::search_id;
use image_writer::write_image;
use limits::{Limits, Refusal, Settings};
use record::State;
use store::Held;

// DialogManager::insert of one record image: 3, 16, 17, 18. The settings are taken as they are: 30 is the C function's. A replacement keeps its place; a new record is written into the free end of the store.
// Kept (5, 6): C says how many of the lent bytes are used, perhaps too many: 3, in its turn among the causes; so both are taken as given.
pub fn put(
    settings: Settings,
    image: &[u8],
    bytes: &mut [u8],
    used: usize,
) -> Result<usize, Refusal>
    ensures value { result ≡ written_in (run (limits_in settings) (putting (length bytes.old) image.now) bytes.old used) }
    ensures bytes_after { bytes.new ≡ (run (limits_in settings) (putting (length bytes.old) image.now) bytes.old used).bytes }
{
    let n = store::count(bytes, used)?;
    let r = dialog::read_image(image)?;
    if Limits::MAX_CONFIRMED_DIALOGS <= n {
        return Err(Refusal::TooManyDialogs);
    }
    let numbers = r.numbers;
    let id = r.ids.id.texts(image);
    put_named(settings, image, numbers.state, id, bytes, used)
}

// The image of a record of this state and identifier: 17, 18. The store was read, and isn't full.
// Kept (5, 6): bytes past the used ones are written where the image is longer or new.
fn put_named(
    settings: Settings,
    image: &[u8],
    state: State,
    id: IdTexts<'_>,
    bytes: &mut [u8],
    used: usize,
) -> Result<usize, Refusal>
    requires named { Named image.now state id.call_id.now id.local_tag.now id.remote_tag.now }
    requires fact { Open (limits_in settings) bytes.old used }
    ensures value { result ≡ written_in (run (limits_in settings) (putting (length bytes.old) image.now) bytes.old used) }
    ensures bytes_after { bytes.new ≡ (run (limits_in settings) (putting (length bytes.old) image.now) bytes.old used).bytes }
{
    let held = Held {
        bytes: &bytes[..used],
    };
    if is_crowded(settings, state, held, id) {
        return Err(Refusal::TooManyEarlyDialogs);
    }
    let Some((at, r)) = search_id(held, id) else {
        return add(image, bytes, used);
    };
    output::replace(bytes, used, at, r.end - at, image)
}

// The image after the used bytes: 18. The image writer is lent the free end of the store, the bytes from the used length on.
// Kept (5, 6): the image writer is lent the free end alone; what is answered and said here is of the whole store.
fn add(image: &[u8], bytes: &mut [u8], used: usize) -> Result<usize, Refusal>
    requires { used ≤ length bytes.old }
    ensures value { result ≡ written_from (fitted (length bytes.old) (take used bytes.old ++ image.now)) }
    ensures bytes_after { bytes.new ≡ leaves (fitted (length bytes.old) (take used bytes.old ++ image.now)) bytes.old }
{
    let n = write_image(image, &mut bytes[used..])?;
    Ok(used + n)
}
