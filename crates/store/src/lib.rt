// The used bytes of a store: whole records one after another, each with an identifier of its own (document 01, "Record image").
#![tactic(auto)]

ghost use Rattle.std.specs.Prelude.{◌≡◌, ◌≤◌, ◌<◌};
ghost use Rattle.record.specs.Store.{decode_all};
ghost use Rattle.distinct.specs.Distinct.{Whole, is_distinct};
ghost use Rattle.store.specs.Counting.{records_held, count_answer, ReadAs};
ghost use Rattle.store.specs.Reading.{store_from, whole_records};

use limits::Refusal;

mod held;
mod ids;

pub use held::Held;
pub use ids::ids_at;

// DialogManager::count, of lent bytes of which so many are used: 3.
// Kept (5, 6): C says how many of the lent bytes are used, perhaps too many: 3, in its turn among the causes; so both are taken as given.
// Kept (2): `bytes.get(..used).ok_or(Refusal::BadStore)?` stands in other calls too: a function of it would be this line, with a clause of two cases.
pub fn count(bytes: &[u8], used: usize) -> Result<usize, Refusal>
    ensures { result ≡ count_answer (records_held bytes.now used) }
{
    let held = bytes.get(..used).ok_or(Refusal::BadStore)?;
    read_store(held).ok_or(Refusal::BadStore)
}

// The used bytes of a lent store: 3.
// Kept (5, 6): C says how many of the lent bytes are used, perhaps too many: 3, in its turn among the causes; so both are taken as given.
pub fn read<'a>(bytes: &'a [u8], used: usize) -> Result<Held<'a>, Refusal>
    ensures { ReadAs bytes.now used result }
{
    count(bytes, used)?;
    Ok(Held {
        bytes: &bytes[..used],
    })
}

// How many records the used bytes of a store are.
pub fn read_store(bytes: &[u8]) -> Option<usize>
    ensures { result ≡ store_from (decode_all bytes.now) }
{
    let count = read_records(bytes)?;
    is_distinct(bytes, count).then_some(count)
}

// Whether the records have identifiers of their own. Tables for the places of few of them at a time cost less to clear, and tables for more save runs.
// Kept (4): each size costs at most 10,000 instructions more to clear than the one before it, but for the last, where the records themselves cost 15,000,000.
fn is_distinct(bytes: &[u8], count: usize) -> bool
    requires { Whole bytes.now }
    ensures { result ≡ is_distinct bytes.now }
{
    match count {
        0..=160 => is_distinct_in::<160>(bytes),
        161..=1200 => is_distinct_in::<1200>(bytes),
        1201..=5000 => is_distinct_in::<2400>(bytes),
        _ => is_distinct_in::<5120>(bytes),
    }
}

// The same, with tables for the places of N records at a time.
fn is_distinct_in<const N: usize>(bytes: &[u8]) -> bool
    requires whole { Whole bytes.now }
    requires size { (0 < N) × (N ≤ 5120) }
    ensures { result ≡ is_distinct bytes.now }
{
    let mut places = [0u32; N];
    let mut scratch = [0u32; N];
    distinct::is_distinct(bytes, &mut places, &mut scratch)
}

// The records from the front to the end, identifiers not compared.
fn read_records(bytes: &[u8]) -> Option<usize>
    ensures { result ≡ store_from (whole_records bytes.now) }
{
    let mut at = 0;
    let mut count = 0;
    // Kept (3): `?` hands on the first bytes that are no record. By an iterator of places and readings, as ordered_store's `Entries` is, this one loop would be
    // read: a struct, a relation and its words for it alone.
    while at < bytes.len() {
        let r = image::read_record(bytes, at)?;
        count += 1;
        at = r.end;
    }
    Some(count)
}
