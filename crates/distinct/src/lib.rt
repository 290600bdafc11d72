// Whether each record of a store has an identifier of its own.
#![tactic(auto)]

ghost use Rattle.std.specs.Prelude.{◌≡◌, ◌<◌, length};
ghost use Rattle.distinct.specs.Distinct.{Whole, is_distinct};

mod keys;
mod marks;
mod merging;
mod pairs;
mod runs;

use record_walk::Records;

// Of bytes that are whole records. Both tables are changed: they hold the places of a run of records, and are used again for the next; with larger ones there are
// fewer runs.
// Kept (5, 6): no heap: the caller lends both tables; a struct of the two would be made for this call, and anew for each run and half that is sorted.
pub fn is_distinct(bytes: &[u8], places: &mut [u32], scratch: &mut [u32]) -> bool
    requires whole { Whole bytes.now }
    requires room { 0 < length places.old }
    requires scratch_len { length scratch.old ≡ length places.old }
    ensures { result ≡ is_distinct bytes.now }
{
    if bytes.len() > u32::MAX as usize {
        return is_distinct_by_pairs(bytes);
    }
    runs::is_distinct_by_runs(bytes, places, scratch)
}

// The same without tables, which don't hold places past 4 GiB: each record is compared with all that come after it.
fn is_distinct_by_pairs(bytes: &[u8]) -> bool
    requires { Whole bytes.now }
    ensures { result ≡ is_distinct bytes.now }
{
    let mut records = Records::new(bytes);
    // Kept (3): what is left of the walk is lent to each turn, which a `for` would hold.
    while let Some(p) = records.next() {
        if !pairs::is_alone(bytes, p, records) {
            return false;
        }
    }
    true
}
