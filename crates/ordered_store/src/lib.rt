// A store of entries: the order of texts, by which it keeps its keys (and by which `distinct` sorts the keys of records), how many entries there are, and where
// the one of a key stands.
#![tactic(auto)]

ghost use Rattle.std.specs.Prelude.{◌≡◌};
ghost use Rattle.ordered_store.specs.Order.{order};

use std::cmp::Ordering;

mod search;
mod walking;

pub use search::{Entry, KeyedBy, count_entries, find};

// By their bytes; a proper prefix comes first.
// Kept (3, 4, 5): the two texts are the two sides of the order. With `zip` here and `from_be_bytes` in record_walk a request at 1,000 records took 3,721
// instructions a record, with the latter alone 3,637, with neither 3,578; issue 19 gives 3,600. std's `cmp` takes 40 where the first bytes differ, this loop 25
// (PERFORMANCE).
pub fn compare(a: &[u8], b: &[u8]) -> Ordering
    ensures { result ≡ order a.now b.now }
{
    // Keys mostly differ in their first bytes.
    for i in 0..a.len().min(b.len()) {
        if a[i] != b[i] {
            return a[i].cmp(&b[i]);
        }
    }
    a.len().cmp(&b.len())
}
