// Places sorted by the keys of their records, from small runs to large. Where two equal keys meet, the sort ends.
ghost use Rattle.std.specs.Prelude.{◌≡◌, ◌+◌, ◌≤◌, length};
ghost use Rattle.distinct.specs.Sorting.{EachAt, Runs, SortedOr, put};

use crate::keys::compare;
use std::cmp::Ordering;

// `places` in the order of their keys; or `false`, if two keys are equal.
// Kept (4): std's `sort_unstable_by` would need no scratch, but asks for a closure that may be called with any two numbers; `compare` may be with places of
// records alone, and the proof of that call does not close (tried).
// Kept (5, 6): no heap: the caller lends the table of places and one as long to merge into; a struct of the two would be made anew for each half.
pub fn sort(bytes: &[u8], places: &mut [u32], scratch: &mut [u32]) -> bool
    requires each_at { EachAt bytes.now places.old }
    requires scratch_len { length scratch.old ≡ length places.old }
    ensures { SortedOr result bytes.now places.old places.new }
{
    let n = places.len();
    if n < 2 {
        return true;
    }
    let mid = n / 2;
    sort(bytes, &mut places[..mid], &mut scratch[..mid])
        && sort(bytes, &mut places[mid..], &mut scratch[mid..])
        && join(bytes, places, mid, scratch)
}

// Two ascending runs, the places before `mid` and the others, as one; or `false`, if two keys are equal.
// Kept (5, 6): as for `sort`, and where its second half begins.
fn join(bytes: &[u8], places: &mut [u32], mid: usize, scratch: &mut [u32]) -> bool
    requires { Runs bytes.now places.old mid scratch.old }
    ensures { SortedOr result bytes.now places.old places.new }
{
    if !merge(bytes, places, mid, scratch) {
        return false;
    }
    copy_at(places, 0, scratch);
    true
}

// The same, with the one run in `out`.
// Kept (5, 6): as for `join`: here the places are read and `out` is written.
fn merge(bytes: &[u8], places: &[u32], mid: usize, out: &mut [u32]) -> bool
    requires { Runs bytes.now places.now mid out.old }
    ensures { SortedOr result bytes.now places.now out.new }
{
    let mut i = 0;
    let mut j = mid;
    // Kept (3): a merge: the comparison says which of the two runs goes on.
    while i < mid && j < places.len() {
        let p = places[i];
        let q = places[j];
        let k = i + (j - mid);
        let way = compare(bytes, p as usize, q as usize);
        match way {
            Ordering::Less => {
                out[k] = p;
                i += 1;
            }
            Ordering::Greater => {
                out[k] = q;
                j += 1;
            }
            Ordering::Equal => return false,
        }
    }
    copy_at(out, i + (j - mid), &places[i..mid]);
    copy_at(out, j, &places[j..]);
    true
}

// `piece` over the places from `at` on.
// Kept (4): a request at 1,000 records took 3,904 instructions for each with this by `copy_from_slice` and two more forms of std's, 3,592 with the three
// loops; its bar is 3,600 (PERFORMANCE; this one was not measured alone). `out[at..].iter_mut().zip(piece)` does not close: after an adapter of `iter_mut` a proof knows how long `out` is, and not
// its elements.
fn copy_at(out: &mut [u32], at: usize, piece: &[u32])
    requires { at + length piece.now ≤ length out.old }
    ensures { out.new ≡ put out.old at piece.now }
{
    for (k, p) in piece.iter().enumerate() {
        out[at + k] = *p;
    }
}
