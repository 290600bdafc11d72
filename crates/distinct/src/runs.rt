// The records in runs of as many as a table holds: no key stands twice in a run, and none of its keys stands after it.
ghost use Rattle.std.specs.Prelude.{◌≡◌, ◌≤◌, ◌<◌, length};
ghost use Rattle.record_walk.specs.Walk.{At};
ghost use Rattle.distinct.specs.Distinct.{Whole, is_distinct};
ghost use Rattle.distinct.specs.Marks.{Marked};
ghost use Rattle.distinct.specs.Pairs.{WholeFrom};
ghost use Rattle.distinct.specs.Runs.{AloneOr, AmongOr, ApartOr, Gathered, Sought};
ghost use Rattle.distinct.specs.Sorting.{EachAt};

use crate::keys::compare;
use crate::marks::{is_marked, mark_all};
use crate::merging::sort;
use record_walk::record_end;
use std::cmp::Ordering;

// How many records the run in the table has, and the place past them.
#[derive(Clone, Copy)]
struct Run {
    pub count: usize,
    pub end: usize,
}

// Each run is sorted in the table, which is then searched for the keys of the records after it: once for each of them.
// Kept (5, 6): as for `is_distinct`, which hands both tables on.
pub fn is_distinct_by_runs(bytes: &[u8], places: &mut [u32], scratch: &mut [u32]) -> bool
    requires whole { Whole bytes.now }
    requires room { 0 < length places.old }
    requires scratch_len { length scratch.old ≡ length places.old }
    requires in_reach { length bytes.now ≤ 4294967295 }
    ensures { result ≡ is_distinct bytes.now }
{
    let mut at = 0;
    // Kept (3): each run begins where the one before ended.
    while at < bytes.len() {
        let run = gather(bytes, at, places);
        if !is_alone(
            bytes,
            &mut places[..run.count],
            &mut scratch[..run.count],
            run.end,
        ) {
            return false;
        }
        at = run.end;
    }
    true
}

// The places of the records from `from` on, as many as the table holds.
fn gather(bytes: &[u8], from: usize, places: &mut [u32]) -> Run
    requires whole { WholeFrom bytes.now from }
    requires more { from < length bytes.now }
    requires room { 0 < length places.old }
    requires in_reach { length bytes.now ≤ 4294967295 }
    ensures { Gathered bytes.now from places.new result }
{
    let mut count = 0;
    let mut at = from;
    // Kept (3): the walk ends with the bytes or with the table, and the place where it ends is answered.
    while count < places.len() && at < bytes.len() {
        places[count] = at as u32;
        count += 1;
        at = record_end(bytes, at);
    }
    Run { count, end: at }
}

// No key stands twice in a run, and none of its keys in the records from `end` on. The run is sorted; in its scratch are marks then.
fn is_alone(bytes: &[u8], run: &mut [u32], scratch: &mut [u32], end: usize) -> bool
    requires each_at { EachAt bytes.now run.old }
    requires scratch_len { length scratch.old ≡ length run.old }
    requires room { 0 < length run.old }
    requires whole { WholeFrom bytes.now end }
    ensures { AloneOr result bytes.now run.old end }
{
    if !sort(bytes, run, scratch) {
        return false;
    }
    if bytes.len() <= end {
        return true;
    }
    mark_all(bytes, run, scratch);
    is_apart(bytes, run, scratch, end)
}

// None of the records from `from` on has a key of the sorted run. One whose mark isn't there is not searched for.
// Kept (5): the run and its marks are parts of the tables that `is_distinct` is lent, where its reason stands.
fn is_apart(bytes: &[u8], run: &[u32], marks: &[u32], from: usize) -> bool
    requires sought { Sought bytes.now run.now }
    requires marked { Marked bytes.now marks.now run.now }
    requires room { 0 < length marks.now }
    requires whole { WholeFrom bytes.now from }
    ensures { ApartOr result bytes.now run.now from }
{
    let mut q = from;
    // Kept (3): the walk begins behind the run; `Records` begins at the front of its bytes.
    while q < bytes.len() {
        if is_marked(bytes, marks, q) && is_among(bytes, run, q) {
            return false;
        }
        q = record_end(bytes, q);
    }
    true
}

// The key of the record at `q` is one of the sorted run's: by halves.
// Kept (5): the run is a part of the table that `is_distinct` is lent; `q` is a place of the walk.
// Kept (4): std's `binary_search_by` asks for a closure that may be called with any number; `compare` may be with places of records alone.
fn is_among(bytes: &[u8], run: &[u32], q: usize) -> bool
    requires sought { Sought bytes.now run.now }
    requires at { At bytes.now q }
    ensures { AmongOr result bytes.now run.now q }
{
    let mut low = 0;
    let mut high = run.len();
    // Kept (3): the two ends of what is left to be searched.
    while low < high {
        let mid = low + (high - low) / 2;
        match compare(bytes, run[mid] as usize, q) {
            Ordering::Less => low = mid + 1,
            Ordering::Greater => high = mid,
            Ordering::Equal => return true,
        }
    }
    false
}
