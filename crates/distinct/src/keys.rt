// The key of a record: which of the three texts of its identifier stand, then the bytes of those texts with their lengths.
// Two records have one identifier exactly if they have one key.
ghost use Rattle.std.specs.Prelude.{◌≡◌, get_or};
ghost use Rattle.ordered_store.specs.Order.{order};
ghost use Rattle.record_walk.specs.Walk.{At};
ghost use Rattle.distinct.specs.Keys.{key_at};

use codec::LENGTH_SIZE;
use record_walk::{ids_end, two};
use std::cmp::Ordering;

// How the key of the record at one place stands to that at another.
// Kept (5): the places are bare numbers of a table (`merge`) or a walk (`is_alone`); a struct of bytes and place with `At` as its ghost field would be made
// twice for each comparison, and taken apart in it.
// Kept (4): by `cmp` and `then_with` two numbers, then two others, take 14 instructions, by tests 10 (PERFORMANCE). A sort of 1,000 records compares 8,929 times:
// 36 instructions more for each.
pub fn compare(bytes: &[u8], p: usize, q: usize) -> Ordering
    requires { At bytes.now p × At bytes.now q }
    ensures { result ≡ order (key_at bytes.now p) (key_at bytes.now q) }
{
    let p_flags = flags(bytes, p);
    let q_flags = flags(bytes, q);
    if p_flags < q_flags {
        return Ordering::Less;
    }
    if q_flags < p_flags {
        return Ordering::Greater;
    }
    compare_texts(bytes, p, q, p_flags)
}

// The same, where the flags are the same: mostly the Call-IDs decide, before it is known where the tags end.
// Kept (4, 5): as for `compare`; with the Call-IDs first a comparison takes 58 instructions, where it took 91 by both whole identifiers (PERFORMANCE).
fn compare_texts(bytes: &[u8], p: usize, q: usize, flags: usize) -> Ordering
    requires at { At bytes.now p × At bytes.now q }
    requires flags { (flags ≡ get_or (key_at bytes.now p) 0 0) × (flags ≡ get_or (key_at bytes.now q) 0 0) }
    ensures { result ≡ order (key_at bytes.now p) (key_at bytes.now q) }
{
    let a = p + 2;
    let b = q + 2;
    if flags % 2 == 1 {
        let n = two(bytes, a);
        if two(bytes, b) == n {
            let way = ordered_store::compare(
                &bytes[a..a + LENGTH_SIZE + n],
                &bytes[b..b + LENGTH_SIZE + n],
            );
            if way.is_ne() {
                return way;
            }
        }
    }
    let a_end = ids_end(bytes, p);
    let b_end = ids_end(bytes, q);
    ordered_store::compare(&bytes[a..a_end], &bytes[b..b_end])
}

// Which texts of the identifier stand: bits 0 to 2 of the map.
// Kept (5): a place is a number that clauses name, and that a table or a walk holds.
fn flags(bytes: &[u8], p: usize) -> usize
    requires { At bytes.now p }
    ensures { result ≡ get_or (key_at bytes.now p) 0 0 }
{
    two(bytes, p) % 8
}
