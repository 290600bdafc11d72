// Marks of keys, three in a slot: a key whose mark isn't there was not marked. A fourth in a slot fills it, and a full slot has every mark.
ghost use Rattle.std.specs.Prelude.{◌≡◌, ◌+◌, ◌/◌, ◌%◌, ◌≤◌, ◌<◌, length};
ghost use Rattle.record_walk.specs.Walk.{At};
ghost use Rattle.distinct.specs.Keys.{key_at};
ghost use Rattle.distinct.specs.Marks.{Kept, Marked, MarkOr, StandsOr, eight_at, head_of};
ghost use Rattle.distinct.specs.Sorting.{EachAt};

use codec::wide;
use record_walk::ids_end;

const FULL: u32 = u32::MAX;

// The marks of the keys of a run, in place of what the slots had.
// Kept (5): the run is a part of the table that `is_distinct` is lent, where its reason stands.
pub fn mark_all(bytes: &[u8], run: &[u32], marks: &mut [u32])
    requires each_at { EachAt bytes.now run.now }
    requires room { length marks.old ≡ length run.now }
    ensures { Marked bytes.now marks.new run.now }
{
    marks.fill(0);
    for i in 0..run.len() {
        let h = head(bytes, run[i] as usize);
        let slot = h % marks.len();
        marks[slot] = with_mark(marks[slot], print(h, marks.len()));
    }
}

// Whether the mark of the key of the record at `q` stands. Keys of another mark are other keys.
pub fn is_marked(bytes: &[u8], marks: &[u32], q: usize) -> bool
    requires at { At bytes.now q }
    requires room { 0 < length marks.now }
    ensures { StandsOr result marks.now (key_at bytes.now q) }
{
    let h = head(bytes, q);
    has_mark(marks[h % marks.len()], print(h, marks.len()))
}

// A number by which most keys differ: of the first eight bytes of its first text and of its last eight bytes.
// Kept (5): a place is a bare number of a table or a walk.
fn head(bytes: &[u8], p: usize) -> usize
    requires { At bytes.now p }
    ensures { result ≡ head_of (key_at bytes.now p) }
{
    let end = ids_end(bytes, p);
    if end - p < 12 {
        return 0;
    }
    eight(bytes, p + 4) % 1000000007 + eight(bytes, end - 8) % 1000000007
}

// Eight bytes as one number.
// Kept (4, 5): written so, it is one load; `codec::read_eight` copies the bytes first. A reader of bytes and place would be made anew for each number.
fn eight(bytes: &[u8], at: usize) -> usize
    requires { at + 8 ≤ length bytes.now }
    ensures { result ≡ eight_at bytes.now at }
{
    wide(bytes[at])
        + 256
            * (wide(bytes[at + 1])
                + 256
                    * (wide(bytes[at + 2])
                        + 256
                            * (wide(bytes[at + 3])
                                + 256
                                    * (wide(bytes[at + 4])
                                        + 256
                                            * (wide(bytes[at + 5])
                                                + 256
                                                    * (wide(bytes[at + 6])
                                                        + 256 * wide(bytes[at + 7])))))))
}

// The mark of a key whose slot is one of so many: 1 to 1,023.
fn print(h: usize, slots: usize) -> u32
    requires { 0 < slots }
    ensures { result ≡ h / slots % 1023 + 1 }
{
    (h / slots % 1023 + 1) as u32
}

// A slot with one more mark.
fn with_mark(slot: u32, mark: u32) -> u32
    requires { (1 ≤ mark) × (mark < 1024) }
    ensures { Kept slot mark result }
{
    if slot == 0 {
        return mark;
    }
    if slot < 1024 {
        return slot + 1024 * mark;
    }
    if slot < 1048576 {
        return slot + 1048576 * mark;
    }
    FULL
}

// Whether a slot has a mark, or is full.
fn has_mark(slot: u32, mark: u32) -> bool
    ensures { MarkOr result slot mark }
{
    slot == FULL || slot % 1024 == mark || slot / 1024 % 1024 == mark || slot / 1048576 == mark
}
