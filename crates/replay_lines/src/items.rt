// The items of a line: numbers, texts, `[n]` for a store lent in n bytes, and `=` before the answer. At most `ITEMS`, a blank before each.
ghost use Rattle.std.specs.Prelude.{◌≡◌, [], IfNone, slice_get};
ghost use Rattle.std.specs.Option.{unwrap_or, option_map};

use crate::bytes::part;
use crate::sizes::ITEMS;
use crate::texts::{joined, read_number};

// An item: the letter of its kind, as a row's shape has it; its number, or a text's length; and where a text's bytes begin.
#[derive(Clone, Copy)]
pub struct Item {
    // Kept (1): the letter and the value, a text's length, are asked of items of every kind; an enum would need a match for each of the two.
    pub letter: u8,
    pub value: u64,
    pub start: usize,
}

impl Item {
    // What stands in the room for items before they are read.
    pub const NONE: Item = Item {
        letter: 0,
        value: 0,
        start: 0,
    };
}

// The items of a line, and the bytes of its texts.
#[derive(Clone, Copy)]
pub struct Items<'a> {
    pub bytes: &'a [u8],
    pub list: &'a [Item],
}

impl<'a> Items<'a> {
    // The bytes of the item k, which is a text; none where there is no such item.
    pub fn text(self, k: usize) -> &'a [u8]
        ensures { IfNone (slice_get self.entry.list.now k) (result.now ≡ []) }
    {
        self.list.get(k).map_or(
            &[],
            |item| part(self.bytes, item.start, item.value as usize),
        )
    }

    // The number k; 0 where there is none.
    pub fn value(self, k: usize) -> u64
        ensures { result ≡ unwrap_or (option_map (λ i. i.value) (slice_get self.entry.list.now k)) 0 }
    {
        self.list.get(k).map_or(0, |item| item.value)
    }
}

// An item that is read: where the bytes of the line end so far, and what of the line follows.
#[derive(Clone, Copy)]
struct Read<'a> {
    item: Item,
    end: usize,
    rest: &'a [u8],
}

// Reads the items of which a line's rest consists: how many; none where one of them can't be read.
// Kept (6): README's rule: no heap. So the caller lends the room for a line's items and for their bytes.
pub fn read_items(line: &[u8], bytes: &mut [u8], room: &mut [Item; ITEMS]) -> Option<usize> {
    let mut rest = line;
    let mut end = 0;
    for (k, place) in room.iter_mut().enumerate() {
        if rest.is_empty() {
            return Some(k);
        }
        let read = read_item(rest, bytes, end)?;
        *place = read.item;
        rest = read.rest;
        end = read.end;
    }
    rest.is_empty().then_some(ITEMS)
}

// An item that has no bytes.
fn without_bytes(letter: u8, value: u64, end: usize, rest: &[u8]) -> Read<'_> {
    let item = Item {
        letter,
        value,
        start: 0,
    };
    Read { item, end, rest }
}

// The item behind the blank with which a line begins, its bytes written from `to` on.
fn read_item<'a>(line: &'a [u8], bytes: &mut [u8], to: usize) -> Option<Read<'a>> {
    match line {
        [b' ', b'=', rest @ ..] => Some(without_bytes(b'=', 0, to, rest)),
        [b' ', b'[', rest @ ..] => lent(rest, to),
        [b' ', rest @ ..] => number_or_text(rest, bytes, to),
        _ => None,
    }
}

// The rest of `[n]`.
fn lent(line: &[u8], to: usize) -> Option<Read<'_>> {
    match read_number(line)? {
        (n, [b']', rest @ ..]) => Some(without_bytes(b's', n, to, rest)),
        _ => None,
    }
}

// A number, or a text: one that begins with a number has `*` behind it.
fn number_or_text<'a>(line: &'a [u8], bytes: &mut [u8], to: usize) -> Option<Read<'a>> {
    match read_number(line) {
        None | Some((_, [b'*', ..])) => read_text(line, bytes, to),
        Some((n, rest)) => Some(without_bytes(b'n', n, to, rest)),
    }
}

// A text, its bytes written from `to` on.
fn read_text<'a>(line: &'a [u8], bytes: &mut [u8], to: usize) -> Option<Read<'a>> {
    let (end, rest) = joined(line, bytes, to)?;
    let length = end.checked_sub(to)?;
    let item = Item {
        letter: b't',
        value: length as u64,
        start: to,
    };
    Some(Read { item, end, rest })
}
