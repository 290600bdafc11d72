// The rows at the head of the list: an operation's name, a blank, and the letters of its items. Its number is its place among the rows.
ghost use Rattle.std.specs.Prelude.{◌≡◌, ◌==◌, ◌||◌, Some, IfSome, true, length, slice_get};
ghost use Rattle.std.specs.List.{slice_split};
ghost use Rattle.std.specs.Option.{option_map, option_and_then};

use crate::items::{Item, Items};
use crate::sizes::ROWS;

#[derive(Clone, Copy)]
pub struct Row<'a> {
    pub name: &'a [u8],
    pub shape: &'a [u8],
}

fn read_row(line: &[u8]) -> Option<Row<'_>>
    ensures name { IfSome result (λ r. slice_get (slice_split (λ b. b == 32) line.now) 0 ≡ Some r.name.now) }
    ensures shape { IfSome result (λ r. slice_get (slice_split (λ b. b == 32) line.now) 1 ≡ Some r.shape.now) }
{
    let name = nth_part(line, b' ', 0)?;
    let shape = nth_part(line, b' ', 1)?;
    Some(Row { name, shape })
}

// The row of a number.
pub fn row_at(head: &[u8], number: usize) -> Option<Row<'_>>
    ensures name { IfSome result (λ r. IfSome (slice_get (slice_split (λ b. b == 10) head.now) number) (λ line. slice_get (slice_split (λ b. b == 32) line) 0 ≡ Some r.name.now)) }
    ensures shape { IfSome result (λ r. IfSome (slice_get (slice_split (λ b. b == 10) head.now) number) (λ line. slice_get (slice_split (λ b. b == 32) line) 1 ≡ Some r.shape.now)) }
{
    read_row(nth_part(head, b'\n', number)?)
}

// Of the parts that a byte separates, the one of index k.
fn nth_part(s: &[u8], separator: u8, k: usize) -> Option<&[u8]>
    ensures { option_map (λ p. p.now) result ≡ slice_get (slice_split (λ b. b == separator) s.now) k }
{
    s.split(|b| *b == separator).nth(k)
}

// The name of the row of a number, whatever follows it.
pub fn name_at(head: &[u8], number: usize) -> Option<&[u8]>
    ensures { option_map (λ n. n.now) result ≡ option_and_then (λ line. slice_get (slice_split (λ b. b == 32) line) 0) (slice_get (slice_split (λ b. b == 10) head.now) number) }
{
    nth_part(nth_part(head, b'\n', number)?, b' ', 0)
}

// Of the words that blanks and line ends separate, the one of index k.
fn nth_word(s: &[u8], k: usize) -> Option<&[u8]>
    ensures { option_map (λ p. p.now) result ≡ slice_get (slice_split (λ b. b == 32 || b == 10) s.now) k }
{
    s.split(|b| *b == b' ' || *b == b'\n').nth(k)
}

// The row of a name, and its number. The head has the end of each of its lines; a row's shape is the word behind its name, wherever that stands.
pub fn row_of<'a>(head: &'a [u8], name: &[u8]) -> Option<(usize, Row<'a>)>
    ensures { IfSome result (λ p. p.1.name.now ≡ name.now) }
{
    let mut rest = head;
    for number in 0..ROWS {
        let first = nth_word(rest, 0)?;
        if first == name {
            let shape = nth_word(rest, 1)?;
            return Some((number, Row { name: first, shape }));
        }
        let end = rest.iter().position(|&b| b == b'\n')?;
        rest = rest.get(end + 1..)?;
    }
    None
}

// Whether a line's items are of the kinds of a row's shape, `o` for a text that is lent to be written; a store's change may follow them.
pub fn shape_fits(shape: &[u8], items: Items<'_>) -> bool {
    let Some((own, more)) = items.list.split_at_checked(shape.len()) else {
        return false;
    };
    let fits = own.iter().zip(shape).all(|(item, &b)| item.letter == b
        || (item.letter == b't' && b == b'o'));
    fits && (more.is_empty() || kinds_are(more, b"nnt"))
}

// Whether items are of those kinds.
pub fn kinds_are(list: &[Item], kinds: &[u8]) -> bool
    ensures { result ≡ true → length list.now ≡ length kinds.now }
{
    list.len() == kinds.len() && list.iter().zip(kinds).all(|(item, &b)| item.letter == b)
}

// Where a kind first stands in a shape.
pub fn place_of(shape: &[u8], letter: u8) -> Option<usize> {
    shape.iter().position(|&b| b == letter)
}

// How many numbers stand in a shape behind a place.
pub fn numbers_behind(shape: &[u8], place: usize) -> usize {
    shape.iter().skip(place).filter(|b| **b == b'n').count()
}
