// How the recorded list is read: parts of texts, the items of a line, and the rows at the list's head. Nothing here knows an operation.
// Kept (5): a line and the bytes that its items go into: those are `&mut`, so that a struct of both isn't Copy and would be made anew for each reading.
// Kept (1): a kind of item goes by the letter that the list's rows have for it, and a row by its place among them: both are read, not chosen.
#![tactic(auto)]

mod bytes;
mod items;
pub mod lent;
mod outs;
mod rows;
mod sizes;
mod texts;

pub use bytes::{copy_at, low8, low16, low32, part, write_digits};
pub use items::{Item, Items, read_items};
pub use outs::Number;
pub use rows::{Row, kinds_are, name_at, numbers_behind, place_of, row_at, row_of, shape_fits};
pub use sizes::{ITEMS, OUTS, ROWS};
