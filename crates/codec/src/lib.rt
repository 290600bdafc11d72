// Forms of bytes: texts with two length bytes and big-endian numbers, read and written at a place of lent bytes.
#![tactic(auto)]

mod reading;
mod writing;

pub use reading::{LENGTH_SIZE, read_eight, read_four, read_text, read_two, wide};
pub use writing::{write_byte, write_eight, write_four, write_text, write_two};
