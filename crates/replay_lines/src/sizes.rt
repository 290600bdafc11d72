// Made by `tools/face write` from crates/sip_dialog/src, not by hand.
// How large the list is in its parts.

// Its rows: one for each C function.
pub const ROWS: usize = 84;
// The items of a line, at most.
pub const ITEMS: usize = 22;
// The numbers that a call is lent, at most.
pub const OUTS: usize = 8;
