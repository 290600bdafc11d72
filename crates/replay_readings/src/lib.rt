// Made by `tools/face write` from crates/sip_dialog/src, not by hand.
// The recorded calls of `replay` that are lent nothing but numbers: a module for each source of `sip_dialog` that has some.
#![tactic(auto)]

mod blocks;
mod contests;
mod identifiers;
mod images;
mod prack;
mod timers;
mod uris;
mod values;

use limits::Settings;
use replay_lines::{Items, OUTS, low32};

// Calls the function of that name, if it is one of these: what it returns. `i` has its arguments in the order of the C declaration, `o` the numbers that it is lent
// as it leaves them.
pub fn call(name: &[u8], i: Items<'_>, o: &mut [u64; OUTS]) -> Option<u64> {
    blocks::call(name, i, o)
        .or_else(|| contests::call(name, i, o))
        .or_else(|| identifiers::call(name, i, o))
        .or_else(|| images::call(name, i, o))
        .or_else(|| prack::call(name, i, o))
        .or_else(|| timers::call(name, i, o))
        .or_else(|| uris::call(name, i, o))
        .or_else(|| values::call(name, i, o))
}

fn settings(i: Items<'_>, at: [usize; 5]) -> Settings {
    Settings {
        cseq_jump: low32(i.value(at[0])),
        pending: low32(i.value(at[1])),
        cleanup_seconds: low32(i.value(at[2])),
        timeout_seconds: low32(i.value(at[3])),
        early_cap: low32(i.value(at[4])),
    }
}
