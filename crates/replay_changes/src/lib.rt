// Made by `tools/face write` from crates/sip_dialog/src, not by hand.
// The recorded calls of `replay` that are lent bytes to write, texts, images and stores: a module for each source of `sip_dialog` that has some.
#![tactic(auto)]

mod creation;
mod images;
mod prack;
mod prack_lists;
mod rseq;
mod store_readings;
mod stores;
mod verdicts;

use limits::Settings;
use replay_lines::{Items, OUTS, low32};

// Calls the function of that name, if it is one of these: what it returns. `i` has its arguments in the order of the C declaration, `o` the numbers that it is lent
// as it leaves them.
pub fn call(
    name: &[u8],
    i: Items<'_>,
    store: &mut [u8],
    out: &mut [u8],
    o: &mut [u64; OUTS],
) -> Option<u64> {
    creation::call(name, i, out, o)
        .or_else(|| images::call(name, i, out, o))
        .or_else(|| prack::call(name, i, out, o))
        .or_else(|| prack_lists::call(name, i, store, out, o))
        .or_else(|| rseq::call(name, i, store, o))
        .or_else(|| store_readings::call(name, i, store, out, o))
        .or_else(|| stores::call(name, i, store, o))
        .or_else(|| verdicts::call(name, i, store, o))
}

fn settings(i: Items<'_>, at: [usize; 5]) -> Settings {
    Settings {
        cseq_jump: low32(i.value(at[0])),
        pending: low32(i.value(at[1])),
        cleanup_seconds: low32(i.value(at[2])),
        timeout_seconds: low32(i.value(at[3])),
        early_cap: low32(i.value(at[4])),
    }
}
