// The handover listing (document 01): reads a store from standard input and prints a line per record, or `refused` and the number.
#![tactic(auto)]

use listing_output::{print_listing, read_full, report};

fn main(rt: HostRuntime) {
    // One byte more than a listed store may have, so that a longer input is seen to be longer.
    // Kept (6): README's rule: no heap. So the input goes into an array, and the reading says how many bytes there are.
    let mut store = [0u8; 65537];
    list_input(&rt, &mut store);
}

// Reads the input to its end, or as far as bytes go, and prints its listing.
fn list_input(rt: &(impl Input + Print + Eprint), bytes: &mut [u8]) {
    match read_full(&mut rt.reader(), bytes) {
        Ok(n) => print_listing(rt, &bytes[..n]),
        Err(error) => report(rt, "standard input", error),
    }
}
