// The stores in data/, in the order of the arguments: a line with the name of each, then what `listing` prints of it.
// The stores and what is to be printed are made by tests/stores.py.
#![tactic(auto)]

use listing_output::{print, print_listing, read_full, report};
use std::io::Read;
use std::rt::Files;
use std::{env, fs, io};

fn main(rt: HostRuntime) -> io::Result<()> {
    for path in env::args(&rt)?.skip(1) {
        list_file(&rt, path.as_str());
    }
    Ok(())
}

// The file at a path.
fn list_file(rt: &(impl Files + Print + Eprint), path: &str) {
    match fs::open(rt, path) {
        Ok(file) => {
            print(rt, path.as_bytes());
            print(rt, b"\n");
            list_opened(rt, path, file);
        }
        Err(error) => report(rt, path, error),
    }
}

fn list_opened(rt: &(impl Print + Eprint), path: &str, mut file: impl Read + Drop) {
    // One byte more than a listed store may have, as in `listing`.
    // Kept (6): README's rule: no heap. So the file goes into an array, and the reading says how many bytes there are.
    let mut store = [0u8; 65537];
    match read_full(&mut file, &mut store) {
        Ok(n) => print_listing(rt, &store[..n]),
        Err(error) => report(rt, path, error),
    }
}
