// The listing of a store, written to standard output: what `listing` and `listings` print.
#![tactic(auto)]

ghost use Rattle.std.specs.Prelude.{◌≡◌, ◌≢◌, ◌≤◌, IfOk, length, Err};
ghost use Rattle.limits.specs.Limits.{rust_limits};
ghost use Rattle.limits.specs.declared.Refusal.TheVariants.{NoRoom};
ghost use Rattle.output.specs.Output.{written_from};
ghost use Rattle.listing_lines.specs.Listing.{listing};

use limits::Refusal;
use std::io;
use std::io::{Read, Write};

// A line for each record of a store and their number, or `refused` and its number.
pub fn print_listing(rt: &(impl Print + Eprint), store: &[u8]) {
    // Kept (6): README's rule: no heap. The text goes into an array, and what fills it says how long it is.
    let mut text = [0u8; 131072];
    match list_any(store, &mut text) {
        Ok(n) => print(rt, &text[..n]),
        Err(cause) => print_refused(rt, cause),
    }
}

// The listing of a store over the front of out, which has room for that of any store: 1 over 65,536 bytes, 3, and never 18.
fn list_any(store: &[u8], out: &mut [u8]) -> Result<usize, Refusal>
    requires { 131072 ≤ length out.old }
    ensures value { result ≡ written_from (listing rust_limits store.now (length out.old)) }
    ensures result_nonzero { result ≢ Err NoRoom }
{
    listing_text::list_store(store, out)
}

// `refused` and the number, which isn't 18.
fn print_refused(rt: &(impl Print + Eprint), cause: Refusal)
    requires { cause ≢ NoRoom }
{
    // Kept (6): README's rule: no heap. The text goes into an array, and what fills it says how long it is.
    let mut text = [0u8; 192];
    let n = listing_text::write_refused(&mut text, cause);
    print(rt, &text[..n]);
}

// Reads to the end, or until the bytes are full: how many there are. A read that fails is not taken for the end.
pub fn read_full(input: &mut impl Read, bytes: &mut [u8]) -> io::Result<usize>
    ensures { IfOk result (λ n. n ≤ length bytes.new) }
{
    let mut rest: &mut [u8] = bytes;
    io::copy(&mut input.take(rest.len() as u64), &mut rest)?;
    let left = rest.len();
    Ok(bytes.len().saturating_sub(left))
}

// A text as it is. Where it can't be written, standard error says so.
pub fn print(rt: &(impl Print + Eprint), text: &[u8]) {
    if let Err(error) = rt.write_all(text) {
        report(rt, "standard output", error);
    }
}

// A line on standard error: what failed, and why, as the system words it.
pub fn report(rt: &impl Eprint, what: &str, error: io::Error) {
    // Kept (6): README's rule: no heap. The text goes into an array, and what is left of its room says how long it is.
    let mut text = [0u8; 320];
    let mut rest: &mut [u8] = &mut text;
    let _ = write!(rest, "{error}");
    let left = rest.len();
    let n = text.len().saturating_sub(left);
    let why = words(&text[..n]);
    let _ = eprintln!(rt; "{what}: {why}");
}

// What the system says, without the error's number.
fn words(text: &[u8]) -> &str {
    let text = str::from_utf8(text).unwrap_or("");
    text.split_once(" (os error ")
        .map_or(text, |(words, _number)| words)
}
