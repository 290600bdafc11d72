// Lines of the listing: columns with a space between them, and a line feed at the end.
#![tactic(auto)]

ghost use Rattle.std.specs.Prelude.{◌≡◌, ◌++◌, ◌∷◌, [], ◌+◌, ◌≤◌, length};
ghost use Rattle.edit.specs.Edit.{over, put_at};
ghost use Rattle.output.specs.Decimal.{decimal_of};
ghost use Rattle.record.specs.NumbersForm.{meaning, state_in, number_in};
ghost use Rattle.listing_lines.specs.Listing.{state_letter, side_text, or_dash, refresh_second, columns_of, line_of};
ghost use Rattle.listing_lines.specs.Steps.{head_part, sequence_part, interval_part};

use edit::put;
use record::{Numbers, State};

// The line of a record at a position, over the front of out. Its length.
// Kept (5): any lent bytes that have room will do; `&mut [u8; 192]` would ask more of callers.
pub fn write_line(
    out: &mut [u8],
    position: usize,
    numbers: Numbers,
    we_are_uac: bool,
    routes: usize,
) -> usize
    requires { 192 ≤ length out.old }
    ensures value { result ≡ length (line_of (columns_of position (meaning numbers) we_are_uac routes)) }
    ensures upper_bound { result ≤ 192 }
    ensures out_after { out.new ≡ over (line_of (columns_of position (meaning numbers) we_are_uac routes)) out.old }
{
    let state = numbers.state;
    let last_ack = numbers.last_ack;
    let seconds = numbers.seconds;
    let a = write_head(out, 0, position, state, we_are_uac);
    let b = write_sequence(out, a, numbers.local, numbers.remote, last_ack);
    write_interval(out, b, seconds, routes)
}

// A word and a number, over the front of out. The line's length.
// Kept (5): any lent bytes that have room will do; `&mut [u8; 192]` would ask more of callers.
pub fn write_words(out: &mut [u8], word: &[u8], n: u64) -> usize
    requires { (length word.now ≤ 16) × (192 ≤ length out.old) }
    ensures value { result ≡ length (line_of (word.now ∷ decimal_of n ∷ [])) }
    ensures upper_bound { result ≤ 192 }
    ensures out_after { out.new ≡ over (line_of (word.now ∷ decimal_of n ∷ [])) out.old }
{
    let a = write_text(out, 0, word, b' ');
    write_number(out, a, n, b'\n')
}

// Position, state, side.
// Kept (5): a writer of bytes and place needs a clause about its reference in each function that is lent it,
// beside those about bytes and place: three where two stand.
fn write_head(out: &mut [u8], at: usize, position: usize, state: State, we_are_uac: bool) -> usize
    requires { at + 27 ≤ length out.old }
    ensures value { (result ≡ at + length (head_part position (state_in state) we_are_uac)) × (result ≤ at + 27) }
    ensures out_after { out.new ≡ put_at at (head_part position (state_in state) we_are_uac) out.old }
{
    let a = write_number(out, at, position as u64, b' ');
    let b = write_state(out, a, state);
    write_side(out, b, we_are_uac)
}

// Local, remote, last ACK.
// Kept (5): a writer of bytes and place needs a clause about its reference in each function that is lent it,
// beside those about bytes and place: three where two stand.
fn write_sequence(
    out: &mut [u8],
    at: usize,
    local: u32,
    remote: u32,
    last_ack: Option<u32>,
) -> usize
    requires { at + 63 ≤ length out.old }
    ensures value { (result ≡ at + length (sequence_part local remote (number_in last_ack))) × (result ≤ at + 63) }
    ensures out_after { out.new ≡ put_at at (sequence_part local remote (number_in last_ack)) out.old }
{
    let a = write_number(out, at, local as u64, b' ');
    let b = write_number(out, a, remote as u64, b' ');
    write_optional(out, b, last_ack)
}

// Seconds, refresh second, route count.
// Kept (5): a writer of bytes and place needs a clause about its reference in each function that is lent it,
// beside those about bytes and place: three where two stand.
fn write_interval(out: &mut [u8], at: usize, seconds: Option<u32>, routes: usize) -> usize
    requires { at + 63 ≤ length out.old }
    ensures value { (result ≡ at + length (interval_part (number_in seconds) routes)) × (result ≤ at + 63) }
    ensures out_after { out.new ≡ put_at at (interval_part (number_in seconds) routes) out.old }
{
    let half = refresh_second(seconds);
    let a = write_optional(out, at, seconds);
    let b = write_optional(out, a, half);
    write_number(out, b, routes as u64, b'\n')
}

// E, C, T.
// Kept (5): a writer of bytes and place needs a clause about its reference in each function that is lent it,
// beside those about bytes and place: three where two stand.
// Kept (4, 7): of `write!` into lent bytes no clause says what they get, as for `write_number`; the state picks a letter of the line, and no step.
fn write_state(out: &mut [u8], at: usize, state: State) -> usize
    requires { at + 2 ≤ length out.old }
    ensures value { (result ≡ at + length (state_letter (state_in state) ++ (32 ∷ []))) × (result ≤ at + 2) }
    ensures out_after { out.new ≡ put_at at (state_letter (state_in state) ++ (32 ∷ [])) out.old }
{
    let letter = match state {
        State::Early => b"E",
        State::Confirmed => b"C",
        State::Terminated => b"T",
    };
    write_text(out, at, letter, b' ')
}

// uac, uas.
// Kept (5): a writer of bytes and place needs a clause about its reference in each function that is lent it,
// beside those about bytes and place: three where two stand.
// Kept (7): which side we are is a bit of the record; it picks a word of the line, and no step.
fn write_side(out: &mut [u8], at: usize, we_are_uac: bool) -> usize
    requires { at + 4 ≤ length out.old }
    ensures value { (result ≡ at + length (side_text we_are_uac ++ (32 ∷ []))) × (result ≤ at + 4) }
    ensures out_after { out.new ≡ put_at at (side_text we_are_uac ++ (32 ∷ [])) out.old }
{
    let word = if we_are_uac { b"uac" } else { b"uas" };
    write_text(out, at, word, b' ')
}

// A number, or `-` where it is absent.
// Kept (4, 5): a writer would need a clause more, as for `write_head`; a number and the dash are written by two functions.
fn write_optional(out: &mut [u8], at: usize, n: Option<u32>) -> usize
    requires { at + 21 ≤ length out.old }
    ensures value { (result ≡ at + length (or_dash (number_in n) ++ (32 ∷ []))) × (result ≤ at + 21) }
    ensures out_after { out.new ≡ put_at at (or_dash (number_in n) ++ (32 ∷ [])) out.old }
{
    match n {
        Some(k) => write_number(out, at, k as u64, b' '),
        None => write_text(out, at, b"-", b' '),
    }
}

// Half of the seconds, to the nearest whole second; of two that are as near, the even one.
fn refresh_second(seconds: Option<u32>) -> Option<u32>
    ensures { number_in result ≡ refresh_second (number_in seconds) }
{
    seconds.map(|n| n / 2 + n % 4 / 3)
}

// A number in decimal, and the byte after it.
// Kept (5): a writer of bytes and place needs a clause about its reference in each function that is lent it,
// beside those about bytes and place: three where two stand.
pub fn write_number(out: &mut [u8], at: usize, n: u64, after: u8) -> usize
    requires { at + 21 ≤ length out.old }
    ensures value { (result ≡ at + length (decimal_of n ++ (after ∷ []))) × (result ≤ at + 21) }
    ensures out_after { out.new ≡ put_at at (decimal_of n ++ (after ∷ [])) out.old }
{
    // Kept (4): of `write!` into lent bytes no clause says what they get (`&mut [u8]` has no `contents`); `io::decimal` says each digit.
    // Kept (6): no heap: a number's digits go into an array, and `io::decimal` says how many they are.
    let mut digits = [0u8; 20];
    let k = io::decimal(n, &mut digits);
    write_text(out, at, &digits[..k], after)
}

// A text, and the byte after it. The place after both.
// Kept (5): a writer of bytes and place needs a clause about its reference in each function that is lent it,
// beside those about bytes and place: three where two stand.
pub fn write_text(out: &mut [u8], at: usize, piece: &[u8], after: u8) -> usize
    requires { at + length piece.now + 1 ≤ length out.old }
    ensures value { result ≡ at + length piece.now + 1 }
    ensures out_after { out.new ≡ put_at at (piece.now ++ (after ∷ [])) out.old }
{
    put(out, at, piece);
    let end = at + piece.len();
    put(out, end, &[after]);
    end + 1
}
