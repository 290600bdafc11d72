// The methods that the Rust's `parse_method` knows, numbered in its order from 1.
#![tactic(auto)]

ghost use Rattle.std.specs.Prelude.{◌≡◌, ◌≤◌, length};
ghost use Rattle.limits.specs.Limits.{rust_limits};
ghost use Rattle.output.specs.Output.{leaves, written_from};
ghost use Rattle.methods.specs.Methods.{method_of, is_method, name_of, method_number, method_text, method_from, method_lookup};

use limits::Refusal;

// The names in the order of their numbers.
// Kept (1): a method goes by its number, as C has it; an enum would list the fourteen as variants, in `TryFrom` and in `name`, this table once.
const NAMES: [&[u8]; 14] = [
    b"INVITE",
    b"ACK",
    b"BYE",
    b"CANCEL",
    b"REGISTER",
    b"OPTIONS",
    b"INFO",
    b"UPDATE",
    b"MESSAGE",
    b"PRACK",
    b"REFER",
    b"SUBSCRIBE",
    b"NOTIFY",
    b"PUBLISH",
];

// The number of a method's text, letter case ignored, or nothing: 1.
// Kept (2): a check and a reading, each named once; a function over both would be lent two closures and say no more than these lines.
pub fn method_number(s: &[u8]) -> Result<Option<u8>, Refusal>
    ensures { result ≡ method_lookup (method_number rust_limits s.now) }
{
    text::check_length(s)?;
    Ok(method_of(s))
}

// The name of a method's number at the front of out: 28, 18.
// Kept (1): a C caller gives a method by its number, and 28 answers any that is none.
pub fn method_text(number: u8, out: &mut [u8]) -> Result<usize, Refusal>
    ensures value { result ≡ written_from (method_text number (length out.old)) }
    ensures out_after { out.new ≡ leaves (method_text number (length out.old)) out.old }
{
    if !is_method(number) {
        return Err(Refusal::InvalidMethod);
    }
    let name = name_of(number);
    output::put(name, out)
}

// The number of a method's text.
pub fn method_of(s: &[u8]) -> Option<u8>
    ensures { result ≡ method_from (method_of s.now) }
{
    NAMES
        .iter()
        .position(|name| text::same_text(s, name))
        .map(|place| (place + 1) as u8)
}

// Whether a number is a method's.
// Kept (1): the test of any byte, as C or an entry has it; its callers go on with the number, so an enum or a struct made here would be undone.
pub fn is_method(number: u8) -> bool
    ensures { result ≡ is_method number }
{
    1 <= number && (number as usize) <= NAMES.len()
}

// The name of a method's number.
// Kept (1): its two callers are given a number, ask `is_method` and then this; a struct of the number with that fact would be made for this call.
pub fn name_of(number: u8) -> &'static [u8]
    requires { (1 ≤ number) × (number ≤ 14) }
    ensures { result.now ≡ name_of number }
{
    NAMES[(number - 1) as usize]
}
