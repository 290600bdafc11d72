// RAck (RFC 3262 section 7.2): which provisional response a PRACK acknowledges.
#![tactic(auto)]

ghost use Rattle.std.specs.Prelude.{◌≡◌, ◌+◌, ◌≤◌, length};
ghost use Rattle.limits.specs.Limits.{rust_limits};
ghost use Rattle.edit.specs.Edit.{over};
ghost use Rattle.output.specs.Output.{leaves, written_from};
ghost use Rattle.rack.specs.RAck.{spaced, read_rack, parse_rack, format_rack, rack_from, rack_answer};

use edit::put;
use limits::Refusal;
use methods::{is_method, method_of, name_of};
use words::{after_word, word};

// Kept (1): no code asks which method it is: it is read, compared and handed on; an enum or a struct around the number would be undone at each.
#[derive(Clone, Copy)]
pub struct RAck {
    pub rseq: u32,
    pub cseq: u32,
    pub method: u8,
}

// RAck::parse: 1, 2, 19.
// Kept (1): document 01 opens the reading of a RAck by `let .. else`.
// Kept (2): `uri::sip_uri` is this with another check, reading and refusal; a function over both would be lent the three.
pub fn parse_rack(value: &[u8]) -> Result<RAck, Refusal>
    ensures { result ≡ rack_answer (parse_rack rust_limits value.now) }
{
    text::check_value(value)?;
    let Some(r) = read_rack(value) else {
        return Err(Refusal::InvalidRAck);
    };
    Ok(r)
}

// RAck::format, at the front of out: 28, 18.
// Kept (1, 5): a `RAck` that was read has a method's number, while this is given any and answers 28 for one that is none; C gives each by itself.
pub fn format_rack(rseq: u32, cseq: u32, method: u8, out: &mut [u8]) -> Result<usize, Refusal>
    ensures value { result ≡ written_from (format_rack rseq cseq method (length out.old)) }
    ensures out_after { out.new ≡ leaves (format_rack rseq cseq method (length out.old)) out.old }
{
    if !is_method(method) {
        return Err(Refusal::InvalidMethod);
    }
    let name = name_of(method);
    // Kept (4): of `write!` into lent bytes no clause says what they get (`&mut [u8]` has no `contents`); `io::decimal` says each digit.
    // Kept (6): no heap: a number's digits go into an array, and `io::decimal` says how many they are.
    let mut first = [0u8; 20];
    let k = io::decimal(rseq as u64, &mut first);
    // Kept (6): no heap: a number's digits go into an array, and `io::decimal` says how many they are.
    let mut second = [0u8; 20];
    let m = io::decimal(cseq as u64, &mut second);
    let length = k + m + name.len() + 2;
    if out.len() < length {
        return Err(Refusal::NoRoom);
    }
    write_spaced(&first[..k], &second[..m], name, out);
    Ok(length)
}

// Three parts at the front of out, with a space between them.
// Kept (5): the parts of one line that is written here alone; `a` and `b` travel together nowhere else.
fn write_spaced(a: &[u8], b: &[u8], c: &[u8], out: &mut [u8])
    requires { length a.now + length b.now + length c.now + 2 ≤ length out.old }
    ensures { out.new ≡ over (spaced a.now b.now c.now) out.old }
{
    let k = a.len();
    let m = k + 1 + b.len();
    put(out, 0, a);
    put(out, k, b" ");
    put(out, k + 1, b);
    put(out, m, b" ");
    put(out, m + 1, c);
}

// Exactly three words: a number, a number and a method.
// Kept (1): document 01 opens the reading of a number by `let .. else`.
pub fn read_rack(value: &[u8]) -> Option<RAck>
    ensures { result ≡ rack_from (read_rack value.now) }
{
    let Some(rseq) = text::read_u32(word(value)) else {
        return None;
    };
    let second = after_word(value);
    let Some(cseq) = text::read_u32(word(second)) else {
        return None;
    };
    let third = after_word(second);
    let method = method_of(word(third))?;
    let fourth = text::first_word(after_word(third));
    if fourth.length != 0 {
        return None;
    }
    Some(RAck { rseq, cseq, method })
}
