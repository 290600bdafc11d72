// The header block: its check, the look-up of a name, and all lines of a name; the classes of a status code.
#![tactic(auto)]

ghost use Rattle.std.specs.Prelude.{◌≡◌, ◌≤◌, length, drop};
ghost use Rattle.limits.specs.Limits.{rust_limits};
ghost use Rattle.limits.specs.Outcome.{check_of};
ghost use Rattle.text.specs.Text.{span};
ghost use Rattle.text.specs.Answers.{lookup_of, next_of};
ghost use Rattle.msg.specs.Block.{is_name, line_at, is_block, lines_from, lines_of, lines_since, full_of, named, first_named, found_of, part_of, part_place, pointer_at, value_named, block_cause, lookup, lookup_from};

use limits::Refusal;
use lines::Lines;
use text::{ByteClass, Span, run_length};

mod lines;
mod status;
mod table;

// A request: its method and its header block.
#[derive(Clone, Copy)]
pub struct Request<'a> {
    pub method: &'a [u8],
    pub block: &'a [u8],
}

// A response: its status code and its header block.
#[derive(Clone, Copy)]
pub struct Response<'a> {
    pub status: u16,
    pub block: &'a [u8],
}

pub use lines::Values;
pub use status::{
    is_client_error, is_error, is_global_failure, is_informational, is_redirection,
    is_server_error, is_success,
};
pub use table::{HeaderTable, read_headers};

// The check of a header block: 1, 2.
// Kept (2): two tests, each with its cause; one function for this and the check of a value would take the second test and say no more.
pub fn check_block(block: &[u8]) -> Result<(), Refusal>
    ensures { result ≡ check_of (block_cause rust_limits block.now) }
{
    text::check_length(block)?;
    if !is_block(block) {
        return Err(Refusal::Malformed);
    }
    Ok(())
}

// The value of the first line of a name, letter case ignored: 1, 2.
// Kept (5): `Values` holds both for a walk over all lines; a single look-up is asked once.
pub fn header(block: &[u8], name: &[u8]) -> Result<Option<Span>, Refusal>
    ensures { result ≡ lookup_of (lookup rust_limits block.now name.now) }
{
    text::check_length(name)?;
    check_block(block)?;
    Ok(find(block, name).map(|(v, _)| v))
}

// The value of the first line of a name that starts at `from` or after it: 1, 2. All lines of a name are had by asking
// from 0 on, and then from each answered next place on.
// Kept (5): `Values` holds both for a walk over all lines; a single look-up is asked once.
pub fn next_header(block: &[u8], name: &[u8], from: usize) -> Result<Option<(Span, usize)>, Refusal>
    ensures { result ≡ next_of (lookup_from rust_limits block.now name.now from) }
{
    text::check_length(name)?;
    check_block(block)?;
    let at = line_since(block, from);
    Ok(find_from(block, at, name))
}

// The value of the first line of a name as a part of the block; the empty part at its front where there is no such line. The first promise is
// where the part starts, the second its bytes, and so its length.
// Kept (1): its three callers read a number, a word or a RAck, which an absent value and an empty one are none of alike: an `Option` would be
// opened at each of them for the same answer. `find` tells the two apart.
// Kept (5): `Values` holds both for a walk over all lines; a single look-up is asked once.
pub fn header_value<'a>(block: &'a [u8], name: &[u8]) -> &'a [u8]
    ensures ref_ptr_value { result.ref_ptr ≡ pointer_at block.entry.ref_ptr (part_place (value_named name.now block.now)) }
    ensures result_value { result.now ≡ part_of (value_named name.now block.now) block.now }
{
    let Some((v, _)) = find(block, name) else {
        return &block[0..0];
    };
    &block[v.start..v.end()]
}

// The first line of a name, in bytes that need not be a block: up to the first line that is none.
// Kept (5): `Values` holds both for a walk over all lines; a single look-up is asked once.
pub fn find(block: &[u8], name: &[u8]) -> Option<(Span, usize)>
    ensures { result ≡ found_of (first_named name.now (lines_of block.now)) }
{
    find_from(block, 0, name)
}

// The same from a place on where a line starts.
// Kept (5): a look-up asks once; `Lines` and `Values`, which go on from the place, have this fact as their ghost field `within`.
pub fn find_from(block: &[u8], from: usize, name: &[u8]) -> Option<(Span, usize)>
    requires { from ≤ length block.now }
    ensures { result ≡ found_of (first_named name.now (lines_from 0 from (drop from block.now))) }
{
    for line in (Lines { block, at: from }) {
        if is_named(line.name, name) {
            return Some(line.found());
        }
    }
    None
}

// Whether a line of this name is one that is asked for: both have the same full spelling, letter case ignored.
fn is_named(name: &[u8], asked: &[u8]) -> bool
    ensures { result ≡ named asked.now name.now }
{
    text::same_text(full_name(name), full_name(asked))
}

// The full spelling of a name: of the five short ones the full name, letter case ignored, and of every other the name itself.
fn full_name(name: &[u8]) -> &[u8]
    ensures { result.now ≡ full_of name.now }
{
    let [letter] = name else {
        return name;
    };
    match letter.to_ascii_lowercase() {
        b'i' => b"Call-ID",
        b'f' => b"From",
        b't' => b"To",
        b'm' => b"Contact",
        b'x' => b"Session-Expires",
        _ => name,
    }
}

// The place of the first line that starts at `from` or after it.
fn line_since(block: &[u8], from: usize) -> usize
    ensures block_value { lines_from 0 result (drop result block.now) ≡ lines_since from (lines_of block.now) }
    ensures upper_bound { result ≤ length block.now }
{
    if from == 0 {
        return 0;
    }
    let mut at = 0;
    for line in (Lines { block, at: 0 }) {
        at = line.end();
        if from <= at {
            return at;
        }
    }
    at
}

// Whether the bytes are lines, from the first to the last.
fn is_block(block: &[u8]) -> bool
    ensures { result ≡ is_block block.now }
{
    let mut end = 0;
    for line in (Lines { block, at: 0 }) {
        end = line.end();
    }
    end == block.len()
}

// The line at the front.
fn read_line(s: &[u8]) -> Option<(usize, usize)>
    ensures { result ≡ line_at s.now }
{
    let n = name_length(s);
    if n == 0 || n == s.len() || s[n] != b':' {
        return None;
    }
    let v = &s[n + 1..];
    let m = text::value_length(v);
    if v.len() - m < 2 || v[m] != b'\r' || v[m + 1] != b'\n' {
        return None;
    }
    Some((n, m))
}

// How many bytes of a name stand first.
fn name_length(s: &[u8]) -> usize
    ensures value { result ≡ span is_name s.now }
    ensures upper_bound { result ≤ length s.now }
{
    run_length(s, &NameByte {})
}

// The bytes that a name may have.
#[derive(Clone, Copy)]
struct NameByte {}

impl ByteClass for NameByte {
    ghost test = { λ _ b. is_name b };

    fn has(&self, b: u8) -> bool {
        is_name(b)
    }
}

// Whether a name may have this byte: a letter, a digit or `-`.
fn is_name(b: u8) -> bool
    ensures { result ≡ is_name b }
{
    b.is_ascii_alphanumeric() || b == b'-'
}
