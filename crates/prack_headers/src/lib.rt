// CSeq and RSeq of a block, as the Rust's prack_validator.rs reads them.
#![tactic(auto)]

ghost use Rattle.std.specs.Prelude.{◌≡◌, ◌≤◌, length};
ghost use Rattle.limits.specs.Limits.{rust_limits};
ghost use Rattle.text.specs.Number.{number_from, read_number};
ghost use Rattle.msg.specs.Table.{text_at, end_of};
ghost use Rattle.words.specs.Words.{word_at};
ghost use Rattle.methods.specs.Methods.{method_from};
ghost use Rattle.prack_headers.specs.Sequence.{rseq_number, cseq_number, cseq_method, extract_rseq, extract_cseq_number, extract_cseq_method, reliable_provisional, number_answer, method_answer, reliable_answer};

use limits::Refusal;
use msg::Response;
use text::Span;

// The number of a block's RSeq: 1, 2, 4.
// Kept (1): document 01 has the reading of a number opened by `let .. else`.
// Kept (2): one function lent the reading would take these lines from three bodies and be as long itself, with its clauses about a closure.
pub fn extract_rseq(block: &[u8]) -> Result<u32, Refusal>
    ensures { result ≡ number_answer (extract_rseq rust_limits block.now) }
{
    msg::check_block(block)?;
    let Some(n) = rseq(block) else {
        return Err(Refusal::MissingHeader);
    };
    Ok(n)
}

// The number of a block's CSeq: 1, 2, 4. It is lib.rs's `parse_cseq_number` too.
// Kept (1): document 01 has the reading of a number opened by `let .. else`.
// Kept (2): one function lent the reading would take these lines from three bodies and be as long itself, with its clauses about a closure.
pub fn extract_cseq_number(block: &[u8]) -> Result<u32, Refusal>
    ensures { result ≡ number_answer (extract_cseq_number rust_limits block.now) }
{
    msg::check_block(block)?;
    let Some(n) = cseq_number(block) else {
        return Err(Refusal::MissingHeader);
    };
    Ok(n)
}

// The method of a block's CSeq, whatever its number: 1, 2, 4.
// Kept (2): one function lent the reading would take these lines from three bodies and be as long itself, with its clauses about a closure.
pub fn extract_cseq_method(block: &[u8]) -> Result<u8, Refusal>
    ensures { result ≡ method_answer (extract_cseq_method rust_limits block.now) }
{
    msg::check_block(block)?;
    cseq_method(block).ok_or(Refusal::MissingHeader)
}

// Whether a response is to be acknowledged by PRACK: 101 to 199, with an RSeq line: 1, 2.
pub fn is_reliable_provisional(response: Response<'_>) -> Result<bool, Refusal>
    ensures { result ≡ reliable_answer (reliable_provisional rust_limits response.entry.status response.entry.block.now) }
{
    msg::check_block(response.block)?;
    if response.status <= 100 || 200 <= response.status {
        return Ok(false);
    }
    Ok(msg::find(response.block, b"RSeq").is_some())
}

// The value of RSeq as a number.
pub fn rseq(block: &[u8]) -> Option<u32>
    ensures { result ≡ number_from (rseq_number block.now) }
{
    text::read_u32(msg::header_value(block, b"RSeq"))
}

// The first word of CSeq as a number.
// Kept (2): a look-up and a reading, each named once; a function over both would be lent a name and a closure for two lines.
pub fn cseq_number(block: &[u8]) -> Option<u32>
    ensures { result ≡ number_from (cseq_number block.now) }
{
    let line = msg::find(block, b"CSeq");
    cseq_at(block, line)
}

// The first word of a CSeq line that was looked up, as a number.
// Kept (5): a line that was looked up is its place and the next line's, kept without a lifetime (`HeaderTable` has eight); a `text::Part` would
// carry the text beside the place, and each table the block's lifetime.
pub fn cseq_at(block: &[u8], line: Option<(Span, usize)>) -> Option<u32>
    requires { end_of line ≤ length block.now }
    ensures { result ≡ number_from (read_number 32 (word_at 0 (text_at line block.now))) }
{
    let (v, _) = line?;
    text::read_u32(words::word(v.text(block)))
}

// The second word of CSeq as a method.
pub fn cseq_method(block: &[u8]) -> Option<u8>
    ensures { result ≡ method_from (cseq_method block.now) }
{
    let value = msg::header_value(block, b"CSeq");
    let rest = words::after_word(value);
    methods::method_of(words::word(rest))
}
