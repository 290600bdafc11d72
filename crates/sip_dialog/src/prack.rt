// CSeq, RSeq, RAck and method numbers.
ghost use Rattle.std.specs.Prelude.{◌≡◌, length};
ghost use Rattle.limits.specs.Limits.{rust_limits};
ghost use Rattle.prack_headers.specs.Sequence.{number_answer, method_answer, reliable_answer, extract_cseq_number, extract_cseq_method, extract_rseq, reliable_provisional};
ghost use Rattle.methods.specs.Methods.{method_lookup, method_number, method_text};
ghost use Rattle.rack.specs.RAck.{rack_answer, parse_rack, format_rack};
ghost use Rattle.output.specs.Output.{written_from, leaves};
ghost use Rattle.c_answers.specs.Given.{ValueGives, FlagGives, MethodLookupGives, RackGives};

use c_answers::{give, give_flag, give_method_lookup, give_rack};
use msg::Response;

// The number of a block's CSeq: 1, 2, 4.
pub fn sip_dialog_cseq_number(block: &[u8], number: &mut u32) -> u8
    ensures { ValueGives (number_answer (extract_cseq_number rust_limits block.now)) number.old result number.new }
{
    give(prack_headers::extract_cseq_number(block), number)
}

// The number of the method of a block's CSeq: 1, 2, 4.
pub fn sip_dialog_cseq_method(block: &[u8], method: &mut u8) -> u8
    ensures { ValueGives (method_answer (extract_cseq_method rust_limits block.now)) method.old result method.new }
{
    give(prack_headers::extract_cseq_method(block), method)
}

// The number of a block's RSeq: 1, 2, 4.
pub fn sip_dialog_rseq(block: &[u8], number: &mut u32) -> u8
    ensures { ValueGives (number_answer (extract_rseq rust_limits block.now)) number.old result number.new }
{
    give(prack_headers::extract_rseq(block), number)
}

// Whether a response is a reliable provisional: 1, 2.
pub fn sip_dialog_is_reliable_provisional(status: u16, block: &[u8], reliable: &mut u8) -> u8
    ensures { FlagGives (reliable_answer (reliable_provisional rust_limits status block.now)) reliable.old result reliable.new }
{
    let response = Response { status, block };
    give_flag(prack_headers::is_reliable_provisional(response), reliable)
}

// The number of a method by its text: 1.
pub fn sip_dialog_method_number(text: &[u8], found: &mut u8, method: &mut u8) -> u8
    ensures { MethodLookupGives (method_lookup (method_number rust_limits text.now)) (record { found = found.old; method = method.old }) result (record { found = found.new; method = method.new }) }
{
    give_method_lookup(methods::method_number(text), found, method)
}

// The text of a method at the front of the lent bytes: 28, 18.
// Kept (1): the C header's parameter: C gives a method by its number, and a number that is none is refused.
pub fn sip_dialog_method_text(method: u8, out: &mut [u8], written: &mut usize) -> u8
    ensures written_gives { ValueGives (written_from (method_text method (length out.old))) written.old result written.new }
    ensures out_after { out.new ≡ leaves (method_text method (length out.old)) out.old }
{
    give(methods::method_text(method, out), written)
}

// The three parts of a RAck value: 1, 2, 19.
pub fn sip_dialog_parse_rack(value: &[u8], rseq: &mut u32, cseq: &mut u32, method: &mut u8) -> u8
    ensures { RackGives (rack_answer (parse_rack rust_limits value.now)) (record { rseq = rseq.old; cseq = cseq.old; method = method.old }) result (record { rseq = rseq.new; cseq = cseq.new; method = method.new }) }
{
    give_rack(rack::parse_rack(value), rseq, cseq, method)
}

// A RAck value at the front of the lent bytes: 28, 18.
// Kept (1): the C header's parameter: C gives a method by its number, and a number that is none is refused.
pub fn sip_dialog_format_rack(
    rseq: u32,
    cseq: u32,
    method: u8,
    out: &mut [u8],
    written: &mut usize,
) -> u8
    ensures written_gives { ValueGives (written_from (format_rack rseq cseq method (length out.old))) written.old result written.new }
    ensures out_after { out.new ≡ leaves (format_rack rseq cseq method (length out.old)) out.old }
{
    give(rack::format_rack(rseq, cseq, method, out), written)
}
