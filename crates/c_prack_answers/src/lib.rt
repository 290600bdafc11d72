// The answer to a PRACK handed over to a C caller: the number is returned, and the values go to the lent numbers.
// Kept (1, 5): the header gives each part of a RAck a parameter of its own, the method as its number.
#![tactic(auto)]

ghost use Rattle.c_prack_answers.specs.Given.{rack_of, ValidatedGives};

use c_answers::give_rack;
use prack_validator::Validated;

// The parts of the RAck, and the new used length, which a refused PRACK may have too.
pub fn give_validated(
    answer: Validated,
    used: &mut usize,
    rseq: &mut u32,
    cseq: &mut u32,
    method: &mut u8,
) -> u8
    ensures { ValidatedGives answer (record { used = used.old; rack = rack_of rseq.old cseq.old method.old }) result (record { used = used.new; rack = rack_of rseq.new cseq.new method.new }) }
{
    *used = answer.used;
    let verdict = answer.verdict;
    give_rack(verdict, rseq, cseq, method)
}
