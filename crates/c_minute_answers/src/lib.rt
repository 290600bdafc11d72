// The answer of `worst_minute` handed over to a C caller: the number is returned, and the values go to the lent numbers.
// Kept (1, 5): the header gives each lent number a parameter of its own: a flag beside the start that it is of.
#![tactic(auto)]

ghost use Rattle.c_minute_answers.specs.Given.{WorstGives};

use c_answers::{FOUND, NOTHING};
use limits::Refusal;

// How many refusals, whether there is a start, and the start, which keeps its value where there is none.
// Kept (2): `give_found` of c_answers leaves the value where there is nothing; here the refusals are handed over there too, as 0.
pub fn give_worst(
    answer: Result<Option<(usize, u64)>, Refusal>,
    refusals: &mut usize,
    found: &mut u8,
    start: &mut u64,
) -> u8
    ensures { WorstGives answer (record { refusals = refusals.old; found = found.old; start = start.old }) result (record { refusals = refusals.new; found = found.new; start = start.new }) }
{
    match answer {
        Ok(Some((n, t))) => {
            *refusals = n;
            *found = FOUND;
            *start = t;
            0
        }
        Ok(None) => {
            *refusals = 0;
            *found = NOTHING;
            0
        }
        Err(x) => x.number(),
    }
}
