// The answer of the interval contest handed over to a C caller: the number is returned, and the values go to the lent numbers.
// Kept (1, 5): the header gives each lent number a parameter of its own: a flag beside the least and the most that it is of.
#![tactic(auto)]

ghost use Rattle.interval_contest.specs.Answers.{outcome_in};
ghost use Rattle.c_contest_answers.specs.Given.{ContestGives};

use c_answers::give_least;
use interval_contest::Contest;
use limits::Refusal;

pub fn give_contest(
    answer: Result<Contest, Refusal>,
    has_first: &mut u8,
    first_least: &mut u64,
    first_most: &mut u64,
    has_retry: &mut u8,
    retry_least: &mut u64,
    retry_most: &mut u64,
    only_requested: &mut u8,
    least: &mut u64,
) -> u8
    ensures { ContestGives (outcome_in answer) (record { has_first = has_first.old; first_least = first_least.old; first_most = first_most.old; has_retry = has_retry.old; retry_least = retry_least.old; retry_most = retry_most.old; only_requested = only_requested.old; least = least.old }) result (record { has_first = has_first.new; first_least = first_least.new; first_most = first_most.new; has_retry = has_retry.new; retry_least = retry_least.new; retry_most = retry_most.new; only_requested = only_requested.new; least = least.new }) }
{
    match answer {
        Ok(c) => {
            let first = c.first;
            let retry = c.retry;
            *has_first = u8::from(first.is_some());
            *first_least = first.map_or(*first_least, |(least, _)| least);
            *first_most = first.map_or(*first_most, |(_, most)| most);
            *has_retry = u8::from(retry.is_some());
            *retry_least = retry.map_or(*retry_least, |(least, _)| least);
            *retry_most = retry.map_or(*retry_most, |(_, most)| most);
            *only_requested = u8::from(c.only_requested);
            0
        }
        Err(x) => give_least(x, least),
    }
}
