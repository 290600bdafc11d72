// Answers of the calls on a dialog store handed over to a C caller: the number is returned, and the values go to the lent numbers.
// Kept (5): the header gives each lent number a parameter of its own, a place and its length too.
#![tactic(auto)]

ghost use Rattle.std.specs.Prelude.{◌≡◌};
ghost use Rattle.limits.specs.Outcome.{number_in};
ghost use Rattle.book.specs.Returned.{place_after, length_after};
ghost use Rattle.dialog_manager.specs.Lookups.{answer_in};
ghost use Rattle.c_store_answers.specs.Given.{CountedGives};

use c_answers::give_part;
use limits::Refusal;
use metrics::count_one;
use text::Span;

// Where a record's image lies, and its length.
pub fn give_place(
    answer: Result<(usize, usize), Refusal>,
    place: &mut usize,
    length: &mut usize,
) -> u8
    ensures value { result ≡ number_in (answer_in answer) }
    ensures place_after { place.new ≡ place_after (answer_in answer) place.old }
    ensures length_after { length.new ≡ length_after (answer_in answer) length.old }
{
    give_part(
        answer.map(|(start, length)| Span { start, length }),
        place,
        length,
    )
}

// The new used length, and one more counted.
pub fn give_counted(answer: Result<usize, Refusal>, used: &mut usize, count: &mut u64) -> u8
    ensures { CountedGives answer (record { used = used.old; count = count.old }) result (record { used = used.new; count = count.new }) }
{
    match answer {
        Ok(n) => {
            *used = n;
            *count = count_one(*count);
            0
        }
        Err(x) => x.number(),
    }
}
