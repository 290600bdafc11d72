// Who sets the session interval: what a callee can make of one offer of a caller. Times are whole seconds.
#![tactic(auto)]

ghost use Rattle.std.specs.Prelude.{◌≡◌};
ghost use Rattle.limits.specs.Limits.{rust_limits};
ghost use Rattle.limits.specs.Outcome.{check_of};
ghost use Rattle.interval_contest.specs.Answers.{extent_in, outcome_in};
ghost use Rattle.interval_contest.specs.ClosedForm.{retry_extent};
ghost use Rattle.interval_contest.specs.Contest.{Settles, offer_cause};

use limits::{Limits, Refusal};

// What the callee can force at its first answer, and at the answer to the retry after 13; and whether only the request
// itself or 13 is left to it at the first.
#[derive(Clone, Copy)]
pub struct Contest {
    pub first: Option<(u64, u64)>,
    pub retry: Option<(u64, u64)>,
    pub only_requested: bool,
}

// What the callee can make of an offer: of an interval that is requested with this Min-SE.
// Kept (5): C gives the two each by itself; a struct of them would be made for this call.
pub fn interval_contest(requested: u64, min_se: u64) -> Result<Contest, Refusal>
    ensures { Settles rust_limits (record { requested = requested; min_se = min_se }) (outcome_in result) }
{
    check_offer(requested, min_se)?;
    Ok(Contest {
        first: Some((min_se, requested)),
        retry: at_retry(requested),
        only_requested: min_se == requested,
    })
}

// 13 with 90 for a Min-SE below it, 13 with the Min-SE for a request below that, then 14 for a request over 86,400.
// Kept (5): the two numbers of its one caller; a struct of them would be made there for this call, and each test here would take it apart.
fn check_offer(requested: u64, min_se: u64) -> Result<(), Refusal>
    ensures { result ≡ check_of (offer_cause rust_limits (record { requested = requested; min_se = min_se })) }
{
    let least = Limits::MIN_SESSION_EXPIRES as u64;
    let most = Limits::MAX_SESSION_EXPIRES as u64;
    if min_se < least {
        return Err(Refusal::SessionExpiresTooSmall(least));
    }
    if requested < min_se {
        return Err(Refusal::SessionExpiresTooSmall(min_se));
    }
    if most < requested {
        return Err(Refusal::SessionExpiresTooLarge);
    }
    Ok(())
}

// Each minimum above the request and up to 86,400, where there is one.
fn at_retry(requested: u64) -> Option<(u64, u64)>
    ensures { extent_in result ≡ retry_extent rust_limits requested }
{
    let most = Limits::MAX_SESSION_EXPIRES as u64;
    if requested < most {
        return Some((requested + 1, most));
    }
    None
}
