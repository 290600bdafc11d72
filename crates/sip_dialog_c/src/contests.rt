// Who sets a session interval.
// Made by `tools/face write` from crates/sip_dialog/src, not by hand.
ghost use Rattle.limits.specs.Limits.{rust_limits};
ghost use Rattle.c_contest_answers.specs.Given.{ContestGiven};

// What the callee can force of an offer, in seconds, first and at the retry after 13: 13 with the least, 14.
#[unsafe(no_mangle)]
pub extern "C" fn sip_dialog_interval_contest(
    requested: u64,
    min_se: u64,
    has_first: &mut u8,
    first_least: &mut u64,
    first_most: &mut u64,
    has_retry: &mut u8,
    retry_least: &mut u64,
    retry_most: &mut u64,
    only_requested: &mut u8,
    least: &mut u64,
) -> u8
    ensures { ContestGiven rust_limits (record { requested = requested; min_se = min_se }) (record { has_first = has_first.old; first_least = first_least.old; first_most = first_most.old; has_retry = has_retry.old; retry_least = retry_least.old; retry_most = retry_most.old; only_requested = only_requested.old; least = least.old }) result (record { has_first = has_first.new; first_least = first_least.new; first_most = first_most.new; has_retry = has_retry.new; retry_least = retry_least.new; retry_most = retry_most.new; only_requested = only_requested.new; least = least.new }) }
{
    sip_dialog::contests::sip_dialog_interval_contest(
        requested,
        min_se,
        has_first,
        first_least,
        first_most,
        has_retry,
        retry_least,
        retry_most,
        only_requested,
        least,
    )
}
