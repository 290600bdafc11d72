// Session intervals and the two counts.
// Made by `tools/face write` from crates/sip_dialog/src, not by hand.
ghost use Rattle.std.specs.Prelude.{◌≡◌};
ghost use Rattle.std.specs.Bool.{then_some};
ghost use Rattle.limits.specs.Limits.{rust_limits};
ghost use Rattle.session_timer_manager.specs.Answers.{time_of, seconds_of, text_if, interval_from, role_from};
ghost use Rattle.session_timer_manager.specs.Intervals.{validated, negotiated, non_refresher_expiry, refresh_time, refresh_due};
ghost use Rattle.session_timer_manager.specs.Refresher.{refresher_role};
ghost use Rattle.metrics.specs.Metrics.{counted};
ghost use Rattle.c_answers.specs.Given.{FlagGives, WithLeastGives, ValidatedGives};

// An interval in nanoseconds against a minimum: 13 with the least.
// Kept (1): the C header's parameters: a value that may be absent is given by a flag beside it; `then_some` makes an Option of it.
#[unsafe(no_mangle)]
pub extern "C" fn sip_dialog_validate_session_expires(
    interval: u64,
    has_minimum: bool,
    minimum: u64,
    least: &mut u64,
) -> u8
    ensures { ValidatedGives (interval_from (validated rust_limits interval (time_of (then_some has_minimum minimum)))) least.old result least.new }
{
    sip_dialog::timers::sip_dialog_validate_session_expires(interval, has_minimum, minimum, least)
}

// The interval that both sides can accept, in nanoseconds: 13 with the least.
// Kept (1): the C header's parameters: a value that may be absent is given by a flag beside it; `then_some` makes an Option of it.
#[unsafe(no_mangle)]
pub extern "C" fn sip_dialog_negotiate_session_expires(
    requested: u64,
    local_minimum: u64,
    has_remote_minimum: bool,
    remote_minimum: u64,
    has_preference: bool,
    preference: u64,
    interval: &mut u64,
    least: &mut u64,
) -> u8
    ensures { WithLeastGives (interval_from (negotiated requested local_minimum (time_of (then_some has_remote_minimum remote_minimum)) (time_of (then_some has_preference preference)))) (record { value = interval.old; least = least.old }) result (record { value = interval.new; least = least.new }) }
{
    sip_dialog::timers::sip_dialog_negotiate_session_expires(
        requested,
        local_minimum,
        has_remote_minimum,
        remote_minimum,
        has_preference,
        preference,
        interval,
        least,
    )
}

// When the side that doesn't refresh gives a session up, in nanoseconds.
#[unsafe(no_mangle)]
pub extern "C" fn sip_dialog_non_refresher_expiry(interval: u64) -> u64
    ensures { result ≡ non_refresher_expiry interval }
{
    sip_dialog::timers::sip_dialog_non_refresher_expiry(interval)
}

// When a session is refreshed, in nanoseconds.
#[unsafe(no_mangle)]
pub extern "C" fn sip_dialog_calculate_refresh_time(interval: u64) -> u64
    ensures { result ≡ refresh_time interval }
{
    sip_dialog::timers::sip_dialog_calculate_refresh_time(interval)
}

// Whether a session of so many seconds is to be refreshed after a time in nanoseconds.
// Kept (1): the C header's parameters: a value that may be absent is given by a flag beside it; `then_some` makes an Option of it.
#[unsafe(no_mangle)]
pub extern "C" fn sip_dialog_needs_refresh(has_interval: bool, seconds: u32, elapsed: u64) -> bool
    ensures { result ≡ refresh_due (seconds_of (then_some has_interval seconds)) elapsed }
{
    sip_dialog::timers::sip_dialog_needs_refresh(has_interval, seconds, elapsed)
}

// Whether we refresh: 1.
// Kept (1): the C header's parameters: a value that may be absent is given by a flag beside it; `then_some` makes an Option of it.
#[unsafe(no_mangle)]
pub extern "C" fn sip_dialog_determine_refresher_role(
    given: bool,
    text: &[u8],
    is_uac: bool,
    we_refresh: &mut u8,
) -> u8
    ensures { FlagGives (role_from (refresher_role rust_limits (text_if given text.now) is_uac)) we_refresh.old result we_refresh.new }
{
    sip_dialog::timers::sip_dialog_determine_refresher_role(given, text, is_uac, we_refresh)
}

// The count of created dialogs with one more.
#[unsafe(no_mangle)]
pub extern "C" fn sip_dialog_record_created(created: u64) -> u64
    ensures { result ≡ counted created }
{
    sip_dialog::timers::sip_dialog_record_created(created)
}

// The count of terminated dialogs with one more.
#[unsafe(no_mangle)]
pub extern "C" fn sip_dialog_record_terminated(terminated: u64) -> u64
    ensures { result ≡ counted terminated }
{
    sip_dialog::timers::sip_dialog_record_terminated(terminated)
}
