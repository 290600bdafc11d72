// The free functions of session_timer_manager.rs, and of lib.rs `needs_refresh`, on numbers.
// Times are whole nanoseconds where nothing is said of seconds.
#![tactic(auto)]

ghost use Rattle.std.specs.Prelude.{◌≡◌, ◌<◌, ◌*◌, ◌/◌, ◌^◌, leb};
ghost use Rattle.limits.specs.Limits.{rust_limits};
ghost use Rattle.session_timer_manager.specs.Answers.{time_of, seconds_of, text_in, interval_from, role_from};
ghost use Rattle.session_timer_manager.specs.Intervals.{minimum_or_default, validated, joint_minimum, reduced, negotiated, non_refresher_expiry, refresh_time, refresh_due};
ghost use Rattle.session_timer_manager.specs.Refresher.{we_refresh, refresher_role};

use limits::{Limits, NANOS_PER_SECOND, Refusal};

// RFC 4028, section 10: the longest time before its end at which a session is given up.
const EXPIRY_MARGIN_SECS: u64 = 32;

// The interval, or a refusal where it is below the minimum: the given one, or else 90 s.
pub fn validate_session_expires(interval: u64, minimum: Option<u64>) -> Result<u64, Refusal>
    ensures { result ≡ interval_from (validated rust_limits interval (time_of minimum)) }
{
    let least = minimum_or_default(minimum);
    if interval < least {
        return Err(Refusal::SessionExpiresTooSmall(least));
    }
    Ok(interval)
}

// When the side that does not refresh gives the session up: before its end by 32 s, or by a third if that is less.
pub fn non_refresher_expiry(interval: u64) -> u64
    ensures { result ≡ non_refresher_expiry interval }
{
    interval - (EXPIRY_MARGIN_SECS * NANOS_PER_SECOND).min(interval / 3)
}

// When the side that refreshes is to do so: at half the interval.
pub fn calculate_refresh_time(interval: u64) -> u64
    ensures { result ≡ refresh_time interval }
{
    interval / 2
}

// The requested interval, reduced to our preference but not below the larger of both minima; refused where it is itself
// below that.
pub fn negotiate_session_expires(
    requested: u64,
    local_min: u64,
    remote_min: Option<u64>,
    preference: Option<u64>,
) -> Result<u64, Refusal>
    ensures { result ≡ interval_from (negotiated requested local_min (time_of remote_min) (time_of preference)) }
{
    let least = joint_minimum(local_min, remote_min);
    if requested < least {
        return Err(Refusal::SessionExpiresTooSmall(least));
    }
    Ok(reduced(least, requested, preference))
}

// Whether we refresh the session, by the refresher parameter, if there is one.
#[tactic(auto, unfolding(crate::specs::Refresher::refresher_role))]
pub fn determine_refresher_role(param: Option<&[u8]>, is_uac: bool) -> Result<bool, Refusal>
    ensures { result ≡ role_from (refresher_role rust_limits (text_in param.entry) is_uac) }
{
    let Some(given) = param else {
        return Ok(is_uac);
    };
    text::check_length(given)?;
    Ok(we_refresh(given, is_uac))
}

// lib.rs's `Dialog::needs_refresh`: whether two thirds of the interval have passed. Without an interval, no.
pub fn needs_refresh(expires: Option<u32>, elapsed: u64) -> bool
    ensures { result ≡ refresh_due (seconds_of expires) elapsed }
{
    expires.is_some_and(|seconds| thirds_passed((seconds as u64) * NANOS_PER_SECOND, elapsed))
}

// Whether two thirds of an interval have passed.
fn thirds_passed(interval: u64, elapsed: u64) -> bool
    requires { interval < 2 ^ 62 }
    ensures { result ≡ leb (interval * 2 / 3) elapsed }
{
    if interval <= elapsed {
        return true;
    }
    // Nothing is divided: two thirds, rounded down, are at most n exactly if twice the interval is at most 3 n + 2.
    interval * 2 <= elapsed * 3 + 2
}

// The given minimum, or else 90 s.
fn minimum_or_default(minimum: Option<u64>) -> u64
    ensures { result ≡ minimum_or_default rust_limits (time_of minimum) }
{
    minimum.unwrap_or((Limits::MIN_SESSION_EXPIRES as u64) * NANOS_PER_SECOND)
}

// The larger of both sides' minima.
fn joint_minimum(local: u64, remote: Option<u64>) -> u64
    ensures { result ≡ joint_minimum local (time_of remote) }
{
    remote.map_or(local, |given| local.max(given))
}

// The requested interval, reduced to the preference but not below the minimum.
fn reduced(least: u64, requested: u64, preference: Option<u64>) -> u64
    ensures { result ≡ reduced least requested (time_of preference) }
{
    preference.map_or(requested, |preferred| requested.min(preferred.max(least)))
}

// Whether we refresh by this parameter. `uac` and `UAC` need no test: they say what holds for any other text too.
fn we_refresh(param: &[u8], is_uac: bool) -> bool
    ensures { result ≡ we_refresh param.now is_uac }
{
    let uas = text::equal_text(param, b"uas") || text::equal_text(param, b"UAS");
    if uas { !is_uac } else { is_uac }
}
