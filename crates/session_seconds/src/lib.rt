// The check of a session interval in whole seconds: a step of creation and of `set_session_expires`.
#![tactic(auto)]

ghost use Rattle.std.specs.Prelude.{◌≡◌};
ghost use Rattle.limits.specs.Limits.{rust_limits};
ghost use Rattle.session_seconds.specs.Seconds.{checked_seconds};
ghost use Rattle.session_seconds.specs.Answers.{seconds_from};

use limits::{Limits, Refusal};

// lib.rs's own `validate_session_expires`, a step of creation and of `set_session_expires`: the seconds, or a refusal
// where they are under 90 or over 86,400.
pub fn check_expires_seconds(expires: u64) -> Result<u32, Refusal>
    ensures { result ≡ seconds_from (checked_seconds rust_limits expires) }
{
    let least = Limits::MIN_SESSION_EXPIRES as u64;
    if expires < least {
        return Err(Refusal::SessionExpiresTooSmall(least));
    }
    if (Limits::MAX_SESSION_EXPIRES as u64) < expires {
        return Err(Refusal::SessionExpiresTooLarge);
    }
    Ok(expires as u32)
}
