// The state and the numbers of a record, by value, and what requests and other calls make of them.
ghost use Rattle.std.specs.Prelude.{◌≡◌};
ghost use Rattle.limits.specs.Limits.{rust_limits};
ghost use Rattle.limits.specs.Settings.{limits_in};
ghost use Rattle.record.specs.Rules.{request_step, ack_step, other_step, confirm_step, terminate_step, local_step, with_seconds, interval_step};
ghost use Rattle.record.specs.NumbersForm.{meaning, kind_in, outcome_in};

use headers::Refresher;
use limits::{Limits, Refusal, Settings};
use session_seconds::check_expires_seconds;

// Each with the number that the state byte of an image has for it.
#[derive(Clone, Copy)]
pub enum State {
    Early = 1,
    Confirmed = 2,
    Terminated = 3,
}

// ACK is exactly those letters; every other method is another.
// Kept (1): the two are the cases of the rules (`Kind`, specs/Rules.antt), none of them an absence, and a flag would say less.
#[derive(Clone, Copy)]
pub enum Method {
    Ack,
    Other,
}

// Kept (1): by document 01, "CSeq", a remote number of 0 is none yet; an image leaves out a local or a remote one of 0, and the listing
// shows that 0 (docs/LAYOUTS.md).
#[derive(Clone, Copy)]
pub struct Numbers {
    pub state: State,
    pub local: u32,
    pub remote: u32,
    pub last_ack: Option<u32>,
    pub seconds: Option<u32>,
    pub refresher: Option<Refresher>,
}

impl Numbers {
    // update_from_request: 9; ACK 11; others 10, 11, 12.
    // Kept (7): the two steps are the rules' two cases (`Kind`), a call each; a closure would be picked by this match at the one caller.
    pub fn request(self, settings: Settings, method: Method, cseq: u32) -> Result<Numbers, Refusal>
        ensures { outcome_in result ≡ request_step (limits_in settings) (kind_in method) cseq (meaning self) }
    {
        if cseq == 0 {
            return Err(Refusal::CSeqZero);
        }
        match method {
            Method::Ack => self.acknowledge(cseq),
            Method::Other => self.advance(settings, cseq),
        }
    }

    // An ACK equals a remote number that isn't 0, and is remembered.
    fn acknowledge(self, cseq: u32) -> Result<Numbers, Refusal>
        ensures { outcome_in result ≡ ack_step cseq (meaning self) }
    {
        if cseq != self.remote || self.remote == 0 {
            return Err(Refusal::InvalidCSeq);
        }
        Ok(Numbers {
            last_ack: Some(cseq),
            ..self
        })
    }

    // Any other request becomes the remote number, within its limits.
    fn advance(self, settings: Settings, cseq: u32) -> Result<Numbers, Refusal>
        ensures { outcome_in result ≡ other_step (limits_in settings) cseq (meaning self) }
    {
        if Limits::MAX_CSEQ_VALUE < cseq {
            return Err(Refusal::CSeqTooLarge);
        }
        let remote = self.remote;
        if remote != 0 {
            if cseq <= remote {
                return Err(Refusal::InvalidCSeq);
            }
            if settings.cseq_jump < cseq - remote {
                return Err(Refusal::CSeqJumpTooLarge);
            }
        }
        Ok(Numbers {
            remote: cseq,
            ..self
        })
    }

    // Early becomes Confirmed; every other state stays.
    pub fn confirm(self) -> Numbers
        ensures { meaning result ≡ confirm_step (meaning self) }
    {
        let state = self.state;
        match state {
            State::Early => self.in_state(State::Confirmed),
            State::Confirmed => self,
            State::Terminated => self,
        }
    }

    pub fn terminate(self) -> Numbers
        ensures { meaning result ≡ terminate_step (meaning self) }
    {
        self.in_state(State::Terminated)
    }

    // The next local number; at its largest it stays.
    pub fn next_local_cseq(self) -> Numbers
        ensures { meaning result ≡ local_step (meaning self) }
    {
        Numbers {
            local: self.local.saturating_add(1),
            ..self
        }
    }

    // set_session_expires: 13 with 90, 14.
    pub fn set_session_expires(self, seconds: u64) -> Result<Numbers, Refusal>
        ensures { outcome_in result ≡ interval_step rust_limits seconds (meaning self) }
    {
        let n = check_expires_seconds(seconds)?;
        Ok(self.with_seconds(n))
    }

    fn with_seconds(self, n: u32) -> Numbers
        ensures { meaning result ≡ with_seconds n (meaning self) }
    {
        Numbers {
            seconds: Some(n),
            ..self
        }
    }

    fn in_state(self, state: State) -> Numbers
        ensures { result ≡ record { state = state; local = self.local; remote = self.remote; last_ack = self.last_ack; seconds = self.seconds; refresher = self.refresher } }
    {
        Numbers { state, ..self }
    }
}
