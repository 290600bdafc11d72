// What a creation reads from the two messages: the identifier, the state, the target, the numbers, and what the routes' section measures.
#![tactic(auto)]

ghost use Rattle.std.specs.Prelude.{◌≡◌, ◌≤◌, length, IfOk};
ghost use Rattle.limits.specs.Limits.{rust_limits};
ghost use Rattle.limits.specs.Outcome.{check_of};
ghost use Rattle.route_set.specs.Routes.{contact_of};
ghost use Rattle.prack_headers.specs.Sequence.{number_answer};
ghost use Rattle.record.specs.NumbersForm.{meaning, state_in, outcome_in};
ghost use Rattle.dialog_rules.specs.Creation.{numbers_at, state_by, sequence_in, interval_cause};
ghost use Rattle.dialog_rules.specs.Updates.{text_or, interval_from};
ghost use Rattle.creation_readings.specs.Steps.{side_for, target_pointer, first_state, interval_in, numbers_in, remainder_of, remainder_in, MeasuredOf};

use creation_checks::NewDialog;
use headers::Refresher;
use limits::{Limits, Refusal};
use record::{Numbers, State};
use route_section::{PeerRoutes, measure_routes};
use session_seconds::check_expires_seconds;

mod side;

pub use side::{Side, Uac, Uas};

// The Contact's text, as a part of the block, or else the remote URI itself. The first promise is which of the two slices it is a part of and
// where it starts, the second its bytes, and so its length.
pub fn target<'a>(block: &'a [u8], remote_uri: &'a [u8]) -> &'a [u8]
    ensures ref_ptr_value { result.ref_ptr ≡ target_pointer block.entry.ref_ptr remote_uri.entry.ref_ptr (contact_of block.now) }
    ensures result_value { result.now ≡ text_or remote_uri.now (contact_of block.now) }
{
    let Some(c) = route_set::find_contact(block) else {
        return remote_uri;
    };
    &block[c.start..c.end()]
}

// Early by 100 to 199, Confirmed by 200 to 299.
pub fn state_for(status: u16) -> Option<State>
    ensures { result ≡ first_state (state_by status) }
{
    if msg::is_informational(status) {
        return Some(State::Early);
    }
    if msg::is_success(status) {
        return Some(State::Confirmed);
    }
    None
}

// 7 or 8 in the routes, then 4, 9, 10, 13 and 14 of the numbers.
// Kept (5): the fact is one inequality; a struct with it as its ghost field would be made at each call and its bytes taken out at each reading.
pub fn read_rest<'a, S: Side>(
    state: State,
    c: NewDialog<'_>,
    peer: &'a [u8],
) -> Result<(Numbers, PeerRoutes<'a>), Refusal>
    requires { length peer.now ≤ 8192 }
    ensures value { remainder_in result ≡ remainder_of rust_limits (side_for S.WE_ARE_UAC) (state_in state) c.entry.request.block.now c.entry.response.block.now peer.now }
    ensures measured { IfOk result (MeasuredOf peer.now) }
{
    let routes = measure_routes(peer)?;
    Ok((read_numbers::<S>(state, c)?, routes))
}

// The numbers: 4, 9, 10 of the request's CSeq, 13 and 14 of the response's interval.
fn read_numbers<S: Side>(state: State, c: NewDialog<'_>) -> Result<Numbers, Refusal>
    ensures { outcome_in result ≡ numbers_in rust_limits (side_for S.WE_ARE_UAC) (state_in state) c.entry.request.block.now c.entry.response.block.now }
{
    let n = read_sequence(c.request.block)?;
    let expires = headers::expires_named(c.response.block);
    check_interval(expires)?;
    Ok(first_numbers::<S>(state, n, expires))
}

// The request's number: 4, 9, 10.
// Kept (1): document 01 names `let .. else` for the reading of a number.
fn read_sequence(block: &[u8]) -> Result<u32, Refusal>
    ensures { result ≡ number_answer (sequence_in rust_limits block.now) }
{
    let Some(n) = prack_headers::cseq_number(block) else {
        return Err(Refusal::MissingHeader);
    };
    if n == 0 {
        return Err(Refusal::CSeqZero);
    }
    if Limits::MAX_CSEQ_VALUE < n {
        return Err(Refusal::CSeqTooLarge);
    }
    Ok(n)
}

// The interval, where there is one: 13 with 90, 14.
fn check_interval(expires: Option<(u32, Option<Refresher>)>) -> Result<(), Refusal>
    ensures { result ≡ check_of (interval_cause rust_limits (interval_in expires)) }
{
    let Some((seconds, _)) = expires else {
        return Ok(());
    };
    check_expires_seconds(seconds as u64)?;
    Ok(())
}

// Those of a new record, by the request's number and the response's interval.
fn first_numbers<S: Side>(
    state: State,
    n: u32,
    expires: Option<(u32, Option<Refresher>)>,
) -> Numbers
    ensures { meaning result ≡ interval_from (interval_in expires) (numbers_at (side_for S.WE_ARE_UAC) (state_in state) n) }
{
    let (local, remote) = S::sequences(n);
    Numbers {
        state,
        local,
        remote,
        last_ack: None,
        seconds: expires.map(|(seconds, _)| seconds),
        refresher: expires.and_then(|(_, refresher)| refresher),
    }
}
