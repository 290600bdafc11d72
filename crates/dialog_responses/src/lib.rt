// Dialog::update_from_response.
#![tactic(auto)]

ghost use Rattle.std.specs.Prelude.{◌≡◌, ◌≤◌, length, take, Ok};
ghost use Rattle.limits.specs.Limits.{rust_limits};
ghost use Rattle.output.specs.Output.{fitted, leaves, written_from};
ghost use Rattle.headers.specs.SessionExpires.{expires_named};
ghost use Rattle.route_set.specs.Routes.{routes_of};
ghost use Rattle.record.specs.Changes.{with_numbers, with_routes};
ghost use Rattle.record.specs.NumbersForm.{meaning, state_in};
ghost use Rattle.image_edit.specs.Changes.{changed};
ghost use Rattle.image_edit.specs.Stands.{StandsAt};
ghost use Rattle.dialog_rules.specs.Updates.{retargeted, confirms, routes_or, interval_from, confirmed_by, response_update};
ghost use Rattle.store_steps.specs.AtPlace.{stepped};
ghost use Rattle.dialog_updates.specs.Messages.{responded};

use dialog_changes::read_used;
use dialog_updates::revise;
use image_edit::RecordPlace;
use limits::Refusal;
use msg::Response;
use record::{Numbers, State};
use route_section::measure_routes;
use routes_edit::Renewal;

// On one record, given as its image with room behind it: 1, 2, 3, 18. Answers the image's new length.
// Kept (5, 6): C says how many of the lent bytes are used, perhaps too many: 3, in its turn among the causes; so the two go on as given.
pub fn update_from_response(
    response: Response<'_>,
    bytes: &mut [u8],
    used: usize,
) -> Result<usize, Refusal>
    ensures value { result ≡ written_from (responded rust_limits response.entry.status response.entry.block.now bytes.old used) }
    ensures bytes_after { bytes.new ≡ leaves (responded rust_limits response.entry.status response.entry.block.now bytes.old used) bytes.old }
{
    msg::check_block(response.block)?;
    let p = read_used(bytes, used)?;
    response_at(bytes, p, response)
}

// On the record that was read at a place of a store's used bytes, by a block that was checked: 18. Answers the new used length.
// Kept (5): the bytes are `&mut`: a struct of them and the place isn't Copy, so that it would be made anew for each further call, and clauses
// would say `p.exit.0.now` for `bytes.new`.
// Kept (5): the fact is one inequality; a struct with it as its ghost field would be made at each call and its bytes taken out at each reading.
pub fn response_at(
    bytes: &mut [u8],
    p: RecordPlace,
    response: Response<'_>,
) -> Result<usize, Refusal>
    requires stands { StandsAt bytes.old p }
    requires block_bound { length response.block.now ≤ 8192 }
    ensures value { result ≡ written_from (stepped (λ v. Ok (response_update rust_limits response.entry.status response.entry.block.now v)) (length bytes.old) p.at (take p.used bytes.old)) }
    ensures bytes_after { bytes.new ≡ leaves (stepped (λ v. Ok (response_update rust_limits response.entry.status response.entry.block.now v)) (length bytes.old) p.at (take p.used bytes.old)) bytes.old }
{
    let numbers = p.record.numbers;
    let state = numbers.state;
    let x = confirmed_by(with_interval(numbers, response.block), response.status);
    if confirming(state, response.status) {
        return confirm_at(bytes, p, x, response.block);
    }
    revise(bytes, p, x, response.block)
}

// The 2xx that confirms an Early record: the block's routes too, where they can be read and there are some.
// Kept (5): the bytes are `&mut`: a struct of them and the place isn't Copy, so that it would be made anew for each further call, and clauses
// would say `p.exit.0.now` for `bytes.new`.
// Kept (5): the fact is one inequality; a struct with it as its ghost field would be made at each call and its bytes taken out at each reading.
fn confirm_at(
    bytes: &mut [u8],
    p: RecordPlace,
    numbers: Numbers,
    block: &[u8],
) -> Result<usize, Refusal>
    requires stands { StandsAt bytes.old p }
    requires block_bound { length block.now ≤ 8192 }
    ensures value { result ≡ written_from (fitted (length bytes.old) (changed (λ v. retargeted block.now (with_numbers (meaning numbers) (with_routes (routes_or v.routes (routes_of rust_limits block.now)) v))) p.at (take p.used bytes.old))) }
    ensures bytes_after { bytes.new ≡ leaves (fitted (length bytes.old) (changed (λ v. retargeted block.now (with_numbers (meaning numbers) (with_routes (routes_or v.routes (routes_of rust_limits block.now)) v))) p.at (take p.used bytes.old))) bytes.old }
{
    match measure_routes(block) {
        Ok(peer) if peer.count != 0 => revise(bytes, p, Renewal { numbers, peer }, block),
        _ => revise(bytes, p, numbers, block),
    }
}

// A 2xx confirms.
fn confirmed_by(x: Numbers, status: u16) -> Numbers
    ensures { meaning result ≡ confirmed_by status (meaning x) }
{
    if msg::is_success(status) {
        return x.confirm();
    }
    x
}

// A readable Session-Expires replaces seconds and refresher both.
fn with_interval(x: Numbers, block: &[u8]) -> Numbers
    ensures { meaning result ≡ interval_from (expires_named block.now) (meaning x) }
{
    let Some((seconds, refresher)) = headers::expires_named(block) else {
        return x;
    };
    Numbers {
        seconds: Some(seconds),
        refresher,
        ..x
    }
}

// Whether a response is the 2xx that confirms a record in this state.
fn confirming(state: State, status: u16) -> bool
    ensures { result ≡ confirms status (state_in state) }
{
    matches!(state, State::Early) && msg::is_success(status)
}
