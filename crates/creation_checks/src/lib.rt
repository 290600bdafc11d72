// The checks of a creation, each group of causes in its order.
#![tactic(auto)]

ghost use Rattle.std.specs.Prelude.{◌≡◌, ◌≤◌, length};
ghost use Rattle.limits.specs.Limits.{rust_limits};
ghost use Rattle.limits.specs.Outcome.{or_else, check_of};
ghost use Rattle.dialog_rules.specs.Creation.{texts_cause, form_cause, uri_cause, estimate_cause};
ghost use Rattle.creation_checks.specs.Given.{creation_of};

use limits::Refusal;
use msg::{Request, Response};
use text::check_length;

// What a creation is given: the request, the response to it, and the two URIs.
#[derive(Clone, Copy)]
pub struct NewDialog<'a> {
    pub request: Request<'a>,
    pub response: Response<'a>,
    pub local_uri: &'a [u8],
    pub remote_uri: &'a [u8],
}

// 1 of every text.
pub fn check_texts(c: NewDialog<'_>) -> Result<(), Refusal>
    ensures { result ≡ check_of (texts_cause rust_limits (creation_of c.entry)) }
{
    check_length(c.request.method)?;
    check_length(c.request.block)?;
    check_length(c.response.block)?;
    check_length(c.local_uri)?;
    check_length(c.remote_uri)
}

// 2 of the two messages, which are not too long.
// Kept (5): `NewDialog` is what is given, of any length, and 1 is answered for more; a second struct of what `check_texts` passed would be made for
// these calls alone.
pub fn check_forms(c: NewDialog<'_>) -> Result<(), Refusal>
    requires { (length c.request.block.now ≤ 8192) × (length c.response.block.now ≤ 8192) }
    ensures { result ≡ check_of (form_cause (creation_of c.entry)) }
{
    msg::check_block(c.request.block)?;
    msg::check_block(c.response.block)
}

// 6 of the two URIs.
pub fn check_uris(c: NewDialog<'_>) -> Result<(), Refusal>
    ensures { result ≡ check_of (or_else (uri_cause c.entry.local_uri.now) (uri_cause c.entry.remote_uri.now)) }
{
    check_uri(c.local_uri)?;
    check_uri(c.remote_uri)
}

// Kept (1): document 01 names `let .. else` for the reading of a URI.
fn check_uri(t: &[u8]) -> Result<(), Refusal>
    ensures { result ≡ check_of (uri_cause t.now) }
{
    let Some(_) = uri::read_uri(t) else {
        return Err(Refusal::InvalidUri);
    };
    Ok(())
}

// 7 of the two URIs and of the target.
pub fn check_estimates(c: NewDialog<'_>, target: &[u8]) -> Result<(), Refusal>
    ensures { result ≡ check_of (or_else (estimate_cause rust_limits c.entry.local_uri.now) (or_else (estimate_cause rust_limits c.entry.remote_uri.now) (estimate_cause rust_limits target.now))) }
{
    check_estimate(c.local_uri)?;
    check_estimate(c.remote_uri)?;
    check_estimate(target)
}

// Kept (1): document 01 names `let .. else` for the reading of a URI.
fn check_estimate(t: &[u8]) -> Result<(), Refusal>
    ensures { result ≡ check_of (estimate_cause rust_limits t.now) }
{
    let Some(u) = uri::read_uri(t) else {
        return Ok(());
    };
    if uri::over_estimate(u) {
        return Err(Refusal::UriTooLong);
    }
    Ok(())
}
