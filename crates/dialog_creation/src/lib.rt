// Dialog::new_uac and Dialog::new_uas: a new record's image from a request and its response.
#![tactic(auto)]

ghost use Rattle.std.specs.Prelude.{◌≡◌, ◌≤◌, length};
ghost use Rattle.limits.specs.Limits.{rust_limits};
ghost use Rattle.output.specs.Output.{leaves, written_from};
ghost use Rattle.record.specs.Record.{uac, uas};
ghost use Rattle.dialog_creation.specs.NewImage.{new_image, made_image};
ghost use Rattle.creation_checks.specs.Given.{creation_of, checked_of};
ghost use Rattle.creation_readings.specs.Steps.{side_for};

use creation_checks::{NewDialog, check_estimates, check_forms, check_texts, check_uris};
use creation_readings::{Side, Uac, Uas, read_rest, state_for, target};
use creation_writing::write_image;
use image_writer::UriTexts;
use limits::Refusal;

// The record of a dialog that our request opens, by the response to it, as an image over the front of `out`. The method is measured and no
// more: 1, 2, 6, 4, 5, 7, 8, 4, 9, 10, 13 with 90, 14, 18.
// Kept (5): `out` is `&mut`: in `NewDialog` it would make that no Copy, and the checks take it by value one after another.
pub fn new_uac(c: NewDialog<'_>, out: &mut [u8]) -> Result<usize, Refusal>
    ensures value { result ≡ written_from (new_image rust_limits uac (creation_of c.entry) (length out.old)) }
    ensures out_after { out.new ≡ leaves (new_image rust_limits uac (creation_of c.entry) (length out.old)) out.old }
{
    create::<Uac>(c, out)
}

// The record of a dialog that a request to us opens, by our response to it: the same refusals.
// Kept (5): `out` is `&mut`: in `NewDialog` it would make that no Copy, and the checks take it by value one after another.
pub fn new_uas(c: NewDialog<'_>, out: &mut [u8]) -> Result<usize, Refusal>
    ensures value { result ≡ written_from (new_image rust_limits uas (creation_of c.entry) (length out.old)) }
    ensures out_after { out.new ≡ leaves (new_image rust_limits uas (creation_of c.entry) (length out.old)) out.old }
{
    create::<Uas>(c, out)
}

// Either of the two: 1, 2 and 6, and then all that depends on what is read.
// Kept (5): `out` is `&mut`: in `NewDialog` it would make that no Copy, and the checks take it by value one after another.
fn create<S: Side>(c: NewDialog<'_>, out: &mut [u8]) -> Result<usize, Refusal>
    ensures value { result ≡ written_from (new_image rust_limits (side_for S.WE_ARE_UAC) (creation_of c.entry) (length out.old)) }
    ensures out_after { out.new ≡ leaves (new_image rust_limits (side_for S.WE_ARE_UAC) (creation_of c.entry) (length out.old)) out.old }
{
    check_texts(c)?;
    check_forms(c)?;
    check_uris(c)?;
    make::<S>(c, out)
}

// The same of what has passed these checks.
// Kept (5): `NewDialog` is what is given, of any length, and 1 is answered for more; a second struct of what `check_texts` passed would be made for
// these calls alone.
// Kept (5): `out` is `&mut`: in `NewDialog` it would make that no Copy, and the checks take it by value one after another.
fn make<S: Side>(c: NewDialog<'_>, out: &mut [u8]) -> Result<usize, Refusal>
    requires { (length c.request.block.now ≤ 8192) × (length c.response.block.now ≤ 8192) × (length c.local_uri.now ≤ 8192) × (length c.remote_uri.now ≤ 8192) }
    ensures value { result ≡ written_from (made_image rust_limits (side_for S.WE_ARE_UAC) (checked_of c.entry) (length out.old)) }
    ensures out_after { out.new ≡ leaves (made_image rust_limits (side_for S.WE_ARE_UAC) (checked_of c.entry) (length out.old)) out.old }
{
    let id = S::identifier(c.response.block).ok_or(Refusal::MissingHeader)?;
    let state = state_for(c.response.status).ok_or(Refusal::InvalidStatus)?;
    let peer = S::peer_block(c);
    let target = target(peer, c.remote_uri);
    check_estimates(c, target)?;
    let (numbers, routes) = read_rest::<S>(state, c, peer)?;
    let id = id.texts(c.response.block);
    let uris = UriTexts {
        target,
        local_uri: c.local_uri,
        remote_uri: c.remote_uri,
    };
    write_image::<S>(out, numbers, id, uris, routes)
}
