// A new record's image, written where it fits.
#![tactic(auto)]

ghost use Rattle.std.specs.Prelude.{◌≡◌, ◌||◌, length};
ghost use Rattle.output.specs.Output.{fitted, leaves, written_from};
ghost use Rattle.record.specs.Record.{is_sips};
ghost use Rattle.record.specs.NumbersForm.{meaning};
ghost use Rattle.dialog_id.specs.IdTexts.{ident_of, TextsShort};
ghost use Rattle.image_writer.specs.Parts.{image_of};
ghost use Rattle.route_section.specs.Section.{section_in};
ghost use Rattle.route_section.specs.Measured.{given_by};
ghost use Rattle.creation_writing.specs.NewParts.{parts_for};

use creation_readings::Side;
use dialog_id::IdTexts;
use image_writer::{Front, UriTexts, write_front};
use limits::Refusal;
use record::Numbers;
use route_section::{PeerRoutes, write_routes};

// The image over the front of `out`, by the side that we are: 18.
// Kept (5): the texts of an `IdTexts` are of any length, as C gives them; `Front`, which is made here, has the fact as its ghost field.
pub fn write_image<S: Side>(
    out: &mut [u8],
    numbers: Numbers,
    id: IdTexts<'_>,
    uris: UriTexts<'_>,
    peer: PeerRoutes<'_>,
) -> Result<usize, Refusal>
    requires { TextsShort (ident_of id) }
    ensures value { result ≡ written_from (fitted (length out.old) (image_of (parts_for S.WE_ARE_UAC (meaning numbers) id.entry uris.entry (section_in S.WE_ARE_UAC (given_by peer.entry))))) }
    ensures out_after { out.new ≡ leaves (fitted (length out.old) (image_of (parts_for S.WE_ARE_UAC (meaning numbers) id.entry uris.entry (section_in S.WE_ARE_UAC (given_by peer.entry))))) out.old }
{
    let front = Front {
        numbers,
        we_are_uac: S::WE_ARE_UAC,
        secure: is_secure(uris),
        id,
        uris,
    };
    let n = write_front(out, front, peer.size)?;
    let end = n + peer.size;
    write_routes::<S::Order>(&mut out[n..end], peer.block);
    Ok(end)
}

// Whether the local or the remote URI is `sips`.
fn is_secure(uris: UriTexts<'_>) -> bool
    ensures { result ≡ (is_sips uris.entry.local_uri.now || is_sips uris.entry.remote_uri.now) }
{
    is_sips(uris.local_uri) || is_sips(uris.remote_uri)
}

fn is_sips(t: &[u8]) -> bool
    ensures { result ≡ is_sips t.now }
{
    text::starts_with(t, b"sips:")
}
