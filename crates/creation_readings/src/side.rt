// The side of the dialog that we are, as a type: by it a creation picks the message, the tags and the number that are ours.
ghost use Rattle.std.specs.Prelude.{◌≡◌, Bool, true, false, refl};
ghost use Rattle.dialog_id.specs.DialogId.{id_from};
ghost use Rattle.creation_readings.specs.Steps.{peer_of, identifier_for, sequences_for};

use creation_checks::NewDialog;
use dialog_id::DialogId;
use route_section::{AsReceived, Order, Reversed};

pub trait Side {
    ghost WE_ARE_UAC: { Bool };

    const WE_ARE_UAC: bool;

    // The message with Contact and Record-Route: the response for uac, the request for uas.
    fn peer_block<'a>(c: NewDialog<'a>) -> &'a [u8]
        ensures { result.now ≡ peer_of WE_ARE_UAC c.entry.request.block.now c.entry.response.block.now };

    // The identifier of the response: From has the uac's tag.
    fn identifier(response: &[u8]) -> Option<DialogId>
        ensures { result ≡ id_from (identifier_for WE_ARE_UAC response.now) };

    // The local and the remote number, by the request's: it is the uac's local one and the uas's remote one.
    fn sequences(n: u32) -> (u32, u32)
        ensures { result ≡ sequences_for WE_ARE_UAC n };

    // The order in which the peer's routes stand in the record: reversed for uac.
    type Order: Order;

    ghost order: { Self.Order.reversed ≡ WE_ARE_UAC };
}

// We sent the request.
pub struct Uac {}

impl Side for Uac {
    ghost WE_ARE_UAC = { true };

    const WE_ARE_UAC: bool = true;

    fn peer_block<'a>(c: NewDialog<'a>) -> &'a [u8] {
        c.response.block
    }

    fn identifier(response: &[u8]) -> Option<DialogId> {
        dialog_id::request_id(response)
    }

    fn sequences(n: u32) -> (u32, u32) {
        (n, 0)
    }

    type Order = Reversed;

    ghost order = { refl };
}

// We answered it.
pub struct Uas {}

impl Side for Uas {
    ghost WE_ARE_UAC = { false };

    const WE_ARE_UAC: bool = false;

    fn peer_block<'a>(c: NewDialog<'a>) -> &'a [u8] {
        c.request.block
    }

    fn identifier(response: &[u8]) -> Option<DialogId> {
        dialog_id::read_id(response, b"To", b"From")
    }

    fn sequences(n: u32) -> (u32, u32) {
        (0, n)
    }

    type Order = AsReceived;

    ghost order = { refl };
}
