// The request entry: the record that a request names, changed by it.
#![tactic(auto)]

ghost use Rattle.std.specs.Prelude.{◌≡◌, None};
ghost use Rattle.limits.specs.Settings.{limits_in};
ghost use Rattle.msg.specs.Block.{lines_of};
ghost use Rattle.msg.specs.Table.{table_of};
ghost use Rattle.book.specs.Book.{named_in};
ghost use Rattle.dialog_manager.specs.Answers.{written_in};
ghost use Rattle.store_entries.specs.Entries.{used_after, requesting, spot_named, standing_of, Ready};

use dialog_id::request_id_in;
use dialog_requests::request_by;
use image_edit::RecordPlace;
use limits::{Refusal, Settings};
use msg::{HeaderTable, Request};
use store_entries::locate;

// The request entry: 1, 2, 3, 15, 4, 9; ACK: 11; others: 10, 11, 12; 18. The settings are taken as they are: 30 is the C function's. The record that the block names is changed as by Dialog::update_from_request.
// Kept (5, 6): C says how many of the lent bytes are used, perhaps too many: 3, in its turn among the causes; so both are taken as given.
pub fn request(
    settings: Settings,
    request: Request<'_>,
    bytes: &mut [u8],
    used: usize,
) -> Result<usize, Refusal>
    ensures value { result ≡ written_in (requesting (limits_in settings) request.entry.method.now request.entry.block.now bytes.old used) }
    ensures bytes_after { bytes.new ≡ (requesting (limits_in settings) request.entry.method.now request.entry.block.now bytes.old used).bytes }
    ensures used_value { used_after result used ≡ (requesting (limits_in settings) request.entry.method.now request.entry.block.now bytes.old used).used }
{
    text::check_length(request.method)?;
    let t = msg::read_headers(request.block)?;
    let cseq = t.cseq;
    let contact = t.contact;
    let p = locate_named(bytes, used, request.block, t)?;
    request_by(settings, bytes, p, request, cseq, contact)
}

// By the identifier that a block names, if it names one: 3, 15. A request from the peer has From as remote tag.
// Kept (5, 6): 3 comes after 2: the two that are called check the used length, so that the caller cannot.
#[tactic(auto, using(crate::proofs::RequestLaws::asked_within, crate::proofs::RequestLaws::spot_asked))]
fn locate_named(
    bytes: &[u8],
    used: usize,
    block: &[u8],
    t: HeaderTable,
) -> Result<RecordPlace, Refusal>
    requires { t ≡ table_of (lines_of block.now) }
    ensures value { result ≡ standing_of used (spot_named (named_in block.now) bytes.now used) }
    ensures ready { Ready bytes.now result }
{
    let Some(i) = request_id_in(block, t) else {
        return nowhere(bytes, used);
    };
    locate(bytes, used, i.swapped().texts(block))
}

// No identifier is named: 3, 15.
// Kept (5, 6): that the used length lies within the lent bytes is checked here, by `count`.
fn nowhere(bytes: &[u8], used: usize) -> Result<RecordPlace, Refusal>
    ensures value { result ≡ standing_of used (spot_named None bytes.now used) }
    ensures ready { Ready bytes.now result }
{
    store::count(bytes, used)?;
    Err(Refusal::NotFound)
}
