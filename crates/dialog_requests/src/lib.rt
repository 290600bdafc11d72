// Dialog::update_from_request.
#![tactic(auto)]

ghost use Rattle.std.specs.Prelude.{◌≡◌, ◌≤◌, length, take};
ghost use Rattle.limits.specs.Settings.{limits_in};
ghost use Rattle.msg.specs.Block.{lines_of, first_named, found_of};
ghost use Rattle.route_set.specs.Routes.{contact_name};
ghost use Rattle.prack_headers.specs.Sequence.{cseq_name};
ghost use Rattle.output.specs.Output.{leaves, written_from};
ghost use Rattle.record.specs.NumbersForm.{kind_in};
ghost use Rattle.image_edit.specs.Stands.{StandsAt};
ghost use Rattle.dialog_rules.specs.Updates.{kind_of, request_update};
ghost use Rattle.store_steps.specs.AtPlace.{stepped};
ghost use Rattle.dialog_updates.specs.Messages.{requested};

use dialog_changes::read_used;
use dialog_updates::revise_to;
use image_edit::RecordPlace;
use limits::{Refusal, Settings};
use msg::Request;
use record::Method;
use text::Span;

// On one record, given as its image with room behind it; the settings are taken as they are, 30 is the C function's: 1, 2, 3, 4, 9; ACK: 11; others: 10, 11, 12; 18. Answers the image's new length.
// Kept (5, 6): C says how many of the lent bytes are used, perhaps too many: 3, in its turn among the causes; so both are taken as given.
pub fn update_from_request(
    settings: Settings,
    request: Request<'_>,
    bytes: &mut [u8],
    used: usize,
) -> Result<usize, Refusal>
    ensures value { result ≡ written_from (requested (limits_in settings) request.entry.method.now request.entry.block.now bytes.old used) }
    ensures bytes_after { bytes.new ≡ leaves (requested (limits_in settings) request.entry.method.now request.entry.block.now bytes.old used) bytes.old }
{
    text::check_length(request.method)?;
    msg::check_block(request.block)?;
    let p = read_used(bytes, used)?;
    request_at(settings, bytes, p, request)
}

// On the record that was read at a place of a store's used bytes, by a block that was checked: 4, 9; ACK: 11; others: 10, 11, 12; 18.
// Answers the new used length.
// Kept (5): the bytes are `&mut`: a struct of them and the place isn't Copy, so that it would be made anew for each further call, and clauses
// would say `p.exit.0.now` for `bytes.new`.
// Kept (5): the fact is one inequality; a struct with it as its ghost field would be made at each call and its bytes taken out at each reading.
pub fn request_at(
    settings: Settings,
    bytes: &mut [u8],
    p: RecordPlace,
    request: Request<'_>,
) -> Result<usize, Refusal>
    requires stands { StandsAt bytes.old p }
    requires block_bound { length request.block.now ≤ 8192 }
    ensures value { result ≡ written_from (stepped (request_update (limits_in settings) (kind_of request.entry.method.now) request.entry.block.now) (length bytes.old) p.at (take p.used bytes.old)) }
    ensures bytes_after { bytes.new ≡ leaves (stepped (request_update (limits_in settings) (kind_of request.entry.method.now) request.entry.block.now) (length bytes.old) p.at (take p.used bytes.old)) bytes.old }
{
    let cseq = msg::find(request.block, b"CSeq");
    let contact = msg::find(request.block, b"Contact");
    request_by(settings, bytes, p, request, cseq, contact)
}

// The same with the first lines of CSeq and Contact that were looked up.
// Kept (5): the bytes are `&mut`: a struct of them and the place isn't Copy, so that it would be made anew for each further call, and clauses
// would say `p.exit.0.now` for `bytes.new`.
// Kept (1): document 01 has the reading of a number opened by `let .. else`.
// Kept (5): the facts are of these parameters; a struct of the block and both lines would be made for this call in two callers, which have them apart.
pub fn request_by(
    settings: Settings,
    bytes: &mut [u8],
    p: RecordPlace,
    request: Request<'_>,
    cseq: Option<(Span, usize)>,
    contact: Option<(Span, usize)>,
) -> Result<usize, Refusal>
    requires stands { StandsAt bytes.old p }
    requires block_value { (length request.block.now ≤ 8192) × (cseq ≡ found_of (first_named cseq_name (lines_of request.block.now))) × (contact ≡ found_of (first_named contact_name (lines_of request.block.now))) }
    ensures value { result ≡ written_from (stepped (request_update (limits_in settings) (kind_of request.entry.method.now) request.entry.block.now) (length bytes.old) p.at (take p.used bytes.old)) }
    ensures bytes_after { bytes.new ≡ leaves (stepped (request_update (limits_in settings) (kind_of request.entry.method.now) request.entry.block.now) (length bytes.old) p.at (take p.used bytes.old)) bytes.old }
{
    let Some(n) = prack_headers::cseq_at(request.block, cseq) else {
        return Err(Refusal::MissingHeader);
    };
    let numbers = p.record.numbers;
    let x = numbers.request(settings, kind_of(request.method), n)?;
    let target = route_set::contact_at(request.block, contact);
    revise_to(bytes, p, x, request.block, target)
}

// `ACK`, exactly those letters, or any other method.
fn kind_of(method: &[u8]) -> Method
    ensures { kind_in result ≡ kind_of method.now }
{
    if text::equal_text(method, b"ACK") {
        return Method::Ack;
    }
    Method::Other
}
