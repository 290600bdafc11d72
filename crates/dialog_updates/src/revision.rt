// A record's numbers changed, or its numbers and its routes, and its target to the Contact's URI where a block has a readable one.
ghost use Rattle.std.specs.Prelude.{◌≡◌, ◌<◌, length, take};
ghost use Rattle.output.specs.Output.{fitted, leaves, written_from};
ghost use Rattle.image_edit.specs.Changes.{changed};
ghost use Rattle.image_edit.specs.Stands.{StandsAt};
ghost use Rattle.route_set.specs.Routes.{contact_of, contact_from};
ghost use Rattle.dialog_rules.specs.Updates.{retargeted};

use image_edit::{RecordPlace, Tail};
use limits::Refusal;
use record_edit::{revise_numbers, revise_numbers_and_target};
use text::Span;

// 18. Answers the new used length.
// Kept (5): the bytes are `&mut`: a struct of them and the place isn't Copy, so that it would be made anew for each further call, and clauses
// would say `p.exit.0.now` for `bytes.new`.
pub fn revise<T: Tail>(
    bytes: &mut [u8],
    p: RecordPlace,
    tail: T,
    block: &[u8],
) -> Result<usize, Refusal>
    requires stands { StandsAt bytes.old p }
    requires block_bound { length block.now < 65536 }
    ensures value { result ≡ written_from (fitted (length bytes.old) (changed (λ v. retargeted block.now (T.makes tail v)) p.at (take p.used bytes.old))) }
    ensures bytes_after { bytes.new ≡ leaves (fitted (length bytes.old) (changed (λ v. retargeted block.now (T.makes tail v)) p.at (take p.used bytes.old))) bytes.old }
{
    let contact = route_set::find_contact(block);
    revise_to(bytes, p, tail, block, contact)
}

// The same with the Contact that was read.
// Kept (5): the bytes are `&mut`: a struct of them and the place isn't Copy, so that it would be made anew for each further call, and clauses
// would say `p.exit.0.now` for `bytes.new`.
pub fn revise_to<T: Tail>(
    bytes: &mut [u8],
    p: RecordPlace,
    tail: T,
    block: &[u8],
    contact: Option<Span>,
) -> Result<usize, Refusal>
    requires stands { StandsAt bytes.old p }
    requires block_value { (length block.now < 65536) × (contact ≡ contact_from (contact_of block.now)) }
    ensures value { result ≡ written_from (fitted (length bytes.old) (changed (λ v. retargeted block.now (T.makes tail v)) p.at (take p.used bytes.old))) }
    ensures bytes_after { bytes.new ≡ leaves (fitted (length bytes.old) (changed (λ v. retargeted block.now (T.makes tail v)) p.at (take p.used bytes.old))) bytes.old }
{
    let Some(c) = contact else {
        return revise_numbers(bytes, p, tail);
    };
    revise_numbers_and_target(bytes, p, tail, c.text(block))
}
