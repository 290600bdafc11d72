// The steps that no message makes, on the record that stands at a place of lent bytes: of a store, or of one image.
#![tactic(auto)]

ghost use Rattle.std.specs.Prelude.{◌≡◌, length, take, Ok};
ghost use Rattle.limits.specs.Limits.{rust_limits};
ghost use Rattle.output.specs.Output.{leaves, written_from};
ghost use Rattle.record.specs.NumbersForm.{meaning};
ghost use Rattle.record.specs.Rules.{local_step};
ghost use Rattle.image_edit.specs.Stands.{StandsAt};
ghost use Rattle.dialog_rules.specs.Updates.{terminate_update, local_update, interval_update};
ghost use Rattle.store_steps.specs.AtPlace.{stepped, raised_with};

use image_edit::RecordPlace;
use limits::Refusal;
use record_edit::revise_numbers;

// The record stays as long as it was, so that it never gets 18. Answers the new used length.
// Kept (5): the bytes are `&mut`: a struct of them and the place isn't Copy, so that it would be made anew for each further call, and clauses
// would say `p.exit.0.now` for `bytes.new`.
pub fn terminate_at(bytes: &mut [u8], p: RecordPlace) -> Result<usize, Refusal>
    requires stands { StandsAt bytes.old p }
    ensures value { result ≡ written_from (stepped (λ v. Ok (terminate_update v)) (length bytes.old) p.at (take p.used bytes.old)) }
    ensures bytes_after { bytes.new ≡ leaves (stepped (λ v. Ok (terminate_update v)) (length bytes.old) p.at (take p.used bytes.old)) bytes.old }
{
    revise_numbers(bytes, p, p.record.numbers.terminate())
}

// 13 with 90, 14, 18. Answers the new used length.
// Kept (5): the bytes are `&mut`: a struct of them and the place isn't Copy, so that it would be made anew for each further call, and clauses
// would say `p.exit.0.now` for `bytes.new`.
pub fn interval_at(bytes: &mut [u8], p: RecordPlace, seconds: u64) -> Result<usize, Refusal>
    requires stands { StandsAt bytes.old p }
    ensures value { result ≡ written_from (stepped (λ v. interval_update rust_limits seconds v) (length bytes.old) p.at (take p.used bytes.old)) }
    ensures bytes_after { bytes.new ≡ leaves (stepped (λ v. interval_update rust_limits seconds v) (length bytes.old) p.at (take p.used bytes.old)) bytes.old }
{
    let x = p.record.numbers.set_session_expires(seconds)?;
    revise_numbers(bytes, p, x)
}

// 18. Answers its new local number, and the new used length.
// Kept (5): the bytes are `&mut`: a struct of them and the place isn't Copy, so that it would be made anew for each further call, and clauses
// would say `p.exit.0.now` for `bytes.new`.
pub fn local_at(bytes: &mut [u8], p: RecordPlace) -> Result<(u32, usize), Refusal>
    requires stands { StandsAt bytes.old p }
    ensures value { result ≡ raised_with (local_step (meaning p.record.numbers)).local (written_from (stepped (λ v. Ok (local_update v)) (length bytes.old) p.at (take p.used bytes.old))) }
    ensures bytes_after { bytes.new ≡ leaves (stepped (λ v. Ok (local_update v)) (length bytes.old) p.at (take p.used bytes.old)) bytes.old }
{
    let next = p.record.numbers.next_local_cseq();
    let n = revise_numbers(bytes, p, next)?;
    Ok((next.local, n))
}
