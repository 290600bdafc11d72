// A record's numbers, or its numbers and its routes, with or without its target, changed in its place in lent bytes: 18 where the result is larger
// than they are. The caller has read the record.
#![tactic(auto)]

ghost use Rattle.std.specs.Prelude.{◌≡◌, ◌≤◌, ◌<◌, length, take};
ghost use Rattle.edit.specs.Edit.{over};
ghost use Rattle.output.specs.Output.{fitted, leaves, written_from};
ghost use Rattle.record.specs.Changes.{with_target};
ghost use Rattle.image_edit.specs.Changes.{changed};
ghost use Rattle.image_edit.specs.Stands.{StandsAt};

use image_edit::{RecordPlace, Tail, change_numbers};
use limits::Refusal;
use record_gaps::{Gap, open_gaps, write_head};

// Other numbers for the record, or other numbers and routes: 18. Answers the new used length.
// Kept (5): the bytes are `&mut`: a struct of them and the place isn't Copy, so that it would be made anew for each further call, and clauses
// would say `p.exit.0.now` for `bytes.new`.
pub fn revise_numbers<T: Tail>(bytes: &mut [u8], p: RecordPlace, tail: T) -> Result<usize, Refusal>
    requires stands { StandsAt bytes.old p }
    ensures value { result ≡ written_from (fitted (length bytes.old) (changed (T.makes tail) p.at (take p.used bytes.old))) }
    ensures bytes_after { bytes.new ≡ leaves (fitted (length bytes.old) (changed (T.makes tail) p.at (take p.used bytes.old))) bytes.old }
{
    let r = p.record;
    let uris = r.uris;
    let old = T::end(r) - uris.end;
    let size = p.used - old + tail.size();
    if bytes.len() < size {
        return Err(Refusal::NoRoom);
    }
    Ok(change_numbers(bytes, p, tail))
}

// The same and another target, a text of at most 65,535 bytes: 18.
// Kept (5): a type of a short text would be put around the target here and taken off before codec's `write_text`, which takes bytes.
// Kept (5): the bytes are `&mut`: a struct of them and the place isn't Copy, so that it would be made anew for each further call, and clauses
// would say `p.exit.0.now` for `bytes.new`.
pub fn revise_numbers_and_target<T: Tail>(
    bytes: &mut [u8],
    p: RecordPlace,
    tail: T,
    target: &[u8],
) -> Result<usize, Refusal>
    requires stands { StandsAt bytes.old p }
    requires target_bound { length target.now < 65536 }
    ensures value { result ≡ written_from (fitted (length bytes.old) (changed (λ v. with_target target.now (T.makes tail v)) p.at (take p.used bytes.old))) }
    ensures bytes_after { bytes.new ≡ leaves (fitted (length bytes.old) (changed (λ v. with_target target.now (T.makes tail v)) p.at (take p.used bytes.old))) bytes.old }
{
    let r = p.record;
    let uris = r.uris;
    let text = uris.target;
    let old = T::end(r) - uris.end;
    let result = p.used - text.length - old + target.len() + tail.size();
    if bytes.len() < result {
        return Err(Refusal::NoRoom);
    }
    Ok(change_numbers_and_target(bytes, p, tail, target))
}

// The same where it fits. The new used length.
// Kept (5): a type of a short text would be put around the target and taken off before codec's `write_text`, which takes bytes.
// Kept (5): the bytes are `&mut`: a struct of them and the place isn't Copy, so that it would be made anew for each further call, and clauses
// would say `p.exit.0.now` for `bytes.new`.
fn change_numbers_and_target<T: Tail>(
    bytes: &mut [u8],
    p: RecordPlace,
    tail: T,
    target: &[u8],
) -> usize
    requires stands { StandsAt bytes.old p }
    requires target_bound { length target.now < 65536 }
    requires bytes_in_bounds { length (changed (λ v. with_target target.now (T.makes tail v)) p.at (take p.used bytes.old)) ≤ length bytes.old }
    ensures value { result ≡ length (changed (λ v. with_target target.now (T.makes tail v)) p.at (take p.used bytes.old)) }
    ensures bytes_after { bytes.new ≡ over (changed (λ v. with_target target.now (T.makes tail v)) p.at (take p.used bytes.old)) bytes.old }
{
    let r = p.record;
    let uris = r.uris;
    let old = uris.target;
    let start = old.start;
    let old_length = old.length;
    let from = uris.end;
    let first = Gap {
        at: start,
        old_length,
        new_length: target.len(),
    };
    let second = Gap {
        at: from,
        old_length: T::end(r) - from,
        new_length: tail.size(),
    };
    let n = open_gaps(bytes, p.used, first, second);
    let to = start + target.len() + (from - (start + old_length));
    tail.write(bytes, to);
    write_head(bytes, p, tail.numbers(), tail.count(r), target);
    n
}
