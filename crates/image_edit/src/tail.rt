// What a change writes behind the URIs of a record: its numbers, or its numbers and its routes.
ghost use Rattle.std.specs.Prelude.{◌≡◌, ◌++◌, ◌+◌, ◌≤◌, ℕ, List, length, refl};
ghost use Rattle.edit.specs.Edit.{put_at};
ghost use Rattle.record.specs.Record.{Numbers, Record};
ghost use Rattle.record.specs.Changes.{with_numbers, with_routes};
ghost use Rattle.record.specs.NumbersForm.{meaning};
ghost use Rattle.image.specs.Places.{record_places};
ghost use Rattle.image.specs.declared.RecordAt.{RecordAt};
ghost use Rattle.image_writer.specs.Parts.{numbers_bytes};
ghost use Rattle.route_section.specs.Section.{section_of};
ghost use Rattle.image_writer.proofs.FieldLaws.{numbers_size_lem};
ghost use native.Mathlib.Omega.{arith};

use image::RecordAt;
use image_writer::{numbers_size, write_numbers};
use record::Numbers;

// `makes` is what becomes of the record: it has the numbers `values` and the routes `routes`. Its `section` stands where `old` stood, up to a
// place `ended` of the record that was read; `rest` is what the record has behind it.
pub trait Tail: Copy {
    ghost makes: { Self → Record → Record };

    ghost values: { Self → Numbers };

    ghost routes: { Self → Record → List (List ℕ) };

    ghost section: { Self → List ℕ };

    ghost old: { Record → List ℕ };

    ghost rest: { Record → List ℕ };

    ghost ended: { RecordAt → ℕ };

    ghost counted: { Self → RecordAt → ℕ };

    fn numbers(self) -> Numbers
        ensures { meaning result ≡ values self };

    // How many bytes the section has.
    fn size(self) -> usize
        ensures value { result ≡ length (section self) }
        ensures upper_bound { result ≤ 500020 };

    // Where the section ends that goes.
    fn end(r: RecordAt) -> usize
        ensures { result ≡ ended r };

    // How many routes the record has then.
    fn count(self, r: RecordAt) -> usize
        ensures { result ≡ counted self r };

    // Kept (5): a writer of `&mut` bytes and place would need a clause that names the writer's reference in each function that is lent it, beside
    // those about bytes and place: three where two stand.
    fn write(self, bytes: &mut [u8], at: usize)
        requires { at + length (section self) ≤ length bytes.old }
        ensures { bytes.new ≡ put_at at (section self) bytes.old };

    ghost made: { (x : Self) (v : Record) → makes x v ≡ with_numbers (values x) (with_routes (routes x v) v) };

    ghost tail_is: { (v : Record) → numbers_bytes v.numbers ++ section_of v.routes ≡ old v ++ rest v };

    ghost new_tail: { (x : Self) (v : Record) → numbers_bytes (values x) ++ section_of (routes x v) ≡ section x ++ rest v };

    ghost end_is: { (at : ℕ) (v : Record) → ended (record_places at v) ≡ (record_places at v).uris.end + length (old v) };

    ghost count_is: { (x : Self) (at : ℕ) (v : Record) → counted x (record_places at v) ≡ length (routes x v) };
}

impl Tail for Numbers {
    ghost makes = { λ x. with_numbers (meaning x) };

    ghost values = { meaning };

    ghost routes = { λ x v. v.routes };

    ghost section = { λ x. numbers_bytes (meaning x) };

    ghost old = { λ v. numbers_bytes v.numbers };

    ghost rest = { λ v. section_of v.routes };

    ghost ended = { λ r. r.routes };

    ghost counted = { λ x r. r.route_count };

    ghost made = { λ x v. refl };

    ghost tail_is = { λ v. refl };

    ghost new_tail = { λ x v. refl };

    ghost end_is = { λ at v. Prim.omega (arith, numbers_size_lem v.numbers) };

    ghost count_is = { λ x at v. refl };

    fn numbers(self) -> Numbers {
        self
    }

    fn size(self) -> usize {
        numbers_size(self)
    }

    fn end(r: RecordAt) -> usize {
        r.routes
    }

    fn count(self, r: RecordAt) -> usize {
        r.route_count
    }

    // Kept (5): the parameters of `Tail::write`, which says why.
    fn write(self, bytes: &mut [u8], at: usize) {
        write_numbers(bytes, at, self);
    }
}
