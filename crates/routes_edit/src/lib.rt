// A record's numbers and its routes in one step: what a 2xx gives that confirms an Early record.
#![tactic(auto)]

ghost use Rattle.std.specs.Prelude.{◌≡◌, true, [], ◌++◌, ◌+◌, List, Result};
ghost use mathlib.Core.Path.{sym, ap, ◌∙◌};
ghost use mathlib.Core.List.{append-nil};
ghost use native.Mathlib.Omega.{arith};
ghost use lib.ListN.{length-append};
ghost use Rattle.limits.specs.declared.Refusal.{Refusal};
ghost use Rattle.text.specs.Text.{Piece};
ghost use Rattle.record.specs.NumbersForm.{meaning};
ghost use Rattle.image_writer.specs.Parts.{numbers_bytes};
ghost use Rattle.image_writer.proofs.FieldLaws.{numbers_size_lem};
ghost use Rattle.image_edit.proofs.RoutesLaws.{measured, routes_long};
ghost use Rattle.route_section.specs.Section.{route_texts, section_in, section_of};
ghost use Rattle.route_section.specs.Measured.{Measured, given_by};
ghost use Rattle.routes_edit.specs.Rerouted.{renewed_by};

use image::RecordAt;
use image_edit::Tail;
use image_writer::{numbers_size, write_numbers};
use record::Numbers;
use route_section::{PeerRoutes, Reversed, write_routes};

// What a record is given by the response that confirms it: its new numbers, the state among them, and the peer's routes, which were measured.
#[derive(Clone, Copy)]
pub struct Renewal<'a> {
    pub numbers: Numbers,
    pub peer: PeerRoutes<'a>,
    pub ghost measured: { Measured peer },
}

// The numbers, and the routes of the block, reversed, behind them.
impl Tail for Renewal<'_> {
    ghost makes = { λ r. renewed_by (meaning r.numbers) (given_by r.peer) };

    ghost values = { λ r. meaning r.numbers };

    ghost routes = { λ r v. route_texts true (measured r.peer r.measured).pieces };

    ghost section = { λ r. numbers_bytes (meaning r.numbers) ++ section_in true (given_by r.peer) };

    ghost old = { λ v. numbers_bytes v.numbers ++ section_of v.routes };

    ghost rest = { λ v. [] };

    ghost ended = { λ r. r.end };

    ghost counted = { λ r at. r.peer.count };

    ghost made = { λ r v. ap (λ (o : Result (List Piece) Refusal). renewed_by (meaning r.numbers) o v) (measured r.peer r.measured).is };

    ghost tail_is = { λ v. sym (append-nil (numbers_bytes v.numbers ++ section_of v.routes)) };

    ghost new_tail = { λ r v. ap (λ (o : Result (List Piece) Refusal). numbers_bytes (meaning r.numbers) ++ section_in true o) (sym (measured r.peer r.measured).is) ∙ sym (append-nil (numbers_bytes (meaning r.numbers) ++ section_in true (given_by r.peer))) };

    ghost end_is = { λ at v. Prim.omega (arith, numbers_size_lem v.numbers, routes_long v.routes, length-append (numbers_bytes v.numbers) (section_of v.routes)) };

    ghost count_is = { λ r at v. (measured r.peer r.measured).count_is };

    fn numbers(self) -> Numbers {
        self.numbers
    }

    fn size(self) -> usize {
        let peer = self.peer;
        numbers_size(self.numbers) + peer.size
    }

    fn end(r: RecordAt) -> usize
        ensures { result ≡ r.end }
    {
        r.end
    }

    fn count(self, _: RecordAt) -> usize {
        let peer = self.peer;
        peer.count
    }

    // Kept (5): the parameters of `Tail::write`, which says why.
    fn write(self, bytes: &mut [u8], at: usize) {
        let peer = self.peer;
        let a = write_numbers(bytes, at, self.numbers);
        let e = a + peer.size;
        write_routes::<Reversed>(&mut bytes[a..e], peer.block);
    }
}
