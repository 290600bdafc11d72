// A text cut into segments.
ghost use Rattle.std.specs.Prelude.{◌≡◌, ℕ, List, length};

use crate::piece::Part;

// How texts are cut: one byte stands between two segments.
pub trait Cut {
    ghost use Rattle.text.specs.Segments.{Cuts};

    ghost segments: { Self → List ℕ → List (List ℕ) };

    // How many bytes the first segment has.
    fn first(&self, s: &[u8]) -> usize
        ensures { Cuts (segments self.now) s.now result };
}

// The segments of a text that start at a place or after it.
#[derive(Clone, Copy)]
pub struct Segments<'a, C> {
    text: &'a [u8],
    at: usize,
    cut: C,
}

impl<'a, C: Cut + Copy> Segments<'a, C> {
    ghost use Rattle.text.specs.Segments.{segments_ahead, pieces_left};

    // Of a text, from a place on.
    pub fn from(text: &'a [u8], at: usize, cut: C) -> Segments<'a, C>
        ensures { segments_ahead C.segments result ≡ pieces_left (C.segments cut) text.now at }
    {
        Segments { text, at, cut }
    }
}

impl<'a, C: Cut + Copy> Iterator for Segments<'a, C> {
    ghost use Rattle.std.specs.Iterator.{YieldsFirstBy, item_count};
    ghost use Rattle.text.specs.Pieces.{piece_of};
    ghost use Rattle.text.specs.Segments.{segments_ahead};

    type Item = Part<'a>;

    ghost next_gives = { YieldsFirstBy piece_of (segments_ahead C.segments) };

    ghost remaining = { item_count (segments_ahead C.segments) };

    #[inline(always)]
    fn next(&mut self) -> Option<Part<'a>> {
        let at = self.at;
        if self.text.len() < at {
            return None;
        }
        let rest = &self.text[at..];
        let n = self.cut.first(rest);
        self.at = at + n + 1;
        Some(Part {
            place: at,
            text: &rest[..n],
        })
    }
}
