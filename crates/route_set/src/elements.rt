// The elements of a value, one after another.
ghost use Rattle.std.specs.Prelude.{◌≡◌};
ghost use Rattle.route_set.specs.Parts.{header_values};

use crate::parts::next_part;
use text::Part;

// The elements of a value that start at a place or after it.
#[derive(Clone, Copy)]
pub struct Elements<'a> {
    value: &'a [u8],
    from: usize,
}

impl<'a> Elements<'a> {
    ghost use Rattle.route_set.specs.Elements.{elements_ahead};

    // All of a value.
    pub fn of(value: &'a [u8]) -> Elements<'a>
        ensures { elements_ahead result ≡ header_values value.now }
    {
        Elements { value, from: 0 }
    }
}

impl<'a> Iterator for Elements<'a> {
    ghost use Rattle.std.specs.Iterator.{YieldsFirstBy, item_count};
    ghost use Rattle.text.specs.Pieces.{piece_of};
    ghost use Rattle.route_set.specs.Elements.{elements_ahead};

    type Item = Part<'a>;

    ghost next_gives = { YieldsFirstBy piece_of elements_ahead };

    ghost remaining = { item_count elements_ahead };

    fn next(&mut self) -> Option<Part<'a>> {
        let (p, after) = next_part(self.value, self.from)?;
        self.from = after;
        Some(Part {
            place: p.start,
            text: p.text(self.value),
        })
    }
}
