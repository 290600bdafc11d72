// The lines of a block, one after another.
ghost use Rattle.std.specs.Prelude.{◌≡◌, ◌+◌, ◌<◌, ◌≤◌, ◌^◌, length, Some};
ghost use Rattle.msg.specs.Block.{all_named, found_of, lines_of};

use super::{find_from, read_line};
use text::{Part, Span};

// A line as it stands in a block: its name, its value with the blanks around it, and where it starts.
#[derive(Clone, Copy)]
pub(crate) struct Line<'a> {
    pub name: &'a [u8],
    pub value: &'a [u8],
    pub start: usize,
    pub ghost fits: { start + (length name.now + length value.now + 3) < 2 ^ 64 },
}

impl<'a> Line<'a> {
    ghost use Rattle.msg.specs.Lines.{line_in};

    // Where the next line starts.
    pub(crate) fn end(self) -> usize
        ensures { result ≡ (line_in self.entry).next }
    {
        self.start + (self.name.len() + self.value.len() + 3)
    }

    // The place of the trimmed value and that of the next line, as a look-up answers them.
    pub(crate) fn found(self) -> (Span, usize)
        ensures { Some result ≡ found_of (Some (line_in self.entry)) }
    {
        let v = text::trim_span(self.value);
        (v.moved(self.start + (self.name.len() + 1)), self.end())
    }
}

// The lines from a place on where one starts, up to the first bytes that are none.
#[derive(Clone, Copy)]
pub(crate) struct Lines<'a> {
    pub block: &'a [u8],
    pub at: usize,
    pub ghost within: { at ≤ length block.now },
}

impl<'a> Iterator for Lines<'a> {
    ghost use Rattle.std.specs.Iterator.{YieldsFirstBy, item_count};
    ghost use Rattle.msg.specs.Lines.{line_in, lines_ahead};

    type Item = Line<'a>;

    ghost next_gives = { YieldsFirstBy line_in lines_ahead };

    ghost remaining = { item_count lines_ahead };

    #[inline(always)]
    fn next(&mut self) -> Option<Line<'a>> {
        let start = self.at;
        let rest = &self.block[start..];
        let (n, m) = read_line(rest)?;
        self.at = start + (n + m + 3);
        Some(Line {
            name: &rest[..n],
            value: &rest[n + 1..n + 1 + m],
            start,
        })
    }
}

// The values of the lines of a name from a place on where a line starts, up to the first bytes that are no line.
#[derive(Clone, Copy)]
pub struct Values<'a, 'b> {
    block: &'a [u8],
    name: &'b [u8],
    at: usize,
    ghost within: { at ≤ length block.now },
}

impl<'a, 'b> Values<'a, 'b> {
    ghost use Rattle.msg.specs.Lines.{values_ahead, values_of};

    // Of all lines of a name.
    // Kept (5): `Values` is what holds both; here they are given.
    pub fn of(block: &'a [u8], name: &'b [u8]) -> Values<'a, 'b>
        ensures { values_ahead result ≡ values_of (all_named name.now (lines_of block.now)) }
    {
        Values { block, name, at: 0 }
    }
}

impl<'a, 'b> Iterator for Values<'a, 'b> {
    ghost use Rattle.std.specs.Iterator.{YieldsFirstBy, item_count};
    ghost use Rattle.text.specs.Pieces.{piece_of};
    ghost use Rattle.msg.specs.Lines.{values_ahead};

    type Item = Part<'a>;

    ghost next_gives = { YieldsFirstBy piece_of values_ahead };

    ghost remaining = { item_count values_ahead };

    fn next(&mut self) -> Option<Part<'a>> {
        let (v, next) = find_from(self.block, self.at, self.name)?;
        self.at = next;
        Some(Part {
            place: v.start,
            text: v.text(self.block),
        })
    }
}
