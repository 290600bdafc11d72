// The records that are listed, from the front to the end, each read once.
ghost use Rattle.std.specs.Prelude.{◌≡◌, ◌≤◌, length};
ghost use Rattle.listing_text.specs.Readings.{ReadAt};

use image::RecordAt;

// The place where the next record is read.
#[derive(Clone, Copy)]
pub struct Walk<'a> {
    pub bytes: &'a [u8],
    pub at: usize,
    pub ghost within: { at ≤ length bytes.now },
}

impl<'a> Walk<'a> {
    // From the front.
    pub fn new(bytes: &'a [u8]) -> Walk<'a>
        ensures bytes { result.bytes.now ≡ bytes.now }
        ensures at { result.at ≡ 0 }
    {
        Walk { bytes, at: 0 }
    }
}

impl<'a> Iterator for Walk<'a> {
    ghost use Rattle.std.specs.Prelude.{◌-◌};
    ghost use Rattle.std.specs.Iterator.{at_most};
    ghost use Rattle.listing_text.specs.Listed.{StepsListed};

    type Item = RecordAt;

    ghost next_gives = { StepsListed };

    ghost remaining = { λ w. at_most (length w.bytes.now - w.at) };

    fn next(&mut self) -> Option<RecordAt> {
        let r = read_at(self.bytes, self.at)?;
        self.at = r.end;
        Some(r)
    }
}

// The record at a place, if one is read there.
// Kept (5): the fields of `Walk`, whose ghost field `within` is this fact; `next` asks once.
fn read_at(bytes: &[u8], at: usize) -> Option<RecordAt>
    requires { at ≤ length bytes.now }
    ensures { ReadAt bytes.now at result }
{
    image::read_record(bytes, at)
}
