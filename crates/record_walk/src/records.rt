// The records of bytes that are whole records, from the front to the end.
ghost use Rattle.std.specs.Prelude.{◌≡◌, true, length, drop};
ghost use Rattle.record.specs.Record.{is_given};
ghost use Rattle.record.specs.Store.{records_in};
ghost use Rattle.record_walk.specs.Walk.{EndsFirst};

use crate::record_end;

// The places where the records' images begin, one after another.
#[derive(Clone, Copy)]
pub struct Records<'a> {
    pub bytes: &'a [u8],
    pub at: usize,
    pub ghost whole: { is_given (records_in (length bytes.now) (drop at bytes.now)) ≡ true },
}

impl<'a> Records<'a> {
    // All of them.
    // Kept (5): asked where a walk begins; from then on it is its ghost field `whole`.
    pub fn new(bytes: &'a [u8]) -> Records<'a>
        requires { is_given (records_in (length bytes.now) bytes.now) ≡ true }
        ensures bytes { result.bytes.now ≡ bytes.now }
        ensures at { result.at ≡ 0 }
    {
        Records { bytes, at: 0 }
    }
}

impl<'a> Iterator for Records<'a> {
    ghost use Rattle.std.specs.Prelude.{◌-◌};
    ghost use Rattle.std.specs.Iterator.{at_most};
    ghost use Rattle.record_walk.specs.Steps.{StepsRecord};

    type Item = usize;

    ghost next_gives = { StepsRecord };

    ghost remaining = { λ r. at_most (length r.bytes.now - r.at) };

    fn next(&mut self) -> Option<usize> {
        let at = self.at;
        self.at = first_end(self.bytes, at)?;
        Some(at)
    }
}

// The end of the first of the whole records from a place on, if there are any.
// Kept (5): the fields of `Records`, whose ghost field `whole` is this fact; `next` asks once.
fn first_end(bytes: &[u8], at: usize) -> Option<usize>
    requires { is_given (records_in (length bytes.now) (drop at bytes.now)) ≡ true }
    ensures { EndsFirst bytes.now at result }
{
    if bytes.len() <= at {
        return None;
    }
    Some(record_end(bytes, at))
}
