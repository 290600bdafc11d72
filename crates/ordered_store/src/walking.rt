// The entries of bytes, one after another.
ghost use Rattle.std.specs.Prelude.{◌≡◌};
ghost use Rattle.ordered_store.specs.Steps.{goes_on};

use crate::Entry;
use std::marker::PhantomData;

// What is read from a place on: an entry with its place, or nothing, where none can be read there.
#[derive(Drop)]
pub(crate) struct Entries<'a, E: Entry> {
    pub context: E::Context,
    pub bytes: &'a [u8],
    pub at: usize,
    pub of: PhantomData<E>,
}

impl<'a, E: Entry> Entries<'a, E> {
    // All of them.
    pub(crate) fn new(context: E::Context, bytes: &'a [u8]) -> Entries<'a, E>
        ensures context { result.context ≡ context }
        ensures bytes { result.bytes.now ≡ bytes.now }
        ensures at { result.at ≡ 0 }
    {
        Entries {
            context,
            bytes,
            at: 0,
            of: PhantomData,
        }
    }
}

impl<'a, E: Entry> Iterator for Entries<'a, E> {
    ghost use Rattle.std.specs.Prelude.{◌-◌, length};
    ghost use Rattle.std.specs.Iterator.{at_most};
    ghost use Rattle.ordered_store.specs.Steps.{StepsEntry};

    type Item = (usize, Option<E>);

    ghost next_gives = { λ r o t. StepsEntry E.parts (E.form r.context) r.bytes.now r.at o t.bytes.now t.at × (t.context ≡ r.context) };

    ghost remaining = { λ r. at_most (length r.bytes.now - r.at) };

    fn next(&mut self) -> Option<(usize, Option<E>)> {
        let at = self.at;
        if self.bytes.len() <= at {
            return None;
        }
        let entry = E::read(self.context, self.bytes, at);
        self.at = end_after(entry, self.bytes);
        Some((at, entry))
    }
}

// The place after what was read of the bytes: after all of them, where nothing could be.
fn end_after<E: Entry>(entry: Option<E>, bytes: &[u8]) -> usize
    ensures { result ≡ goes_on E.parts bytes.now entry }
{
    entry.map_or(bytes.len(), |e| e.end())
}
