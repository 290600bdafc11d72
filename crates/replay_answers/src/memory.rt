// The memory that a store lies in, set by lines of the list.
ghost use Rattle.std.specs.Prelude.{◌≡◌, IfSome, IfNone, length, take};

use replay_lines::{Items, kinds_are, write_digits};

// Room, and how many of its bytes the memory has.
// Kept (6): README's rule: no heap. So the room is an array, of which all can be written.
// Kept (2): `Held` of sheet_lines has such a `new` and `used_bytes`, two short bodies; a crate below both for them alone would be longer.
#[derive(Drop)]
pub struct Memory<const N: usize> {
    room: [u8; N],
    used: usize,
}

impl<const N: usize> Memory<N> {
    // None used yet.
    pub fn new() -> Memory<N>
        ensures { result.used ≡ 0 }
    {
        Memory {
            room: [0; N],
            used: 0,
        }
    }

    // The bytes that it has.
    pub fn bytes(&self) -> &[u8]
        ensures { result.now ≡ take self.now.used self.now.room }
    {
        self.room.get(..self.used).unwrap_or(&self.room)
    }

    // So many of them, to be changed; none where it has fewer.
    pub fn lend(&mut self, n: usize) -> Option<&mut [u8]>
        ensures { IfSome result (λ p. length p.now ≡ n) }
    {
        let room = &mut self.room;
        room.get_mut(..self.used)?.get_mut(..n)
    }

    // Sets it as a line of that name says; none where the line can't be read.
    // `store TEXT` begins a memory, `room TEXT` goes on with it, and so does `copies N TEXT AT DIGITS`: N times the text, its digits at AT counted up from 0.
    pub fn set(&mut self, name: &[u8], items: Items<'_>) -> Option<()>
        ensures { IfNone result (self.new.used ≡ self.old.used) }
    {
        match name {
            b"store" if kinds_are(items.list, b"t") => self.append(0, items.text(0)),
            b"room" if kinds_are(items.list, b"t") => self.append(self.used, items.text(0)),
            b"copies" if kinds_are(items.list, b"ntnn") => self.append_copies(items),
            _ => None,
        }
    }

    // The piece behind so many bytes.
    fn append(&mut self, before: usize, piece: &[u8]) -> Option<()>
        ensures { IfNone result (self.new.used ≡ self.old.used) }
    {
        let end = before.checked_add(piece.len())?;
        self.room.get_mut(before..end)?.copy_from_slice(piece);
        self.used = end;
        Some(())
    }

    fn append_copies(&mut self, items: Items<'_>) -> Option<()>
        ensures { IfNone result (self.new.used ≡ self.old.used) }
    {
        let piece = items.text(1);
        let n = piece.len();
        if n == 0 {
            return Some(());
        }
        let at = items.value(2) as usize;
        let end_at = at.saturating_add(items.value(3) as usize);
        let end = n
            .checked_mul(items.value(0) as usize)?
            .checked_add(self.used)?;
        let added = self.room.get_mut(self.used..end)?;
        for (i, copy) in added.chunks_exact_mut(n).enumerate() {
            copy.copy_from_slice(piece);
            write_digits(i as u64, copy, at, end_at);
        }
        self.used = end;
        Some(())
    }
}
