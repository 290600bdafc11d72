// A line that asks for a call: what the call is lent, and whether its answer is as recorded.
use replay_lines::{Items, OUTS, numbers_behind, part, place_of};

// The shape of the row, the line's items, and where the `=` before the answer stands in both.
#[derive(Clone, Copy)]
pub struct Line<'a, 'b> {
    pub shape: &'a [u8],
    pub items: Items<'b>,
    pub equals: usize,
}

impl Line<'_, '_> {
    // Whether the number, the out numbers, the lent output and the memory are as recorded.
    pub fn as_recorded(
        self,
        r: u64,
        o: &[u64; OUTS],
        out: &[u8],
        store: &[u8],
        old: &[u8],
    ) -> bool {
        r == self.items.value(self.equals.saturating_add(1))
            && self.outs_same(o)
            && self.output_same(out)
            && self.store_same(store, old)
    }

    // How many bytes are lent as the item of a kind; none where there is no such item.
    pub fn lent_length(self, letter: u8) -> usize {
        place_of(self.shape, letter).map_or(0, |k| self.items.value(k) as usize)
    }

    // How many out numbers a call has: the answer is one number more.
    fn outs(self) -> usize {
        numbers_behind(self.shape, self.equals).saturating_sub(1)
    }

    // Whether the out numbers after the call are as recorded.
    fn outs_same(self, o: &[u64; OUTS]) -> bool {
        let many = self.outs();
        let recorded = part(self.items.list, self.equals.saturating_add(2), many);
        many <= OUTS && o.iter().zip(recorded).all(|(n, item)| *n == item.value)
    }

    // Whether the lent output is as recorded, where there is some.
    fn output_same(self, out: &[u8]) -> bool {
        match self.shape {
            [before @ .., b't'] => out == self.items.text(before.len()),
            _ => true,
        }
    }

    // Whether the whole memory is as recorded: as before, or with a piece in the place of some bytes; then all behind them moves, and what lies past the new used length
    // stays.
    fn store_same(self, store: &[u8], old: &[u8]) -> bool {
        let items = self.items;
        let change = self.shape.len();
        if items.list.len() == change {
            return store == old;
        }
        let lent = place_of(self.shape, b's').unwrap_or(change);
        let used = items.value(lent.saturating_add(1)) as usize;
        let used_after = items.value(self.equals.saturating_add(2)) as usize;
        let at = items.value(change) as usize;
        let behind = at.saturating_add(items.value(change.saturating_add(1)) as usize);
        let piece = items.text(change.saturating_add(2));
        let moved = at.saturating_add(piece.len());
        let n = used.saturating_sub(behind);
        used_after == moved.saturating_add(n)
            && used_after <= store.len()
            && part(store, 0, at) == part(old, 0, at)
            && part(store, at, piece.len()) == piece
            && part(store, moved, n) == part(old, behind, n)
            && store.get(used_after..) == old.get(used_after..)
    }
}
