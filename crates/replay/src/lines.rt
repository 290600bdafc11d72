// What one line of the list asks for: the memory of a store is set, or a call is made and its answer compared.
use replay_answers::{Call, Line, Memory};
use replay_lines::{
    ITEMS, Item, Items, OUTS, copy_at, part, place_of, read_items, row_of, shape_fits,
};

// The call that the line asks for, if it asks for one; none where it can't be read. The head has the rows; `old` and `bytes` are room to work in.
pub fn one_line<const N: usize>(
    line: &[u8],
    head: &[u8],
    memory: &mut Memory<N>,
    old: &mut [u8],
    bytes: &mut [u8],
) -> Option<Option<Call>> {
    if let [] | [b'#', ..] = line {
        return Some(None);
    }
    let n = line.iter().position(|&b| b == b' ').unwrap_or(line.len());
    let name = part(line, 0, n);
    // Kept (6): README's rule: no heap. So the items go into an array, and what reads them says how many there are.
    let mut room = [Item::NONE; ITEMS];
    let count = read_items(part(line, n, line.len()), bytes, &mut room)?;
    if count == 0 {
        return None;
    }
    let items = Items {
        bytes,
        list: part(&room, 0, count),
    };
    let Some((number, row)) = row_of(head, name) else {
        memory.set(name, items)?;
        return Some(None);
    };
    if !shape_fits(row.shape, items) {
        return None;
    }
    let asked = Line {
        shape: row.shape,
        items,
        equals: place_of(row.shape, b'=').unwrap_or(row.shape.len()),
    };
    let same = replay_call(name, asked, memory, old)?;
    Some(Some(Call { row: number, same }))
}

// Makes the call of that name: whether all that it answers is as recorded; none where there is no such call, or it can't be lent so much.
fn replay_call<const N: usize>(
    name: &[u8],
    line: Line<'_, '_>,
    memory: &mut Memory<N>,
    old: &mut [u8],
) -> Option<bool> {
    let mut o = [0u64; OUTS];
    // Kept (6): README's rule: no heap. So a call is lent a part of an array, as long as the line says.
    let mut room = [0u8; 65536];
    let out = room.get_mut(..line.lent_length(b'o'))?;
    if let Some(k) = place_of(line.shape, b'o') {
        copy_at(line.items.text(k), out, 0);
    }
    copy_at(memory.bytes(), old, 0);
    let store = memory.lend(line.lent_length(b's'))?;
    let items = line.items;
    let read = replay_readings::call(name, items, &mut o);
    let r = read.or_else(|| replay_changes::call(name, items, store, out, &mut o))?;
    let store = memory.bytes();
    let old = part(old, 0, store.len());
    Some(line.as_recorded(r, &o, out, store, old))
}
