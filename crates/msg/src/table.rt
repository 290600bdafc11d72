// One reading of a header block: its check, and the first line of each name that a request, a response or a creation looks up.
ghost use Rattle.std.specs.Prelude.{◌≡◌, length};
ghost use Rattle.std.specs.Bool.{then_some};
ghost use Rattle.limits.specs.Limits.{rust_limits};
ghost use Rattle.msg.specs.Block.{lines_of, block_cause, named};
ghost use Rattle.msg.specs.Table.{SlotIs, table_of, headers_of};

use crate::is_named;
use crate::lines::Lines;
use limits::Refusal;
use text::Span;

// How many names the table has.
const NAMES: usize = 8;

// The first line of each name.
// Kept (5): a line that was looked up is its place and the next line's; with its text in it each table would carry the block's lifetime.
#[derive(Clone, Copy)]
pub struct HeaderTable {
    pub call_id: Option<(Span, usize)>,
    pub from: Option<(Span, usize)>,
    pub to: Option<(Span, usize)>,
    pub cseq: Option<(Span, usize)>,
    pub contact: Option<(Span, usize)>,
    pub session_expires: Option<(Span, usize)>,
    pub rseq: Option<(Span, usize)>,
    pub record_route: Option<(Span, usize)>,
}

// The names, in the order of the table.
// Kept (6): a constant, while the lines are a block's: pairs of a name and its line would be made from it anew for each block, and a line would
// go into its field by an index all the same.
const ASKED: [&[u8]; NAMES] = [
    b"Call-ID",
    b"From",
    b"To",
    b"CSeq",
    b"Contact",
    b"Session-Expires",
    b"RSeq",
    b"Record-Route",
];

// The check of a header block, 1, 2, and the first line of each name of the table, in one pass.
pub fn read_headers(block: &[u8]) -> Result<HeaderTable, Refusal>
    ensures { result ≡ headers_of (block_cause rust_limits block.now) (table_of (lines_of block.now)) }
{
    text::check_length(block)?;
    let mut lines = [None; NAMES];
    let mut end = 0;
    for line in (Lines { block, at: 0 }) {
        if let Some(k) = slot_of(line.name) {
            lines[k] = lines[k].or(Some(line.found()));
        }
        end = line.end();
    }
    if end < block.len() {
        return Err(Refusal::Malformed);
    }
    Ok(HeaderTable {
        call_id: lines[0],
        from: lines[1],
        to: lines[2],
        cseq: lines[3],
        contact: lines[4],
        session_expires: lines[5],
        rseq: lines[6],
        record_route: lines[7],
    })
}

// The place of a name in the table.
fn slot_of(name: &[u8]) -> Option<usize>
    ensures { SlotIs name.now result }
{
    ASKED.iter().position(|asked| is_named(name, asked))
}
