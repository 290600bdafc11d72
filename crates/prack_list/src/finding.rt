// The first entry of an RSeq in a body: found, and marked.
ghost use Rattle.std.specs.Prelude.{◌≡◌, List, ℕ, ◌+◌, ◌≤◌, length, Some};
ghost use Rattle.limits.specs.Limits.{LimitSet};
ghost use Rattle.prack_body.specs.Lists.{Pending, Tracked, first_of_rseq, marked, with_list};
ghost use Rattle.prack_body.specs.Body.{Holds};
ghost use Rattle.prack_list.specs.Steps.{place_from, position_in};

use codec::read_four;
use limits::Refusal;
use prack_body::{ACKNOWLEDGED_AT, CSEQ_AT, ENTRIES_AT, ENTRY_SIZE, METHOD_AT};

// An entry: its place in the body, its CSeq, its method and whether it is acknowledged.
// Kept (1): no code asks which method it is: it is read, compared and handed on as its number, to which an enum would be turned back each time;
// as a ghost field, that it is one would be proved for no caller, since none asks it.
#[derive(Clone, Copy)]
pub struct PendingAt {
    pub place: usize,
    pub cseq: u32,
    pub method: u8,
    pub acknowledged: bool,
}

// The first entry of an RSeq: 20 where no list stands, 21 where none is of the RSeq.
// Kept (4): tried by `position` over `chunks_exact`: the closure's bound closes, but not that a call of it that answers false has read another number.
pub fn first_of(body: &[u8], rseq: u32) -> Result<PendingAt, Refusal>
    ensures { (L : LimitSet) (t : Tracked) → Holds L body.now (length body.now) t → result ≡ position_in rseq t.list }
{
    if body.len() < ENTRIES_AT {
        return Err(Refusal::NoPendingList);
    }
    let count = (body.len() - ENTRIES_AT) / ENTRY_SIZE;
    for at in (ENTRIES_AT..ENTRIES_AT + count * ENTRY_SIZE).step_by(ENTRY_SIZE) {
        if read_four(body, at) == rseq {
            return Ok(PendingAt {
                place: at,
                cseq: read_four(body, at + CSEQ_AT),
                method: body[at + METHOD_AT],
                acknowledged: body[at + ACKNOWLEDGED_AT] == 1,
            });
        }
    }
    Err(Refusal::UnknownRSeq)
}

// The entry at a place acknowledged.
pub fn mark(body: &mut [u8], place: usize)
    requires { place + 20 ≤ length body.old }
    ensures { (L : LimitSet) (n rseq : ℕ) (t : Tracked) (ps : List Pending) (p : Pending) → Holds L body.old n t → t.list ≡ Some ps → first_of_rseq rseq ps ≡ Some p → place ≡ place_from 10 rseq ps → Holds L body.new n (with_list (Some (marked rseq ps)) t) }
{
    body[place + ACKNOWLEDGED_AT] = 1;
}
