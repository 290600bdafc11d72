// The PRACK of a block held against the responses that wait for one.
#![tactic(auto)]

ghost use Rattle.std.specs.Prelude.{◌≡◌, length};
ghost use Rattle.limits.specs.Limits.{LimitSet};
ghost use Rattle.prack_body.specs.Lists.{Tracked, with_list};
ghost use Rattle.prack_body.specs.Body.{Holds};
ghost use Rattle.prack_verdict.specs.Verdict.{rack_in, judged, marked_by, verdict_of};

use limits::Refusal;
use rack::RAck;

// 19 to 24. Where the PRACK is accepted, the first entry of its RSeq is marked.
// Kept (1): document 01 opens the reading of a RAck by `let .. else`.
pub fn hold_against(block: &[u8], body: &mut [u8]) -> Result<RAck, Refusal>
    requires { (L : LimitSet) × (t : Tracked) × Holds L body.old (length body.old) t }
    ensures value { (L : LimitSet) (t : Tracked) → Holds L body.old (length body.old) t → result ≡ verdict_of (judged (rack_in block.now) t.list) }
    ensures holds { (L : LimitSet) (t : Tracked) → Holds L body.old (length body.old) t → Holds L body.new (length body.old) (with_list (marked_by (judged (rack_in block.now) t.list) t.list) t) }
{
    let Some(k) = rack::read_rack(msg::header_value(block, b"RAck")) else {
        return Err(Refusal::InvalidRAck);
    };
    let e = prack_list::first_of(body, k.rseq)?;
    if e.cseq != k.cseq {
        return Err(Refusal::RAckCSeqMismatch);
    }
    if e.method != k.method {
        return Err(Refusal::RAckMethodMismatch);
    }
    if e.acknowledged {
        return Err(Refusal::DuplicatePrack);
    }
    prack_list::mark(body, e.place);
    Ok(k)
}
