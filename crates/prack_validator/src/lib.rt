// PrackValidator: the reliable provisional responses that wait for their PRACK, in a lent store of which so many bytes are used. The calls that remove are in
// `prack_removal`.
#![tactic(auto)]

ghost use Rattle.std.specs.Prelude.{◌≡◌, true, length};
ghost use Rattle.limits.specs.Settings.{in_bounds, limits_in};
ghost use Rattle.ordered_store.specs.Answers.{written_in, used_written};
ghost use Rattle.prack_validator.specs.Validator.{register, validate, is_pracked, get_pending, ran};
ghost use Rattle.prack_validator.specs.Answers.{validated_in, validated_or, pracked_of, listed_in, used_listed, output_after};

use limits::{Refusal, Settings};
use prack_entries::{clean_copy, find, set};
use prack_list::Provisional;
use prack_verdict::hold_against;
use rack::RAck;

// The RAck that was accepted, or the cause; and the new used length, since a refused PRACK keeps the cleaned list.
#[derive(Clone, Copy)]
pub struct Validated {
    pub verdict: Result<RAck, Refusal>,
    pub used: usize,
}

// PrackValidator::register_reliable_provisional: 1, 28, 3, 18. Cleaned first; one more than the set allows drops the first. The new used length.
// Kept (5, 6): C says how many of the lent bytes are used, perhaps too many: 3, in its turn among the causes; so both are taken as given.
pub fn register(
    settings: Settings,
    id: &[u8],
    response: Provisional,
    bytes: &mut [u8],
    used: usize,
) -> Result<usize, Refusal>
    requires permitted { in_bounds settings ≡ true }
    ensures value { result ≡ written_in (ran (limits_in settings) (register id.now response.rseq response.cseq response.method response.code response.time) bytes.old used) }
    ensures bytes_after { bytes.new ≡ (ran (limits_in settings) (register id.now response.rseq response.cseq response.method response.code response.time) bytes.old used).bytes }
    ensures used_value { used_written result used ≡ (ran (limits_in settings) (register id.now response.rseq response.cseq response.method response.code response.time) bytes.old used).used }
{
    text::check_length(id)?;
    if !methods::is_method(response.method) {
        return Err(Refusal::InvalidMethod);
    }
    let slot = find(settings, id, bytes, used)?;
    // Kept (6): no heap: room for the largest body, of which so many bytes are used.
    let mut body = [0u8; prack_body::BODY_ROOM];
    let n = clean_copy(settings, slot, &bytes[..used], response.time, &mut body);
    let m = prack_list::push(settings, &mut body, n, response);
    set(id, slot, &body[..m], bytes, used)
}

// PrackValidator::validate_prack: 1, 2, 3, 18, 19 to 24. Cleaned first; the response that is acknowledged is marked.
// Kept (5, 6): C says how many of the lent bytes are used, perhaps too many: 3, in its turn among the causes; so both are taken as given.
pub fn validate(
    settings: Settings,
    id: &[u8],
    block: &[u8],
    time: u64,
    bytes: &mut [u8],
    used: usize,
) -> Validated
    requires permitted { in_bounds settings ≡ true }
    ensures value { result ≡ validated_in (ran (limits_in settings) (validate id.now block.now time) bytes.old used) }
    ensures bytes_after { bytes.new ≡ (ran (limits_in settings) (validate id.now block.now time) bytes.old used).bytes }
{
    judged(settings, id, block, time, bytes, used).unwrap_or_else(|cause| Validated {
        verdict: Err(cause),
        used,
    })
}

// The verdict on a PRACK, or a refusal that keeps all: 1, 2, 3, 18.
// Kept (5, 6): lent bytes and how many are used, as its caller has them, which C calls.
fn judged(
    settings: Settings,
    id: &[u8],
    block: &[u8],
    time: u64,
    bytes: &mut [u8],
    used: usize,
) -> Result<Validated, Refusal>
    requires permitted { in_bounds settings ≡ true }
    ensures value { validated_or result used ≡ validated_in (ran (limits_in settings) (validate id.now block.now time) bytes.old used) }
    ensures bytes_after { bytes.new ≡ (ran (limits_in settings) (validate id.now block.now time) bytes.old used).bytes }
{
    text::check_length(id)?;
    msg::check_block(block)?;
    let slot = find(settings, id, bytes, used)?;
    // Kept (6): no heap: room for the largest body, of which so many bytes are used.
    let mut body = [0u8; prack_body::BODY_ROOM];
    let n = clean_copy(settings, slot, &bytes[..used], time, &mut body);
    let verdict = hold_against(block, &mut body[..n]);
    let kept = set(id, slot, &body[..n], bytes, used)?;
    Ok(Validated {
        verdict,
        used: kept,
    })
}

// PrackValidator::is_pracked: 1, 3. False where nothing is held for the text.
// Kept (5, 6): C says how many of the lent bytes are used, perhaps too many: 3, in its turn among the causes; so both are taken as given.
pub fn is_pracked(
    settings: Settings,
    id: &[u8],
    rseq: u32,
    bytes: &[u8],
    used: usize,
) -> Result<bool, Refusal>
    ensures value { result ≡ pracked_of (ran (limits_in settings) (is_pracked id.now rseq) bytes.now used).answer }
    ensures bytes_value { bytes.now ≡ (ran (limits_in settings) (is_pracked id.now rseq) bytes.now used).bytes }
    ensures used_value { used ≡ (ran (limits_in settings) (is_pracked id.now rseq) bytes.now used).used }
{
    text::check_length(id)?;
    let Ok(t) = find(settings, id, bytes, used)? else {
        return Ok(false);
    };
    let body = &bytes[t.id.end()..t.end];
    Ok(prack_list::first_of(body, rseq).is_ok_and(|e| e.acknowledged))
}

// PrackValidator::get_pending: 1, 3, 18. Cleaned first; RSeq in four bytes and code in two, in list order, at the front of the output.
// How many bytes of it were written, and the new used length.
// Kept (5, 6): C says how many of the lent bytes are used, perhaps too many: 3, in its turn among the causes; so both are taken as given.
pub fn get_pending(
    settings: Settings,
    id: &[u8],
    time: u64,
    bytes: &mut [u8],
    used: usize,
    out: &mut [u8],
) -> Result<(usize, usize), Refusal>
    requires permitted { in_bounds settings ≡ true }
    ensures value { result ≡ listed_in (ran (limits_in settings) (get_pending id.now time (length out.old)) bytes.old used) }
    ensures bytes_after { bytes.new ≡ (ran (limits_in settings) (get_pending id.now time (length out.old)) bytes.old used).bytes }
    ensures used_value { used_listed result used ≡ (ran (limits_in settings) (get_pending id.now time (length out.old)) bytes.old used).used }
    ensures out_after { out.new ≡ output_after (ran (limits_in settings) (get_pending id.now time (length out.old)) bytes.old used).answer out.old }
{
    text::check_length(id)?;
    let slot = find(settings, id, bytes, used)?;
    // Kept (6): no heap: room for the largest body, of which so many bytes are used.
    let mut room = [0u8; prack_body::BODY_ROOM];
    let n = clean_copy(settings, slot, &bytes[..used], time, &mut room);
    let body = &room[..n];
    if out.len() < prack_list::open_size(body) {
        return Err(Refusal::NoRoom);
    }
    let after = set(id, slot, body, bytes, used)?;
    Ok((prack_list::open_bytes(body, out), after))
}
