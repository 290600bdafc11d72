// Each call on a PRACK store, and its line.
ghost use Rattle.std.specs.Prelude.{◌≡◌};

use limits::Settings;
use prack_list::Provisional;
use sheet_lines::{Held, end_line, show_block, show_rack, show_refusal, show_time, show_verdict};
use std::io;

// The number of the method INVITE.
// Kept (1): the method of `Provisional`, which is a number since `register` refuses an unknown one with 28.
const INVITE: u8 = 1;

// The beginning of a line: where the example stands, the call, and the dialog.
// Kept (2): `ask_of` of sheet_lines begins so, but ends by `: `; here the call's arguments follow.
pub fn begin(rt: &impl Print, place: &[u8], call: &[u8], id: &[u8]) -> io::Result<()> {
    rt.write_all(place)?;
    rt.write_all(b"  ")?;
    rt.write_all(call)?;
    rt.write_all(b" ")?;
    rt.write_all(id)
}

// A response to an INVITE.
pub fn invited(rseq: u32, cseq: u32, code: u16, time: u64) -> Provisional
    ensures { result ≡ record { rseq = rseq; cseq = cseq; method = 1; code = code; time = time } }
{
    Provisional {
        rseq,
        cseq,
        method: INVITE,
        code,
        time,
    }
}

pub fn register<const N: usize>(
    rt: &impl Print,
    place: &[u8],
    id: &[u8],
    response: Provisional,
    store: &mut Held<N>,
) -> io::Result<()> {
    let code = response.code;
    let rseq = response.rseq;
    let cseq = response.cseq;
    begin(rt, place, b"register", id)?;
    print!(rt; ", {code} with RSeq {rseq} and CSeq {cseq} INVITE")?;
    show_moment(rt, b", at ", response.time)?;
    let settings = Settings::rust();
    let answer = prack_validator::register(settings, id, response, &mut store.bytes, store.used);
    store.changed(rt, answer)
}

// The PRACK of a block.
pub fn validate<const N: usize>(
    rt: &impl Print,
    place: &[u8],
    id: &[u8],
    block: &[u8],
    time: u64,
    store: &mut Held<N>,
) -> io::Result<()> {
    begin(rt, place, b"validate", id)?;
    rt.write_all(b", {")?;
    show_block(rt, block)?;
    show_moment(rt, b"}, at ", time)?;
    let used = store.used;
    let settings = Settings::rust();
    let answer = prack_validator::validate(settings, id, block, time, &mut store.bytes, used);
    store.used = answer.used;
    show_rack(rt, answer.verdict)?;
    store.end(rt)
}

// How many responses wait, and the RSeq and the code of each.
pub fn pending<const N: usize>(
    rt: &impl Print,
    place: &[u8],
    id: &[u8],
    time: u64,
    store: &mut Held<N>,
) -> io::Result<()> {
    begin(rt, place, b"get_pending", id)?;
    show_moment(rt, b", at ", time)?;
    let mut out = Held::<60>::new();
    let used = store.used;
    let settings = Settings::rust();
    match prack_validator::get_pending(settings, id, time, &mut store.bytes, used, &mut out.bytes) {
        Ok((length, n)) => {
            out.used = length;
            store.used = n;
            show_waiting(rt, out.used_bytes())?;
        }
        Err(x) => show_refusal(rt, x)?,
    }
    store.end(rt)
}

pub fn pracked<const N: usize>(
    rt: &impl Print,
    place: &[u8],
    id: &[u8],
    rseq: u32,
    store: &Held<N>,
) -> io::Result<()> {
    begin(rt, place, b"is_pracked", id)?;
    print!(rt; ", RSeq {rseq}: ")?;
    let settings = Settings::rust();
    let answer = prack_validator::is_pracked(settings, id, rseq, &store.bytes, store.used);
    show_verdict(rt, answer)?;
    end_line(rt)
}

pub fn remove_pracked<const N: usize>(
    rt: &impl Print,
    place: &[u8],
    id: &[u8],
    rseq: u32,
    store: &mut Held<N>,
) -> io::Result<()> {
    begin(rt, place, b"remove_pracked", id)?;
    print!(rt; ", RSeq {rseq}: ")?;
    let settings = Settings::rust();
    let answer = prack_removal::remove_pracked(settings, id, rseq, &mut store.bytes, store.used);
    store.changed(rt, answer)
}

pub fn remove_dialog<const N: usize>(
    rt: &impl Print,
    place: &[u8],
    id: &[u8],
    store: &mut Held<N>,
) -> io::Result<()> {
    begin(rt, place, b"remove_dialog", id)?;
    rt.write_all(b": ")?;
    let settings = Settings::rust();
    let answer = prack_removal::remove_dialog(settings, id, &mut store.bytes, store.used);
    store.changed(rt, answer)
}

fn show_moment(rt: &impl Print, before: &[u8], time: u64) -> io::Result<()> {
    rt.write_all(before)?;
    show_time(rt, time)?;
    rt.write_all(b": ")
}

// What `get_pending` wrote: six bytes for each response.
fn show_waiting(rt: &impl Print, out: &[u8]) -> io::Result<()> {
    let responses = out.chunks_exact(6);
    print!(rt; "{}", responses.len())?;
    for response in responses {
        let rseq = codec::read_four(response, 0);
        let code = codec::read_two(response, 4);
        print!(rt; " [{rseq} {code}]")?;
    }
    Ok(())
}
