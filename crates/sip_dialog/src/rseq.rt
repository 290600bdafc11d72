// RSeq numbers in a store of their own, lent with how many of its bytes are used.
ghost use Rattle.std.specs.Prelude.{◌≡◌};
ghost use Rattle.limits.specs.Limits.{rust_limits};
ghost use Rattle.ordered_store.specs.Run.{Returns};
ghost use Rattle.dialog_id.specs.Ident.{ident};
ghost use Rattle.rseq_manager.specs.RSeq.{next, current, remove, len, ran};
ghost use Rattle.rseq_manager.specs.Answers.{emptiness};
ghost use Rattle.c_answers.specs.Given.{value_after};

use c_answers::{give, give_flag, give_with_used};
use dialog_id::IdTexts;

// RSeqManager::next_rseq: 1, 3, 18.
// Kept (2): the C header's parameters, and each function has a clause of its own.
pub fn sip_dialog_rseq_next(
    call_id: &[u8],
    local_tag: &[u8],
    remote_tag: &[u8],
    n: u32,
    store: &mut [u8],
    used: &mut usize,
    rseq: &mut u32,
) -> u8
    ensures returns { Returns (ran rust_limits (next (ident call_id.now local_tag.now remote_tag.now) n) store.old used.old) store.new used.new result }
    ensures rseq_after { rseq.new ≡ value_after (ran rust_limits (next (ident call_id.now local_tag.now remote_tag.now) n) store.old used.old).answer rseq.old }
{
    let id = IdTexts {
        call_id,
        local_tag,
        remote_tag,
    };
    give_with_used(rseq_manager::next_rseq(id, n, store, *used), used, rseq)
}

// RSeqManager::current_rseq: 1, 3, 15.
// Kept (6): the C header's parameters: C lends bytes and says how many are used.
pub fn sip_dialog_rseq_current(
    call_id: &[u8],
    local_tag: &[u8],
    remote_tag: &[u8],
    store: &[u8],
    used: usize,
    rseq: &mut u32,
) -> u8
    ensures returns { Returns (ran rust_limits (current (ident call_id.now local_tag.now remote_tag.now)) store.now used) store.now used result }
    ensures rseq_after { rseq.new ≡ value_after (ran rust_limits (current (ident call_id.now local_tag.now remote_tag.now)) store.now used).answer rseq.old }
{
    let id = IdTexts {
        call_id,
        local_tag,
        remote_tag,
    };
    give(rseq_manager::current_rseq(id, store, used), rseq)
}

// RSeqManager::remove: 1, 3.
// Kept (2): the C header's parameters, and each function has a clause of its own.
pub fn sip_dialog_rseq_remove(
    call_id: &[u8],
    local_tag: &[u8],
    remote_tag: &[u8],
    store: &mut [u8],
    used: &mut usize,
) -> u8
    ensures { Returns (ran rust_limits (remove (ident call_id.now local_tag.now remote_tag.now)) store.old used.old) store.new used.new result }
{
    let id = IdTexts {
        call_id,
        local_tag,
        remote_tag,
    };
    give(rseq_manager::remove(id, store, *used), used)
}

// RSeqManager::len: 3.
// Kept (6): the C header's parameters: C lends bytes and says how many are used.
pub fn sip_dialog_rseq_len(store: &[u8], used: usize, count: &mut usize) -> u8
    ensures returns { Returns (ran rust_limits len store.now used) store.now used result }
    ensures count_after { count.new ≡ value_after (ran rust_limits len store.now used).answer count.old }
{
    give(rseq_manager::len(store, used), count)
}

// RSeqManager::is_empty: 3.
// Kept (6): the C header's parameters: C lends bytes and says how many are used.
pub fn sip_dialog_rseq_is_empty(store: &[u8], used: usize, empty: &mut u8) -> u8
    ensures returns { Returns (ran rust_limits len store.now used) store.now used result }
    ensures empty_after { empty.new ≡ value_after (emptiness (ran rust_limits len store.now used).answer) empty.old }
{
    give_flag(rseq_manager::is_empty(store, used), empty)
}
