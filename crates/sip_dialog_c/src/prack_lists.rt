// Reliable provisional responses that wait for their PRACK, in a store of their own, lent with how many of its bytes are used. The numbers that a call is given
// are of their types.
// Made by `tools/face write` from crates/sip_dialog/src, not by hand.
ghost use Rattle.std.specs.Prelude.{◌≡◌, length};
ghost use Rattle.ordered_store.specs.Run.{Returns};
ghost use Rattle.prack_validator.specs.Validator.{register, validate, is_pracked, get_pending, remove_dialog, remove_pracked, ran_with, Typed};
ghost use Rattle.prack_validator.specs.Answers.{rack_after, length_after, output_after};
ghost use Rattle.c_prack_answers.specs.Given.{rack_of, pracked_after};

use limits::Settings;

// PrackValidator::register_reliable_provisional: 30, 1, 28, 3, 18.
// Kept (1): the C header's parameter: C gives a method by its number, and a number that is none is refused.
#[unsafe(no_mangle)]
pub extern "C" fn sip_dialog_prack_register(
    settings: Settings,
    id: &[u8],
    rseq: u32,
    cseq: u32,
    method: u8,
    code: u16,
    time: u64,
    store: &mut [u8],
    used: &mut usize,
) -> u8
    ensures returns { Returns (ran_with settings (register id.now rseq cseq method code time) store.old used.old) store.new used.new result }
    ensures typed { Typed (register id.now rseq cseq method code time) }
{
    sip_dialog::prack_lists::sip_dialog_prack_register(
        settings, id, rseq, cseq, method, code, time, store, used,
    )
}

// PrackValidator::validate_prack: 30, 1, 2, 3, 18, 19 to 24.
#[unsafe(no_mangle)]
pub extern "C" fn sip_dialog_prack_validate(
    settings: Settings,
    id: &[u8],
    block: &[u8],
    time: u64,
    store: &mut [u8],
    used: &mut usize,
    rseq: &mut u32,
    cseq: &mut u32,
    method: &mut u8,
) -> u8
    ensures returns { Returns (ran_with settings (validate id.now block.now time) store.old used.old) store.new used.new result }
    ensures method_after { rack_of rseq.new cseq.new method.new ≡ rack_after (ran_with settings (validate id.now block.now time) store.old used.old).answer (rack_of rseq.old cseq.old method.old) }
    ensures typed { Typed (validate id.now block.now time) }
{
    sip_dialog::prack_lists::sip_dialog_prack_validate(
        settings, id, block, time, store, used, rseq, cseq, method,
    )
}

// PrackValidator::is_pracked: 30, 1, 3.
// Kept (6): the C header's parameters: C lends bytes and says how many are used.
#[unsafe(no_mangle)]
pub extern "C" fn sip_dialog_prack_is_pracked(
    settings: Settings,
    id: &[u8],
    rseq: u32,
    store: &[u8],
    used: usize,
    pracked: &mut u8,
) -> u8
    ensures returns { Returns (ran_with settings (is_pracked id.now rseq) store.now used) store.now used result }
    ensures pracked_after { pracked.new ≡ pracked_after (ran_with settings (is_pracked id.now rseq) store.now used).answer pracked.old }
{
    sip_dialog::prack_lists::sip_dialog_prack_is_pracked(settings, id, rseq, store, used, pracked)
}

// PrackValidator::get_pending, at the front of the lent output: 30, 1, 3, 18.
#[unsafe(no_mangle)]
pub extern "C" fn sip_dialog_prack_get_pending(
    settings: Settings,
    id: &[u8],
    time: u64,
    store: &mut [u8],
    used: &mut usize,
    out: &mut [u8],
    written: &mut usize,
) -> u8
    ensures returns { Returns (ran_with settings (get_pending id.now time (length out.old)) store.old used.old) store.new used.new result }
    ensures out_after { out.new ≡ output_after (ran_with settings (get_pending id.now time (length out.old)) store.old used.old).answer out.old }
    ensures written_after { written.new ≡ length_after (ran_with settings (get_pending id.now time (length out.old)) store.old used.old).answer written.old }
    ensures typed { Typed (get_pending id.now time (length out.old)) }
{
    sip_dialog::prack_lists::sip_dialog_prack_get_pending(
        settings, id, time, store, used, out, written,
    )
}

// PrackValidator::remove_dialog: 30, 1, 3.
#[unsafe(no_mangle)]
pub extern "C" fn sip_dialog_prack_remove_dialog(
    settings: Settings,
    id: &[u8],
    store: &mut [u8],
    used: &mut usize,
) -> u8
    ensures { Returns (ran_with settings (remove_dialog id.now) store.old used.old) store.new used.new result }
{
    sip_dialog::prack_lists::sip_dialog_prack_remove_dialog(settings, id, store, used)
}

// PrackValidator::remove_pracked: 30, 1, 3.
#[unsafe(no_mangle)]
pub extern "C" fn sip_dialog_prack_remove_pracked(
    settings: Settings,
    id: &[u8],
    rseq: u32,
    store: &mut [u8],
    used: &mut usize,
) -> u8
    ensures { Returns (ran_with settings (remove_pracked id.now rseq) store.old used.old) store.new used.new result }
{
    sip_dialog::prack_lists::sip_dialog_prack_remove_pracked(settings, id, rseq, store, used)
}
