// Calls that change a store of records, lent with how many of its bytes are used.
// Made by `tools/face write` from crates/sip_dialog/src, not by hand.
ghost use Rattle.std.specs.Prelude.{◌≡◌, ◌<◌};
ghost use Rattle.dialog_id.specs.Ident.{ident};
ghost use Rattle.book.specs.Calls.{request, response, terminate, local_number, interval, put, update, remove, sweep};
ghost use Rattle.book.specs.Trace.{All};
ghost use Rattle.book.specs.Returned.{Returns, number_after, least_after, count_after};
ghost use Rattle.c_store_answers.specs.Given.{left_by};

use limits::Settings;

// DialogManager::insert of one record image, and the created count: 30, 3, 16, 17, 18. An image that is lent is made of bytes.
#[unsafe(no_mangle)]
pub extern "C" fn sip_dialog_put(
    settings: Settings,
    image: &[u8],
    store: &mut [u8],
    used: &mut usize,
    created: &mut u64,
) -> u8
    ensures returns { Returns (left_by settings (λ n. put n image.now) store.old used.old) store.new used.new result }
    ensures created_after { created.new ≡ count_after (left_by settings (λ n. put n image.now) store.old used.old).answer created.old }
    ensures all { All (λ b. b < 256) image.now }
{
    sip_dialog::stores::sip_dialog_put(settings, image, store, used, created)
}

// The request entry: 30, 1, 2, 3, 15, 4, 9; ACK: 11; others: 10, 11, 12; 18.
#[unsafe(no_mangle)]
pub extern "C" fn sip_dialog_request(
    settings: Settings,
    method: &[u8],
    block: &[u8],
    store: &mut [u8],
    used: &mut usize,
) -> u8
    ensures { Returns (left_by settings (λ n. update n (request method.now block.now)) store.old used.old) store.new used.new result }
{
    sip_dialog::stores::sip_dialog_request(settings, method, block, store, used)
}

// Dialog::update_from_response of the record of an identifier: 30, 1, 2, 3, 15, 18.
#[unsafe(no_mangle)]
pub extern "C" fn sip_dialog_response(
    settings: Settings,
    call_id: &[u8],
    local_tag: &[u8],
    remote_tag: &[u8],
    status: u16,
    block: &[u8],
    store: &mut [u8],
    used: &mut usize,
) -> u8
    ensures { Returns (left_by settings (λ n. update n (response (ident call_id.now local_tag.now remote_tag.now) status block.now)) store.old used.old) store.new used.new result }
{
    sip_dialog::stores::sip_dialog_response(
        settings, call_id, local_tag, remote_tag, status, block, store, used,
    )
}

// Dialog::terminate of the record of an identifier: 30, 1, 3, 15.
// Kept (2): the C header's parameters, and each function has a clause of its own.
#[unsafe(no_mangle)]
pub extern "C" fn sip_dialog_terminate(
    settings: Settings,
    call_id: &[u8],
    local_tag: &[u8],
    remote_tag: &[u8],
    store: &mut [u8],
    used: &mut usize,
) -> u8
    ensures { Returns (left_by settings (λ n. update n (terminate (ident call_id.now local_tag.now remote_tag.now))) store.old used.old) store.new used.new result }
{
    sip_dialog::stores::sip_dialog_terminate(settings, call_id, local_tag, remote_tag, store, used)
}

// Dialog::next_local_cseq of the record of an identifier: 30, 1, 3, 15, 18.
// Kept (2): the C header's parameters, and each function has a clause of its own.
#[unsafe(no_mangle)]
pub extern "C" fn sip_dialog_next_local_cseq(
    settings: Settings,
    call_id: &[u8],
    local_tag: &[u8],
    remote_tag: &[u8],
    store: &mut [u8],
    used: &mut usize,
    number: &mut u32,
) -> u8
    ensures returns { Returns (left_by settings (λ n. update n (local_number (ident call_id.now local_tag.now remote_tag.now))) store.old used.old) store.new used.new result }
    ensures number_after { number.new ≡ number_after (left_by settings (λ n. update n (local_number (ident call_id.now local_tag.now remote_tag.now))) store.old used.old).answer number.old }
{
    sip_dialog::stores::sip_dialog_next_local_cseq(
        settings, call_id, local_tag, remote_tag, store, used, number,
    )
}

// Dialog::set_session_expires of the record of an identifier: 30, 1, 3, 15, 13 with the least, 14, 18.
// Kept (2): the C header's parameters, and each function has a clause of its own.
#[unsafe(no_mangle)]
pub extern "C" fn sip_dialog_set_session_expires(
    settings: Settings,
    call_id: &[u8],
    local_tag: &[u8],
    remote_tag: &[u8],
    seconds: u64,
    store: &mut [u8],
    used: &mut usize,
    least: &mut u64,
) -> u8
    ensures returns { Returns (left_by settings (λ n. update n (interval (ident call_id.now local_tag.now remote_tag.now) seconds)) store.old used.old) store.new used.new result }
    ensures least_after { least.new ≡ least_after (left_by settings (λ n. update n (interval (ident call_id.now local_tag.now remote_tag.now) seconds)) store.old used.old).answer least.old }
{
    sip_dialog::stores::sip_dialog_set_session_expires(
        settings, call_id, local_tag, remote_tag, seconds, store, used, least,
    )
}

// DialogManager::remove, and the terminated count: 30, 1, 3, 15.
// Kept (2): the C header's parameters, and each function has a clause of its own.
#[unsafe(no_mangle)]
pub extern "C" fn sip_dialog_remove(
    settings: Settings,
    call_id: &[u8],
    local_tag: &[u8],
    remote_tag: &[u8],
    store: &mut [u8],
    used: &mut usize,
    terminated: &mut u64,
) -> u8
    ensures returns { Returns (left_by settings (λ n. remove n (ident call_id.now local_tag.now remote_tag.now)) store.old used.old) store.new used.new result }
    ensures terminated_after { terminated.new ≡ count_after (left_by settings (λ n. remove n (ident call_id.now local_tag.now remote_tag.now)) store.old used.old).answer terminated.old }
{
    sip_dialog::stores::sip_dialog_remove(
        settings, call_id, local_tag, remote_tag, store, used, terminated,
    )
}

// DialogManager::cleanup_terminated: 30, 3.
// Kept (2): the C header's parameters, and each function has a clause of its own.
#[unsafe(no_mangle)]
pub extern "C" fn sip_dialog_sweep(settings: Settings, store: &mut [u8], used: &mut usize) -> u8
    ensures { Returns (left_by settings (λ n. sweep n) store.old used.old) store.new used.new result }
{
    sip_dialog::stores::sip_dialog_sweep(settings, store, used)
}
