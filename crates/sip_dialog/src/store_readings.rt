// Readings of a store of records: look-ups, the count, the identifiers and the handover listing.
ghost use Rattle.std.specs.Prelude.{◌≡◌, length};
ghost use Rattle.limits.specs.Limits.{rust_limits};
ghost use Rattle.limits.specs.Outcome.{refuse_by};
ghost use Rattle.limits.specs.Settings.{settings_cause};
ghost use Rattle.output.specs.Output.{written_from, leaves};
ghost use Rattle.listing_lines.specs.Listing.{listing};
ghost use Rattle.dialog_id.specs.Ident.{ident};
ghost use Rattle.book.specs.Calls.{read, get, find_by_request, find_by_call_id, all_ids};
ghost use Rattle.book.specs.Store.{output_after};
ghost use Rattle.book.specs.Returned.{Returns, number_after, place_after, length_after};
ghost use Rattle.c_answers.specs.Given.{ValueGives};
ghost use Rattle.c_store_answers.specs.Given.{left_by, counting};

use c_answers::give;
use c_store_answers::give_place;
use dialog_id::IdTexts;
use limits::{Refusal, Settings};

// DialogManager::get: 30, 1, 3, 15.
// Kept (6): the C header's parameters: C lends bytes and says how many are used.
pub fn sip_dialog_get(
    settings: Settings,
    call_id: &[u8],
    local_tag: &[u8],
    remote_tag: &[u8],
    store: &[u8],
    used: usize,
    place: &mut usize,
    length: &mut usize,
) -> u8
    ensures returns { Returns (left_by settings (λ n. read n (get (ident call_id.now local_tag.now remote_tag.now))) store.now used) store.now used result }
    ensures place_after { place.new ≡ place_after (left_by settings (λ n. read n (get (ident call_id.now local_tag.now remote_tag.now))) store.now used).answer place.old }
    ensures length_after { length.new ≡ length_after (left_by settings (λ n. read n (get (ident call_id.now local_tag.now remote_tag.now))) store.now used).answer length.old }
{
    if !settings.in_bounds() {
        return Refusal::SettingOutOfBounds.number();
    }
    let id = IdTexts {
        call_id,
        local_tag,
        remote_tag,
    };
    give_place(dialog_manager::get(id, store, used), place, length)
}

// DialogManager::find_by_call_id, the first in the store: 30, 1, 3, 15.
// Kept (2, 6): the C header's parameters: C lends bytes and says how many are used.
pub fn sip_dialog_find_by_call_id(
    settings: Settings,
    call_id: &[u8],
    store: &[u8],
    used: usize,
    place: &mut usize,
    length: &mut usize,
) -> u8
    ensures returns { Returns (left_by settings (λ n. read n (find_by_call_id call_id.now)) store.now used) store.now used result }
    ensures place_after { place.new ≡ place_after (left_by settings (λ n. read n (find_by_call_id call_id.now)) store.now used).answer place.old }
    ensures length_after { length.new ≡ length_after (left_by settings (λ n. read n (find_by_call_id call_id.now)) store.now used).answer length.old }
{
    if !settings.in_bounds() {
        return Refusal::SettingOutOfBounds.number();
    }
    give_place(
        dialog_manager::find_by_call_id(call_id, store, used),
        place,
        length,
    )
}

// DialogManager::find_by_request: 30, 1, 2, 3, 15.
// Kept (2, 6): the C header's parameters: C lends bytes and says how many are used.
pub fn sip_dialog_find_by_request(
    settings: Settings,
    block: &[u8],
    store: &[u8],
    used: usize,
    place: &mut usize,
    length: &mut usize,
) -> u8
    ensures returns { Returns (left_by settings (λ n. read n (find_by_request block.now)) store.now used) store.now used result }
    ensures place_after { place.new ≡ place_after (left_by settings (λ n. read n (find_by_request block.now)) store.now used).answer place.old }
    ensures length_after { length.new ≡ length_after (left_by settings (λ n. read n (find_by_request block.now)) store.now used).answer length.old }
{
    if !settings.in_bounds() {
        return Refusal::SettingOutOfBounds.number();
    }
    give_place(
        dialog_manager::find_by_request(block, store, used),
        place,
        length,
    )
}

// DialogManager::count: 30, 3.
// Kept (6): the C header's parameters: C lends bytes and says how many are used.
pub fn sip_dialog_count(settings: Settings, store: &[u8], used: usize, count: &mut usize) -> u8
    ensures returns { Returns (left_by settings (λ n. read n counting) store.now used) store.now used result }
    ensures count_after { count.new ≡ number_after (left_by settings (λ n. read n counting) store.now used).answer count.old }
{
    if !settings.in_bounds() {
        return Refusal::SettingOutOfBounds.number();
    }
    give(store::count(store, used), count)
}

// DialogManager::all_ids at the front of the lent bytes: 30, 3, 18.
// Kept (6): the C header's parameters: C lends bytes and says how many are used.
pub fn sip_dialog_all_ids(
    settings: Settings,
    store: &[u8],
    used: usize,
    out: &mut [u8],
    written: &mut usize,
) -> u8
    ensures returns { Returns (left_by settings (λ n. read n (all_ids (length out.old))) store.now used) store.now used result }
    ensures out_after { out.new ≡ output_after (left_by settings (λ n. read n (all_ids (length out.old))) store.now used).answer out.old }
    ensures written_after { written.new ≡ length_after (left_by settings (λ n. read n (all_ids (length out.old))) store.now used).answer written.old }
{
    if !settings.in_bounds() {
        return Refusal::SettingOutOfBounds.number();
    }
    give(store_ids::all_ids(store, used, out), written)
}

// The handover listing at the front of the lent bytes: 30, 1, 3, 18.
// Kept (2): the C header's parameters, and each function has a clause of its own.
pub fn sip_dialog_listing(
    settings: Settings,
    bytes: &[u8],
    out: &mut [u8],
    written: &mut usize,
) -> u8
    ensures written_gives { ValueGives (written_from (refuse_by (settings_cause settings) (listing rust_limits bytes.now (length out.old)))) written.old result written.new }
    ensures out_after { out.new ≡ leaves (refuse_by (settings_cause settings) (listing rust_limits bytes.now (length out.old))) out.old }
{
    if !settings.in_bounds() {
        return Refusal::SettingOutOfBounds.number();
    }
    give(listing_text::list_store(bytes, out), written)
}
