// Header values and route sets.
// Made by `tools/face write` from crates/sip_dialog/src, not by hand.
ghost use Rattle.std.specs.Prelude.{◌≡◌};
ghost use Rattle.limits.specs.Limits.{rust_limits};
ghost use Rattle.text.specs.Answers.{lookup_of, next_of};
ghost use Rattle.headers.specs.SessionExpires.{expires_answer, parse_expires, block_expires};
ghost use Rattle.route_set.specs.Parts.{next_header_value};
ghost use Rattle.route_set.specs.Routes.{contact, route_count, route_at, count_of};
ghost use Rattle.c_answers.specs.Given.{ValueGives, NextGives, LookupGives, ExpiresGives};

// The next element of a value from a place on: 1, 2.
#[unsafe(no_mangle)]
pub extern "C" fn sip_dialog_next_header_value(
    value: &[u8],
    from: usize,
    found: &mut u8,
    place: &mut usize,
    length: &mut usize,
    next: &mut usize,
) -> u8
    ensures { NextGives (next_of (next_header_value rust_limits value.now from)) (record { found = found.old; place = place.old; length = length.old; next = next.old }) result (record { found = found.new; place = place.new; length = length.new; next = next.new }) }
{
    sip_dialog::values::sip_dialog_next_header_value(value, from, found, place, length, next)
}

// The text of the URI of the first Contact line, if it is readable: 1, 2.
#[unsafe(no_mangle)]
pub extern "C" fn sip_dialog_contact(
    block: &[u8],
    found: &mut u8,
    place: &mut usize,
    length: &mut usize,
) -> u8
    ensures { LookupGives (lookup_of (contact rust_limits block.now)) (record { found = found.old; place = place.old; length = length.old }) result (record { found = found.new; place = place.new; length = length.new }) }
{
    sip_dialog::values::sip_dialog_contact(block, found, place, length)
}

// How many routes the Record-Route lines give: 1, 2, then 7 or 8.
#[unsafe(no_mangle)]
pub extern "C" fn sip_dialog_route_count(block: &[u8], count: &mut usize) -> u8
    ensures { ValueGives (count_of (route_count rust_limits block.now)) count.old result count.new }
{
    sip_dialog::values::sip_dialog_route_count(block, count)
}

// The text of the route at an index, as received or reversed: 1, 2, then 7 or 8.
#[unsafe(no_mangle)]
pub extern "C" fn sip_dialog_route(
    block: &[u8],
    reversed: bool,
    index: usize,
    found: &mut u8,
    place: &mut usize,
    length: &mut usize,
) -> u8
    ensures { LookupGives (lookup_of (route_at rust_limits reversed block.now index)) (record { found = found.old; place = place.old; length = length.old }) result (record { found = found.new; place = place.new; length = length.new }) }
{
    sip_dialog::values::sip_dialog_route(block, reversed, index, found, place, length)
}

// The interval of a Session-Expires value: 1, 2.
#[unsafe(no_mangle)]
pub extern "C" fn sip_dialog_parse_session_expires(
    value: &[u8],
    found: &mut u8,
    seconds: &mut u32,
    refresher: &mut u8,
) -> u8
    ensures { ExpiresGives (expires_answer (parse_expires rust_limits value.now)) (record { found = found.old; seconds = seconds.old; refresher = refresher.old }) result (record { found = found.new; seconds = seconds.new; refresher = refresher.new }) }
{
    sip_dialog::values::sip_dialog_parse_session_expires(value, found, seconds, refresher)
}

// The interval of a block's first Session-Expires line: 1, 2.
#[unsafe(no_mangle)]
pub extern "C" fn sip_dialog_session_expires(
    block: &[u8],
    found: &mut u8,
    seconds: &mut u32,
    refresher: &mut u8,
) -> u8
    ensures { ExpiresGives (expires_answer (block_expires rust_limits block.now)) (record { found = found.old; seconds = seconds.old; refresher = refresher.old }) result (record { found = found.new; seconds = seconds.new; refresher = refresher.new }) }
{
    sip_dialog::values::sip_dialog_session_expires(block, found, seconds, refresher)
}
