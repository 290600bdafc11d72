// Header blocks and status codes.
ghost use Rattle.std.specs.Prelude.{◌≡◌};
ghost use Rattle.limits.specs.Limits.{rust_limits};
ghost use Rattle.limits.specs.Outcome.{check_of, number_in};
ghost use Rattle.text.specs.Answers.{lookup_of, next_of};
ghost use Rattle.msg.specs.Block.{block_cause, lookup, lookup_from};
ghost use Rattle.msg.specs.Status.{in_class, is_error_code};
ghost use Rattle.c_answers.specs.Given.{LookupGives, NextGives};

use c_answers::{check_number, give_lookup, give_next};

// The check of a header block: 1, 2.
pub fn sip_dialog_check_block(block: &[u8]) -> u8
    ensures { result ≡ number_in (check_of (block_cause rust_limits block.now)) }
{
    check_number(msg::check_block(block))
}

// The value of the first line of a name, letter case ignored: 1, 2.
pub fn sip_dialog_header(
    block: &[u8],
    name: &[u8],
    found: &mut u8,
    place: &mut usize,
    length: &mut usize,
) -> u8
    ensures { LookupGives (lookup_of (lookup rust_limits block.now name.now)) (record { found = found.old; place = place.old; length = length.old }) result (record { found = found.new; place = place.new; length = length.new }) }
{
    give_lookup(msg::header(block, name), found, place, length)
}

// The value of the first line of a name that starts at `from` or after it: 1, 2.
pub fn sip_dialog_next_header(
    block: &[u8],
    name: &[u8],
    from: usize,
    found: &mut u8,
    place: &mut usize,
    length: &mut usize,
    next: &mut usize,
) -> u8
    ensures { NextGives (next_of (lookup_from rust_limits block.now name.now from)) (record { found = found.old; place = place.old; length = length.old; next = next.old }) result (record { found = found.new; place = place.new; length = length.new; next = next.new }) }
{
    give_next(
        msg::next_header(block, name, from),
        found,
        place,
        length,
        next,
    )
}

// 100 to 199.
pub fn sip_dialog_is_informational(code: u16) -> bool
    ensures { result ≡ in_class 100 200 code }
{
    msg::is_informational(code)
}

// 200 to 299.
pub fn sip_dialog_is_success(code: u16) -> bool
    ensures { result ≡ in_class 200 300 code }
{
    msg::is_success(code)
}

// 300 to 399.
pub fn sip_dialog_is_redirection(code: u16) -> bool
    ensures { result ≡ in_class 300 400 code }
{
    msg::is_redirection(code)
}

// 400 to 499.
pub fn sip_dialog_is_client_error(code: u16) -> bool
    ensures { result ≡ in_class 400 500 code }
{
    msg::is_client_error(code)
}

// 500 to 599.
pub fn sip_dialog_is_server_error(code: u16) -> bool
    ensures { result ≡ in_class 500 600 code }
{
    msg::is_server_error(code)
}

// 600 to 699.
pub fn sip_dialog_is_global_failure(code: u16) -> bool
    ensures { result ≡ in_class 600 700 code }
{
    msg::is_global_failure(code)
}

// 400 to 699.
pub fn sip_dialog_is_error(code: u16) -> bool
    ensures { result ≡ is_error_code code }
{
    msg::is_error(code)
}
