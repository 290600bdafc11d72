// Header blocks and status codes.
// Made by `tools/face write` from crates/sip_dialog/src, not by hand.
ghost use Rattle.std.specs.Prelude.{◌≡◌};
ghost use Rattle.limits.specs.Limits.{rust_limits};
ghost use Rattle.limits.specs.Outcome.{check_of, number_in};
ghost use Rattle.text.specs.Answers.{lookup_of, next_of};
ghost use Rattle.msg.specs.Block.{block_cause, lookup, lookup_from};
ghost use Rattle.msg.specs.Status.{in_class, is_error_code};
ghost use Rattle.c_answers.specs.Given.{LookupGives, NextGives};

// The check of a header block: 1, 2.
#[unsafe(no_mangle)]
pub extern "C" fn sip_dialog_check_block(block: &[u8]) -> u8
    ensures { result ≡ number_in (check_of (block_cause rust_limits block.now)) }
{
    sip_dialog::blocks::sip_dialog_check_block(block)
}

// The value of the first line of a name, letter case ignored: 1, 2.
#[unsafe(no_mangle)]
pub extern "C" fn sip_dialog_header(
    block: &[u8],
    name: &[u8],
    found: &mut u8,
    place: &mut usize,
    length: &mut usize,
) -> u8
    ensures { LookupGives (lookup_of (lookup rust_limits block.now name.now)) (record { found = found.old; place = place.old; length = length.old }) result (record { found = found.new; place = place.new; length = length.new }) }
{
    sip_dialog::blocks::sip_dialog_header(block, name, found, place, length)
}

// The value of the first line of a name that starts at `from` or after it: 1, 2.
#[unsafe(no_mangle)]
pub extern "C" fn sip_dialog_next_header(
    block: &[u8],
    name: &[u8],
    from: usize,
    found: &mut u8,
    place: &mut usize,
    length: &mut usize,
    next: &mut usize,
) -> u8
    ensures { NextGives (next_of (lookup_from rust_limits block.now name.now from)) (record { found = found.old; place = place.old; length = length.old; next = next.old }) result (record { found = found.new; place = place.new; length = length.new; next = next.new }) }
{
    sip_dialog::blocks::sip_dialog_next_header(block, name, from, found, place, length, next)
}

// 100 to 199.
#[unsafe(no_mangle)]
pub extern "C" fn sip_dialog_is_informational(code: u16) -> bool
    ensures { result ≡ in_class 100 200 code }
{
    sip_dialog::blocks::sip_dialog_is_informational(code)
}

// 200 to 299.
#[unsafe(no_mangle)]
pub extern "C" fn sip_dialog_is_success(code: u16) -> bool
    ensures { result ≡ in_class 200 300 code }
{
    sip_dialog::blocks::sip_dialog_is_success(code)
}

// 300 to 399.
#[unsafe(no_mangle)]
pub extern "C" fn sip_dialog_is_redirection(code: u16) -> bool
    ensures { result ≡ in_class 300 400 code }
{
    sip_dialog::blocks::sip_dialog_is_redirection(code)
}

// 400 to 499.
#[unsafe(no_mangle)]
pub extern "C" fn sip_dialog_is_client_error(code: u16) -> bool
    ensures { result ≡ in_class 400 500 code }
{
    sip_dialog::blocks::sip_dialog_is_client_error(code)
}

// 500 to 599.
#[unsafe(no_mangle)]
pub extern "C" fn sip_dialog_is_server_error(code: u16) -> bool
    ensures { result ≡ in_class 500 600 code }
{
    sip_dialog::blocks::sip_dialog_is_server_error(code)
}

// 600 to 699.
#[unsafe(no_mangle)]
pub extern "C" fn sip_dialog_is_global_failure(code: u16) -> bool
    ensures { result ≡ in_class 600 700 code }
{
    sip_dialog::blocks::sip_dialog_is_global_failure(code)
}

// 400 to 699.
#[unsafe(no_mangle)]
pub extern "C" fn sip_dialog_is_error(code: u16) -> bool
    ensures { result ≡ is_error_code code }
{
    sip_dialog::blocks::sip_dialog_is_error(code)
}
