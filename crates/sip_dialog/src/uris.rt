// URIs.
ghost use Rattle.std.specs.Prelude.{◌≡◌};
ghost use Rattle.limits.specs.Limits.{rust_limits};
ghost use Rattle.text.specs.Answers.{lookup_of};
ghost use Rattle.uri.specs.SipUri.{uri_answer, read_uri, estimate_answer, read_estimate};
ghost use Rattle.uri.specs.HeaderUri.{uri_from_header};
ghost use Rattle.c_answers.specs.Given.{ValueGives, UriGives, LookupGives};

use c_answers::{give, give_lookup, give_uri};

// The parts of a URI: 1, 6. Without a user part its length is 0 and its place the host's.
// Kept (2): the C header's parameters, and each function has a clause of its own.
pub fn sip_dialog_sip_uri(
    text: &[u8],
    secure: &mut u8,
    user: &mut usize,
    user_length: &mut usize,
    host: &mut usize,
    host_length: &mut usize,
    has_port: &mut u8,
    port: &mut u16,
) -> u8
    ensures { UriGives (uri_answer (read_uri rust_limits text.now)) (record { secure = secure.old; user = user.old; user_length = user_length.old; host = host.old; host_length = host_length.old; has_port = has_port.old; port = port.old }) result (record { secure = secure.new; user = user.new; user_length = user_length.new; host = host.new; host_length = host_length.new; has_port = has_port.new; port = port.new }) }
{
    give_uri(
        uri::sip_uri(text),
        secure,
        user,
        user_length,
        host,
        host_length,
        has_port,
        port,
    )
}

// The estimate of a URI: 1, 6, 7.
pub fn sip_dialog_uri_estimate(text: &[u8], estimate: &mut usize) -> u8
    ensures { ValueGives (estimate_answer (read_estimate rust_limits text.now)) estimate.old result estimate.new }
{
    give(uri::uri_estimate(text), estimate)
}

// The text of the URI in a header value, if it is readable: 1, 2.
pub fn sip_dialog_parse_uri_from_header(
    value: &[u8],
    found: &mut u8,
    place: &mut usize,
    length: &mut usize,
) -> u8
    ensures { LookupGives (lookup_of (uri_from_header rust_limits value.now)) (record { found = found.old; place = place.old; length = length.old }) result (record { found = found.new; place = place.new; length = length.new }) }
{
    give_lookup(uri::parse_uri_from_header(value), found, place, length)
}
