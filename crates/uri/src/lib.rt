// The stand-in for the Rust's SipUri, and the URI in a header value.
#![tactic(auto)]

ghost use Rattle.std.specs.Prelude.{◌≡◌, ◌≤◌, length, drop, ltb};
ghost use Rattle.limits.specs.Limits.{rust_limits};
ghost use Rattle.text.specs.Answers.{lookup_of, span_of};
ghost use Rattle.uri.specs.SipUri.{uri_answer, read_uri, estimate_answer, read_estimate, uri_from, user_at, sip_uri, with_user, with_host};
ghost use Rattle.uri.specs.HeaderUri.{uri_from_header, header_uri_from, header_uri, uri_text, in_brackets};
ghost use Rattle.text.specs.Text.{trimmed_piece};
ghost use Rattle.uri.specs.Steps.{Inside, UserInside, UserStep, cut_from, of_uri, scheme_length, size_of, user_in, user_size};

use authority::{after_host, read_host};
use limits::{Limits, Refusal};
use text::{Part, Span};
use uri_bytes::{Class, all_of, run};

mod authority;

// The parts of a URI: where they stand in its text.
#[derive(Clone, Copy)]
pub struct SipUri {
    pub secure: bool,
    pub user: Option<Span>,
    pub host: Span,
    pub port: Option<u16>,
}

// A given URI: 1, 6.
// Kept (1): document 01 has the reading of a URI opened by `let .. else`.
// Kept (2): `rack::parse_rack` is this with another check, reading and refusal; a function over both would be lent the three.
pub fn sip_uri(s: &[u8]) -> Result<SipUri, Refusal>
    ensures { result ≡ uri_answer (read_uri rust_limits s.now) }
{
    text::check_length(s)?;
    let Some(u) = read_uri(s) else {
        return Err(Refusal::InvalidUri);
    };
    Ok(u)
}

// The estimate of a given URI: 1, 6, 7.
pub fn uri_estimate(s: &[u8]) -> Result<usize, Refusal>
    ensures { result ≡ estimate_answer (read_estimate rust_limits s.now) }
{
    let u = sip_uri(s)?;
    if over_estimate(u) {
        return Err(Refusal::UriTooLong);
    }
    Ok(estimated_length(u))
}

// Where the text of the URI stands in a value that is given alone, if it is readable: 1, 2.
// Kept (1): document 01 has the reading of a URI opened by `let .. else`.
pub fn parse_uri_from_header(value: &[u8]) -> Result<Option<Span>, Refusal>
    ensures { result ≡ lookup_of (uri_from_header rust_limits value.now) }
{
    text::check_value(value)?;
    let Some((at, _)) = header_uri(value) else {
        return Ok(None);
    };
    Ok(Some(at))
}

// The URI in a value that was checked before.
// Kept (1): document 01 has the reading of a URI opened by `let .. else`.
pub fn header_uri(value: &[u8]) -> Option<(Span, SipUri)>
    ensures value { result ≡ header_uri_from (header_uri value.now) }
    ensures inside { Inside value.now result }
{
    let part = uri_text(value)?;
    let Some(u) = read_uri(part.text(value)) else {
        return None;
    };
    Some((part, u))
}

// The parts of a URI's text.
pub fn read_uri(s: &[u8]) -> Option<SipUri>
    ensures { result ≡ uri_from (sip_uri s.now) }
{
    let (at, secure) = scheme_length(s)?;
    with_user(s, at, secure)
}

// Whether the estimate of a URI is over the limit.
pub fn over_estimate(u: SipUri) -> bool
    ensures { result ≡ ltb rust_limits.uri (size_of u) }
{
    Limits::MAX_URI_LENGTH < user_length(u)
        || Limits::MAX_URI_LENGTH < u.host.length
        || Limits::MAX_URI_LENGTH < estimated_length(u)
}

// User, host, 6 for a port, and 10.
fn estimated_length(u: SipUri) -> usize
    requires { (user_size u.user ≤ rust_limits.uri) × (u.host.length ≤ rust_limits.uri) }
    ensures { result ≡ size_of u }
{
    let parts = user_length(u) + u.host.length;
    let port = u.port;
    port.map_or(parts + 10, |_| parts + 6 + 10)
}

// How long the user part is: 0 where there is none.
fn user_length(u: SipUri) -> usize
    ensures { result ≡ user_size u.user }
{
    let user = u.user;
    user.map_or(0, |part| part.length)
}

// How long `sip:` or `sips:` is, which stands first, and whether it is the secure one.
fn scheme_length(s: &[u8]) -> Option<(usize, bool)>
    ensures { result ≡ scheme_length s.now }
{
    if text::starts_with(s, b"sip:") {
        return Some((4, false));
    }
    if text::starts_with(s, b"sips:") {
        return Some((5, true));
    }
    None
}

// The parts from the user part on, which stands after the scheme.
// Kept (5): both steps need the whole text: their clauses say that the user part lies in it, which a `Part` from `at` on doesn't show.
fn with_user(s: &[u8], at: usize, secure: bool) -> Option<SipUri>
    requires { at ≤ length s.now }
    ensures { result ≡ uri_from (of_uri (drop at s.now) (with_user secure at (drop at s.now))) }
{
    let (user, host) = read_user(s, at)?;
    with_host(s, host, secure, user)
}

// All before the first `@`, or nothing where there is none; and where the host stands. Bytes that no URI has are seen here.
// Kept (5): the clause says that the user part lies in the whole text, before the place answered; a `Part` from a place on doesn't show that.
fn read_user(s: &[u8], at: usize) -> Option<(Option<Span>, usize)>
    requires { at ≤ length s.now }
    ensures { UserStep s.now at result }
{
    let rest = &s[at..];
    let n = run(rest, Class::User);
    if n == rest.len() {
        return Some((None, at));
    }
    if rest[n] != b'@' {
        return None;
    }
    let user = user_part(at, n)?;
    Some((Some(user), at + n + 1))
}

// The n bytes from a place on as a user part, which is not empty.
// Kept (5): the place and the count of what was read; the span of them is made here.
fn user_part(at: usize, n: usize) -> Option<Span>
    ensures { result ≡ user_at at n }
{
    if n == 0 {
        return None;
    }
    Some(Span {
        start: at,
        length: n,
    })
}

// The parts from the host on, with the user part that stands before it.
// Kept (1): document 01 has the reading of a number, as the port's, opened by `let .. else`.
// Kept (5): the clauses say what the user part is in the whole text; it stands before `at`, so that a `Part` from there on doesn't show it.
fn with_host(s: &[u8], at: usize, secure: bool, user: Option<Span>) -> Option<SipUri>
    requires { (at ≤ length s.now) × UserInside s.now user }
    ensures { result ≡ uri_from (of_uri (drop at s.now) (with_host secure (user_in s.now at user) at (drop at s.now))) }
{
    let rest = &s[at..];
    let n = read_host(rest)?;
    let tail = &rest[n..];
    let Some(port) = after_host(tail) else {
        return None;
    };
    if !all_of(tail, Class::Uri) {
        return None;
    }
    Some(SipUri {
        secure,
        user,
        host: Span {
            start: at,
            length: n,
        },
        port,
    })
}

// Where the text that is read as the URI stands: between the first `<` and the next `>`, or up to the first `;`.
fn uri_text(value: &[u8]) -> Option<Span>
    ensures { result ≡ cut_from (uri_text value.now) }
{
    let whole = text::trim_span(value);
    let t = whole.text(value);
    if let Some(n) = text::find(t, b'<') {
        return in_brackets(Part {
            place: whole.start + n + 1,
            text: &t[n + 1..],
        });
    }
    let n = text::find(t, b';').unwrap_or(t.len());
    Some(trimmed_part(Part {
        place: whole.start,
        text: &t[..n],
    }))
}

// The same, of the part behind the `<`.
fn in_brackets(part: Part<'_>) -> Option<Span>
    ensures { result ≡ cut_from (in_brackets part.entry.place part.entry.text.now) }
{
    let n = text::find(part.text, b'>')?;
    Some(trimmed_part(Part {
        place: part.place,
        text: &part.text[..n],
    }))
}

// Where a part stands without its blanks.
fn trimmed_part(part: Part<'_>) -> Span
    ensures { result ≡ span_of (trimmed_piece part.entry.place part.entry.text.now) }
{
    text::trim_span(part.text).moved(part.place)
}
