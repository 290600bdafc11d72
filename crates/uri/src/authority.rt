// The host of a URI, and the port after it.
ghost use Rattle.std.specs.Prelude.{◌≡◌, true};
ghost use Rattle.uri.specs.SipUri.{begins, host_text, at_end, given_port, port_number, port_of};
ghost use Rattle.uri.specs.Steps.{host_from, InsideHost, after_host_from};

use uri_bytes::{Class, all_of, ends_host, ends_port, run};

// A host in brackets, or a name up to `:`, `;`, `?` or the end.
// Kept (1): the pattern tells the proof that there is a byte, and which; by `*s.first()?` four answers have to be given both.
pub fn read_host(s: &[u8]) -> Option<usize>
    ensures value { result ≡ host_from (host_text s.now) }
    ensures inside_host { InsideHost s.now result }
{
    let [first, ..] = s else {
        return None;
    };
    if *first == b'[' {
        return read_bracketed(s);
    }
    let n = run(s, Class::Host);
    if n == s.len() {
        return Some(n);
    }
    if !ends_host(s[n]) || n == 0 {
        return None;
    }
    Some(n)
}

// A host that begins with `[`: up to the first `]`, with an address between them.
fn read_bracketed(s: &[u8]) -> Option<usize>
    requires { begins 91 s.now ≡ true }
    ensures value { result ≡ host_from (host_text s.now) }
    ensures inside_host { InsideHost s.now result }
{
    let n = text::find(s, b']')?;
    if n < 2 || !all_of(&s[1..n], Class::Address) {
        return None;
    }
    Some(n + 1)
}

// The port after `:`, or none where nothing, parameters or headers follow.
pub fn after_host(s: &[u8]) -> Option<Option<u16>>
    ensures { result ≡ after_host_from (port_of s.now) }
{
    match s {
        [] => Some(None),
        [b':', port @ ..] => read_port(port),
        [first, ..] if ends_port(*first) => Some(None),
        _ => None,
    }
}

// 1 to 5 digits, at most 65,535, up to the end, parameters or headers.
// Kept (1): document 01 has the reading of a number opened by `let .. else`.
fn read_port(s: &[u8]) -> Option<Option<u16>>
    ensures { result ≡ after_host_from (given_port (port_number s.now)) }
{
    let n = run(s, Class::Digit);
    if 5 < n || !at_end(&s[n..]) {
        return None;
    }
    let Some(v) = text::digits_below(&s[..n], 65536) else {
        return None;
    };
    Some(Some(v as u16))
}

// Whether nothing, parameters or headers follow.
fn at_end(s: &[u8]) -> bool
    ensures { result ≡ at_end s.now }
{
    match s {
        [] => true,
        [first, ..] => ends_port(*first),
    }
}
