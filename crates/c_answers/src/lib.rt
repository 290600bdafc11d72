// Answers handed over to a C caller: the number is returned, and the values go to the lent numbers.
// Kept (1, 5): the header gives each lent number a parameter of its own: a flag beside what it is of, a place and its length.
#![tactic(auto)]

ghost use Rattle.std.specs.Prelude.{◌≡◌};
ghost use Rattle.limits.specs.Outcome.{number_in};
ghost use Rattle.limits.specs.Refusal.{number_of};
ghost use Rattle.c_answers.specs.Given.{refresher_number, least_after, ValueGives, FlagGives, WithUsedGives, WithLeastGives, FoundGives, LookupGives, NextGives, PartGives, SpansGives, IdGives, UriGives, ExpiresGives, MethodLookupGives, RackGives, ValidatedGives};

use dialog_id::DialogId;
use headers::Refresher;
use limits::Refusal;
use rack::RAck;
use text::Span;
use uri::SipUri;

// Whether a text, a number or an interval was found, as it is handed over.
pub const FOUND: u8 = 1;

pub const NOTHING: u8 = 0;

pub fn check_number(c: Result<(), Refusal>) -> u8
    ensures { result ≡ number_in c }
{
    match c {
        Ok(()) => 0,
        Err(x) => x.number(),
    }
}

// One value.
pub fn give<T: Copy>(answer: Result<T, Refusal>, value: &mut T) -> u8
    ensures { ValueGives answer value.old result value.new }
{
    match answer {
        Ok(given) => {
            *value = given;
            0
        }
        Err(x) => x.number(),
    }
}

// Yes or no: 1 or 0.
pub fn give_flag(answer: Result<bool, Refusal>, flag: &mut u8) -> u8
    ensures { FlagGives answer flag.old result flag.new }
{
    give(answer.map(u8::from), flag)
}

// One value, and the new used length.
pub fn give_with_used<T: Copy>(
    answer: Result<(T, usize), Refusal>,
    used: &mut usize,
    value: &mut T,
) -> u8
    ensures { WithUsedGives answer (record { used = used.old; value = value.old }) result (record { used = used.new; value = value.new }) }
{
    match answer {
        Ok((given, length)) => {
            *used = length;
            *value = given;
            0
        }
        Err(cause) => cause.number(),
    }
}

// One value, or with 13 the least.
pub fn give_with_least<T: Copy>(answer: Result<T, Refusal>, value: &mut T, least: &mut u64) -> u8
    ensures { WithLeastGives answer (record { value = value.old; least = least.old }) result (record { value = value.new; least = least.new }) }
{
    match answer {
        Ok(given) => {
            *value = given;
            0
        }
        Err(x) => give_least(x, least),
    }
}

// One value where there is one, and whether there is.
fn give_found<T: Copy>(answer: Result<Option<T>, Refusal>, found: &mut u8, value: &mut T) -> u8
    ensures { FoundGives answer (record { found = found.old; value = value.old }) result (record { found = found.new; value = value.new }) }
{
    match answer {
        Ok(Some(given)) => {
            *found = FOUND;
            *value = given;
            0
        }
        Ok(None) => {
            *found = NOTHING;
            0
        }
        Err(x) => x.number(),
    }
}

pub fn give_lookup(
    answer: Result<Option<Span>, Refusal>,
    found: &mut u8,
    place: &mut usize,
    length: &mut usize,
) -> u8
    ensures { LookupGives answer (record { found = found.old; place = place.old; length = length.old }) result (record { found = found.new; place = place.new; length = length.new }) }
{
    let mut part = Span {
        start: *place,
        length: *length,
    };
    let number = give_found(answer, found, &mut part);
    *place = part.start;
    *length = part.length;
    number
}

pub fn give_next(
    answer: Result<Option<(Span, usize)>, Refusal>,
    found: &mut u8,
    place: &mut usize,
    length: &mut usize,
    next: &mut usize,
) -> u8
    ensures { NextGives answer (record { found = found.old; place = place.old; length = length.old; next = next.old }) result (record { found = found.new; place = place.new; length = length.new; next = next.new }) }
{
    let mut given = (
        Span {
            start: *place,
            length: *length,
        },
        *next,
    );
    let number = give_found(answer, found, &mut given);
    let (part, after) = given;
    *place = part.start;
    *length = part.length;
    *next = after;
    number
}

pub fn give_part(answer: Result<Span, Refusal>, place: &mut usize, length: &mut usize) -> u8
    ensures { PartGives answer (record { place = place.old; length = length.old }) result (record { place = place.new; length = length.new }) }
{
    match answer {
        Ok(s) => {
            *place = s.start;
            *length = s.length;
            0
        }
        Err(x) => x.number(),
    }
}

// Where three texts lie.
pub fn give_spans(
    answer: Result<(Span, Span, Span), Refusal>,
    first: &mut usize,
    first_length: &mut usize,
    second: &mut usize,
    second_length: &mut usize,
    third: &mut usize,
    third_length: &mut usize,
) -> u8
    ensures { SpansGives answer (record { first = first.old; first_length = first_length.old; second = second.old; second_length = second_length.old; third = third.old; third_length = third_length.old }) result (record { first = first.new; first_length = first_length.new; second = second.new; second_length = second_length.new; third = third.new; third_length = third_length.new }) }
{
    match answer {
        Ok((a, b, c)) => {
            *first = a.start;
            *first_length = a.length;
            *second = b.start;
            *second_length = b.length;
            *third = c.start;
            *third_length = c.length;
            0
        }
        Err(x) => x.number(),
    }
}

pub fn give_id(
    answer: Result<DialogId, Refusal>,
    call: &mut usize,
    call_length: &mut usize,
    local: &mut usize,
    local_length: &mut usize,
    remote: &mut usize,
    remote_length: &mut usize,
) -> u8
    ensures { IdGives answer (record { call = call.old; call_length = call_length.old; local = local.old; local_length = local_length.old; remote = remote.old; remote_length = remote_length.old }) result (record { call = call.new; call_length = call_length.new; local = local.new; local_length = local_length.new; remote = remote.new; remote_length = remote_length.new }) }
{
    let parts = answer.map(|i| (i.call_id, i.local_tag, i.remote_tag));
    give_spans(
        parts,
        call,
        call_length,
        local,
        local_length,
        remote,
        remote_length,
    )
}

pub fn give_uri(
    answer: Result<SipUri, Refusal>,
    secure: &mut u8,
    user: &mut usize,
    user_length: &mut usize,
    host: &mut usize,
    host_length: &mut usize,
    has_port: &mut u8,
    port: &mut u16,
) -> u8
    ensures { UriGives answer (record { secure = secure.old; user = user.old; user_length = user_length.old; host = host.old; host_length = host_length.old; has_port = has_port.old; port = port.old }) result (record { secure = secure.new; user = user.new; user_length = user_length.new; host = host.new; host_length = host_length.new; has_port = has_port.new; port = port.new }) }
{
    match answer {
        Ok(u) => {
            let part = u.user.unwrap_or(Span {
                start: u.host.start,
                length: 0,
            });
            *secure = u8::from(u.secure);
            *user = part.start;
            *user_length = part.length;
            *host = u.host.start;
            *host_length = u.host.length;
            *has_port = u8::from(u.port.is_some());
            *port = u.port.unwrap_or(*port);
            0
        }
        Err(x) => x.number(),
    }
}

pub fn give_expires(
    answer: Result<Option<(u32, Option<Refresher>)>, Refusal>,
    found: &mut u8,
    seconds: &mut u32,
    refresher: &mut u8,
) -> u8
    ensures { ExpiresGives answer (record { found = found.old; seconds = seconds.old; refresher = refresher.old }) result (record { found = found.new; seconds = seconds.new; refresher = refresher.new }) }
{
    let parts = answer.map(|o| o.map(|(n, r)| (n, refresher_number(r))));
    let mut given = (*seconds, *refresher);
    let number = give_found(parts, found, &mut given);
    (*seconds, *refresher) = given;
    number
}

pub fn give_method_lookup(
    answer: Result<Option<u8>, Refusal>,
    found: &mut u8,
    method: &mut u8,
) -> u8
    ensures { MethodLookupGives answer (record { found = found.old; method = method.old }) result (record { found = found.new; method = method.new }) }
{
    give_found(answer, found, method)
}

pub fn give_rack(
    answer: Result<RAck, Refusal>,
    rseq: &mut u32,
    cseq: &mut u32,
    method: &mut u8,
) -> u8
    ensures { RackGives answer (record { rseq = rseq.old; cseq = cseq.old; method = method.old }) result (record { rseq = rseq.new; cseq = cseq.new; method = method.new }) }
{
    match answer {
        Ok(a) => {
            *rseq = a.rseq;
            *cseq = a.cseq;
            *method = a.method;
            0
        }
        Err(x) => x.number(),
    }
}

// 0 where the interval is taken, or with 13 the least.
pub fn give_validated(answer: Result<u64, Refusal>, least: &mut u64) -> u8
    ensures { ValidatedGives answer least.old result least.new }
{
    let mut interval = 0;
    give_with_least(answer, &mut interval, least)
}

// 0 none, 1 uac, 2 uas.
// Kept (4): an `Option` of a library's enum: `From` can't be written for it here.
pub fn refresher_number(r: Option<Refresher>) -> u8
    ensures { result ≡ refresher_number r }
{
    r.map_or(0, |side| side as u8)
}

// The number of a refusal, and of 13 the least.
pub fn give_least(x: Refusal, least: &mut u64) -> u8
    ensures value { result ≡ number_of x }
    ensures least_after { least.new ≡ least_after x least.old }
{
    if let Refusal::SessionExpiresTooSmall(given) = x {
        *least = given;
    }
    x.number()
}
