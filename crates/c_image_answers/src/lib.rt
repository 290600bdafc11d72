// Answers about one record image handed over to a C caller: the number is returned, and the values go to the lent numbers.
// Kept (1, 5): the header gives each lent number a parameter of its own: a flag beside what it is of, a place and its length.
#![tactic(auto)]

ghost use Rattle.c_image_answers.specs.Given.{StateGives, UrisGives, NumbersGives};

use c_answers::{give_spans, refresher_number};
use image::{RecordAt, state_number};
use limits::Refusal;

pub fn give_state(
    answer: Result<RecordAt, Refusal>,
    state: &mut u8,
    we_are_uac: &mut u8,
    secure: &mut u8,
) -> u8
    ensures { StateGives answer (record { state = state.old; we_are_uac = we_are_uac.old; secure = secure.old }) result (record { state = state.new; we_are_uac = we_are_uac.new; secure = secure.new }) }
{
    match answer {
        Ok(r) => {
            let numbers = r.numbers;
            let s = numbers.state;
            let uris = r.uris;
            *state = state_number(s);
            *we_are_uac = u8::from(r.we_are_uac);
            *secure = u8::from(uris.local_secure || uris.remote_secure);
            0
        }
        Err(x) => x.number(),
    }
}

pub fn give_uris(
    answer: Result<RecordAt, Refusal>,
    target: &mut usize,
    target_length: &mut usize,
    local_uri: &mut usize,
    local_uri_length: &mut usize,
    remote_uri: &mut usize,
    remote_uri_length: &mut usize,
) -> u8
    ensures { UrisGives answer (record { target = target.old; target_length = target_length.old; local_uri = local_uri.old; local_uri_length = local_uri_length.old; remote_uri = remote_uri.old; remote_uri_length = remote_uri_length.old }) result (record { target = target.new; target_length = target_length.new; local_uri = local_uri.new; local_uri_length = local_uri_length.new; remote_uri = remote_uri.new; remote_uri_length = remote_uri_length.new }) }
{
    let parts = answer.map(|r| (r.uris.target, r.uris.local_uri, r.uris.remote_uri));
    give_spans(
        parts,
        target,
        target_length,
        local_uri,
        local_uri_length,
        remote_uri,
        remote_uri_length,
    )
}

pub fn give_numbers(
    answer: Result<RecordAt, Refusal>,
    local: &mut u32,
    remote: &mut u32,
    has_last_ack: &mut u8,
    last_ack: &mut u32,
    has_seconds: &mut u8,
    seconds: &mut u32,
    refresher: &mut u8,
) -> u8
    ensures { NumbersGives answer (record { local = local.old; remote = remote.old; has_last_ack = has_last_ack.old; last_ack = last_ack.old; has_seconds = has_seconds.old; seconds = seconds.old; refresher = refresher.old }) result (record { local = local.new; remote = remote.new; has_last_ack = has_last_ack.new; last_ack = last_ack.new; has_seconds = has_seconds.new; seconds = seconds.new; refresher = refresher.new }) }
{
    match answer {
        Ok(r) => {
            let numbers = r.numbers;
            let ack = numbers.last_ack;
            let interval = numbers.seconds;
            let side = numbers.refresher;
            *local = numbers.local;
            *remote = numbers.remote;
            *has_last_ack = u8::from(ack.is_some());
            *last_ack = ack.unwrap_or(*last_ack);
            *has_seconds = u8::from(interval.is_some());
            *seconds = interval.unwrap_or(*seconds);
            *refresher = refresher_number(side);
            0
        }
        Err(x) => x.number(),
    }
}
