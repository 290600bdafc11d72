// Session intervals: refresh, expiry, the minimum, negotiation, and who refreshes. Times are given here in seconds.
use limits::NANOS_PER_SECOND;
use sheet_lines::{
    ask_of, end_line, show_checked, show_interval, show_or, show_seconds, show_time, show_verdict,
    show_yes,
};
use std::io;

pub fn intervals(rt: &impl Print) -> io::Result<()> {
    refreshes(rt)?;
    expiries(rt)?;
    minima(rt)?;
    negotiations(rt)?;
    roles(rt)
}

fn refreshes(rt: &impl Print) -> io::Result<()> {
    let sheet: &[u8] = b"01 sheet P";
    let rule: &[u8] = b"01 Intervals";
    let after_7_2: &[u8] = b"RFC 4028 after 7.2";
    due(rt, sheet, Some(90), 60000000000)?;
    due(rt, sheet, Some(90), 59999999999)?;
    due(rt, rule, Some(1), 666666666)?;
    due(rt, rule, Some(1), 666666665)?;
    due(rt, rule, None, 60000000000)?;
    half(rt, after_7_2, 1800)?;
    half(rt, after_7_2, 4000)?;
    half(rt, after_7_2, 91)
}

fn expiries(rt: &impl Print) -> io::Result<()> {
    let after_10: &[u8] = b"RFC 4028 after 10";
    expiry(rt, b"01 sheet P", 300)?;
    expiry(rt, after_10, 1800)?;
    expiry(rt, after_10, 4000)?;
    expiry(rt, after_10, 96)?;
    expiry(rt, after_10, 90)
}

fn minima(rt: &impl Print) -> io::Result<()> {
    let after_5: &[u8] = b"RFC 4028 after 5";
    let after_6: &[u8] = b"RFC 4028 after 6";
    let rows: &[u8] = b"01 rows 13, 14";
    validate(rt, after_5, 90, None)?;
    validate(rt, after_5, 89, None)?;
    validate(rt, after_6, 50, seconds(3600))?;
    validate(rt, after_6, 3600, seconds(3600))?;
    checked(rt, rows, 89)?;
    checked(rt, rows, 90)?;
    checked(rt, rows, 86400)?;
    checked(rt, rows, 86401)?;
    checked(rt, rows, 4294967386)
}

fn negotiations(rt: &impl Print) -> io::Result<()> {
    let sheet: &[u8] = b"01 sheet P";
    let after_13: &[u8] = b"RFC 4028 after 13";
    let after_9: &[u8] = b"RFC 4028 after 9";
    negotiate(rt, sheet, 1800, 90, seconds(120), seconds(60))?;
    negotiate(rt, sheet, 100, 90, seconds(120), seconds(60))?;
    negotiate(rt, after_13, 50, 3600, None, None)?;
    negotiate(rt, after_13, 3600, 4000, seconds(3600), None)?;
    negotiate(rt, after_13, 4000, 90, seconds(4000), None)?;
    negotiate(rt, after_9, 1800, 90, seconds(120), seconds(600))?;
    negotiate(rt, after_9, 4000, 90, seconds(3600), seconds(1800))?;
    negotiate(rt, after_9, 1800, 90, None, seconds(3600))
}

fn roles(rt: &impl Print) -> io::Result<()> {
    let after_7_2: &[u8] = b"RFC 4028 after 7.2";
    let after_9: &[u8] = b"RFC 4028 after 9";
    let errors: &[u8] = b"01 errors";
    let rule: &[u8] = b"01 Intervals";
    role(rt, after_7_2, Some(b"uac"), true)?;
    role(rt, after_7_2, Some(b"uas"), true)?;
    role(rt, after_9, Some(b"uac"), false)?;
    role(rt, after_9, Some(b"uas"), false)?;
    role(rt, errors, Some(b"Uas"), true)?;
    role(rt, errors, Some(b"Uas"), false)?;
    role(rt, errors, Some(b"UAS"), false)?;
    role(rt, rule, None, true)?;
    role(rt, rule, None, false)
}

fn due(rt: &impl Print, place: &[u8], interval: Option<u32>, elapsed: u64) -> io::Result<()> {
    ask_of(rt, place, b"refresh due, interval ", || {
        show_or(rt, interval, b"none", |n| show_seconds(rt, n as u64))?;
        rt.write_all(b", after ")?;
        show_time(rt, elapsed)
    })?;
    show_yes(rt, session_timer_manager::needs_refresh(interval, elapsed))?;
    end_line(rt)
}

// Kept (2): `expiry` differs in its words and in the function that is called, which each of its calls would give.
fn half(rt: &impl Print, place: &[u8], interval: u32) -> io::Result<()> {
    ask_seconds(rt, place, b"refresh time of ", interval)?;
    show_time(
        rt,
        session_timer_manager::calculate_refresh_time(nanos(interval)),
    )?;
    end_line(rt)
}

fn expiry(rt: &impl Print, place: &[u8], interval: u32) -> io::Result<()> {
    ask_seconds(rt, place, b"non-refresher expiry of ", interval)?;
    show_time(
        rt,
        session_timer_manager::non_refresher_expiry(nanos(interval)),
    )?;
    end_line(rt)
}

fn validate(rt: &impl Print, place: &[u8], interval: u32, minimum: Option<u64>) -> io::Result<()> {
    ask_of(rt, place, b"validate ", || {
        show_seconds(rt, interval as u64)?;
        rt.write_all(b", minimum ")?;
        show_optional(rt, minimum)
    })?;
    show_interval(
        rt,
        session_timer_manager::validate_session_expires(nanos(interval), minimum),
    )?;
    end_line(rt)
}

fn checked(rt: &impl Print, place: &[u8], interval: u64) -> io::Result<()> {
    ask_of(rt, place, b"set ", || show_seconds(rt, interval))?;
    show_checked(rt, session_seconds::check_expires_seconds(interval))?;
    end_line(rt)
}

fn negotiate(
    rt: &impl Print,
    place: &[u8],
    requested: u32,
    local_min: u32,
    remote_min: Option<u64>,
    preference: Option<u64>,
) -> io::Result<()> {
    ask_of(rt, place, b"negotiate ", || {
        show_seconds(rt, requested as u64)?;
        rt.write_all(b", minima ")?;
        show_seconds(rt, local_min as u64)?;
        rt.write_all(b" and ")?;
        show_optional(rt, remote_min)?;
        rt.write_all(b", preference ")?;
        show_optional(rt, preference)
    })?;
    show_interval(
        rt,
        session_timer_manager::negotiate_session_expires(
            nanos(requested),
            nanos(local_min),
            remote_min,
            preference,
        ),
    )?;
    end_line(rt)
}

fn role(rt: &impl Print, place: &[u8], param: Option<&[u8]>, is_uac: bool) -> io::Result<()> {
    ask_of(rt, place, b"we refresh, refresher ", || {
        rt.write_all(param.unwrap_or(b"none"))?;
        if is_uac {
            rt.write_all(b", we are uac")
        } else {
            rt.write_all(b", we are uas")
        }
    })?;
    show_verdict(
        rt,
        session_timer_manager::determine_refresher_role(param, is_uac),
    )?;
    end_line(rt)
}

fn ask_seconds(rt: &impl Print, place: &[u8], question: &[u8], interval: u32) -> io::Result<()> {
    ask_of(rt, place, question, || show_seconds(rt, interval as u64))
}

fn show_optional(rt: &impl Print, t: Option<u64>) -> io::Result<()> {
    show_or(rt, t, b"none", |n| show_time(rt, n))
}

fn seconds(n: u32) -> Option<u64> {
    Some(nanos(n))
}

fn nanos(n: u32) -> u64 {
    (n as u64) * NANOS_PER_SECOND
}
