// How a record is shown: state letter, side, local and remote number, last ACK, seconds and refresher (`-` where absent), whether it is
// secure, the target and the routes.
use dialog::{image_route, read_image};
use headers::Refresher;
use image::UrisAt;
use record::{Numbers, State};
use sheet_lines::{show_bracketed, show_or, show_part};
use std::io;

pub fn show_record(rt: &impl Print, image: &[u8]) -> io::Result<()> {
    let Ok(r) = read_image(image) else {
        return rt.write_all(b"no record");
    };
    let numbers = r.numbers;
    let uris = r.uris;
    show_state(rt, numbers)?;
    show_side(rt, r.we_are_uac)?;
    show_numbers(rt, numbers)?;
    show_target(rt, image, uris)?;
    show_routes(rt, image, r.route_count)
}

// Kept (4): `write_state` of listing_lines has this match too, but writes into lent bytes, with a clause.
// A `Display` of `State` would be for this sheet alone.
fn show_state(rt: &impl Print, numbers: Numbers) -> io::Result<()> {
    match numbers.state {
        State::Early => rt.write_all(b"E"),
        State::Confirmed => rt.write_all(b"C"),
        State::Terminated => rt.write_all(b"T"),
    }
}

// Kept (2): as `show_yes` of sheet_lines, with two other words.
fn show_side(rt: &impl Print, we_are_uac: bool) -> io::Result<()> {
    if we_are_uac {
        rt.write_all(b" uac ")
    } else {
        rt.write_all(b" uas ")
    }
}

fn show_numbers(rt: &impl Print, numbers: Numbers) -> io::Result<()> {
    print!(rt; "{} {}", numbers.local, numbers.remote)?;
    show_or(rt, numbers.last_ack, b" -", |n| print!(rt; " {n}"))?;
    show_or(rt, numbers.seconds, b" -", |n| print!(rt; " {n}"))?;
    show_refresher(rt, numbers.refresher)
}

// Kept (4): the sheet's words for a type of a library.
// Kept (2): as `show_refresher` of sheet_lines, with other words: each sheet has its own.
fn show_refresher(rt: &impl Print, r: Option<Refresher>) -> io::Result<()> {
    match r {
        Some(Refresher::Uac) => rt.write_all(b" uac"),
        Some(Refresher::Uas) => rt.write_all(b" uas"),
        None => rt.write_all(b" -"),
    }
}

fn show_target(rt: &impl Print, image: &[u8], uris: UrisAt) -> io::Result<()> {
    if uris.local_secure || uris.remote_secure {
        rt.write_all(b", secure")?;
    }
    rt.write_all(b", target ")?;
    show_part(rt, image, uris.target)
}

fn show_routes(rt: &impl Print, image: &[u8], count: usize) -> io::Result<()> {
    if count == 0 {
        return rt.write_all(b", no routes");
    }
    rt.write_all(b", routes")?;
    show_each(rt, image, count)
}

fn show_each(rt: &impl Print, image: &[u8], count: usize) -> io::Result<()> {
    for i in 0..count {
        show_route(rt, image, i)?;
    }
    Ok(())
}

fn show_route(rt: &impl Print, image: &[u8], index: usize) -> io::Result<()> {
    if let Ok(Some(part)) = image_route(image, index) {
        rt.write_all(b" ")?;
        show_bracketed(rt, image, part)?;
    }
    Ok(())
}
