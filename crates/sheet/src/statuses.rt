// The classes of a response's status code.
use sheet_lines::{ask_number, end_line};
use std::io;

pub fn statuses(rt: &impl Print) -> io::Result<()> {
    let after_7_2: &[u8] = b"RFC 3261 after 7.2";
    class(rt, after_7_2, 99)?;
    class(rt, b"RFC 3261 21.1.1", 100)?;
    class(rt, b"RFC 3261 21.1.2", 180)?;
    class(rt, after_7_2, 199)?;
    class(rt, b"RFC 3261 21.2.1", 200)?;
    class(rt, after_7_2, 299)?;
    class(rt, b"RFC 3261 21.3.3", 302)?;
    class(rt, b"RFC 3261 21.4.5", 404)?;
    class(rt, b"RFC 4028 6", 422)?;
    class(rt, b"RFC 3261 21.5.4", 503)?;
    class(rt, b"RFC 3261 21.6.1", 600)?;
    class(rt, after_7_2, 699)?;
    class(rt, after_7_2, 700)
}

fn class(rt: &impl Print, place: &[u8], code: u16) -> io::Result<()> {
    ask_number(rt, place, b"class of ", code as u64)?;
    show_class(rt, code)?;
    if msg::is_error(code) {
        rt.write_all(b", error")?;
    }
    end_line(rt)
}

fn show_class(rt: &impl Print, code: u16) -> io::Result<()> {
    if msg::is_informational(code) {
        return rt.write_all(b"informational");
    }
    if msg::is_success(code) {
        return rt.write_all(b"success");
    }
    if msg::is_redirection(code) {
        return rt.write_all(b"redirection");
    }
    if msg::is_client_error(code) {
        return rt.write_all(b"client error");
    }
    if msg::is_server_error(code) {
        return rt.write_all(b"server error");
    }
    if msg::is_global_failure(code) {
        return rt.write_all(b"global failure");
    }
    rt.write_all(b"none")
}
