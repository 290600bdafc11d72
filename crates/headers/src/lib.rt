// Readings of header values: tags, Session-Expires.
#![tactic(auto)]

mod session_timer;
mod tag;

pub use session_timer::{
    Refresher, expires_named, parse_session_expires, read_expires, session_expires,
};
pub use tag::{extract_tag, find_tag};
