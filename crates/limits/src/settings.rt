// The five limits that a site sets (document 02, request 7), as C gives them to each call on a record, a dialog store or a PRACK store.
ghost use Rattle.std.specs.Prelude.{◌≡◌};
ghost use Rattle.limits.specs.Settings.{in_bounds, rust_settings};

use crate::Limits;

#[derive(Clone, Copy)]
#[repr(C)]
pub struct Settings {
    // The most that a request's CSeq may be above the remote number.
    pub cseq_jump: u32,
    // The most entries of a PRACK list.
    pub pending: u32,
    // A PRACK list is cleaned where so many seconds or more have passed since it was.
    pub cleanup_seconds: u32,
    // An entry that was registered longer ago goes in a cleanup.
    pub timeout_seconds: u32,
    // The other Early records of a Call-ID at which an Early one is no longer put.
    pub early_cap: u32,
}

impl Settings {
    // The Rust's own: lib.rs and prack_validator.rs.
    pub fn rust() -> Settings
        ensures { result ≡ rust_settings }
    {
        Settings {
            cseq_jump: 1000,
            pending: 10,
            cleanup_seconds: 300,
            timeout_seconds: 300,
            early_cap: 100,
        }
    }

    // Whether each lies within its bounds; a call that is given one that doesn't is refused by 30.
    pub fn in_bounds(self) -> bool
        ensures { result ≡ in_bounds self }
    {
        (1..=65535).contains(&self.cseq_jump)
            && (1..=Limits::MAX_PENDING_SETTING as u32).contains(&self.pending)
            && (1..=3600).contains(&self.cleanup_seconds)
            && (1..=3600).contains(&self.timeout_seconds)
            && (1..=100).contains(&self.early_cap)
    }
}
