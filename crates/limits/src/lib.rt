// The limits of the Rust as associated constants, the five that a site sets, and the refusals of document 01's table "Turned back" with document 02's.
#![tactic(auto)]

ghost use Rattle.std.specs.Prelude.{◌≡◌};
ghost use Rattle.limits.specs.Refusal.{number_of};

// The nanoseconds of a second: clock times are counted in them, the limits of time in seconds.
pub const NANOS_PER_SECOND: u64 = 1000000000;

// Holds no state: a name for the constants.
#[derive(Clone, Copy)]
pub struct Limits {}

impl Limits {
    // Document 01: a given text or block, and the store of the listing.
    pub const MAX_TEXT_LENGTH: usize = 8192;

    pub const MAX_LISTED_STORE: usize = 65536;

    // lib.rs: identifiers and collections.
    pub const MAX_CALL_ID_LENGTH: usize = 256;

    pub const MAX_TAG_LENGTH: usize = 128;

    pub const MAX_URI_LENGTH: usize = 512;

    pub const MAX_ROUTE_SET_SIZE: usize = 50;

    pub const MAX_CONFIRMED_DIALOGS: usize = 10000;

    // lib.rs: CSeq numbers, and session intervals in seconds.
    pub const MAX_CSEQ_VALUE: u32 = 2147483647;

    pub const MIN_SESSION_EXPIRES: u32 = 90;

    pub const MAX_SESSION_EXPIRES: u32 = 86400;

    // Document 02, request 7: the most entries that a site may have in a PRACK list.
    pub const MAX_PENDING_SETTING: usize = 32;
}

mod settings;

pub use settings::Settings;

// Why a call is turned back, in the order of the numbers 1 to 28, and 30. The names are DialogError's where it has one.
// Kept (1): the error enum itself, a choice of 29.
#[derive(Clone, Copy)]
pub enum Refusal {
    TextTooLong,
    Malformed,
    BadStore,
    MissingHeader,
    InvalidStatus,
    InvalidUri,
    UriTooLong,
    RouteSetTooLarge,
    CSeqZero,
    CSeqTooLarge,
    InvalidCSeq,
    CSeqJumpTooLarge,
    // With the least interval that is taken.
    SessionExpiresTooSmall(u64),
    SessionExpiresTooLarge,
    NotFound,
    TooManyDialogs,
    TooManyEarlyDialogs,
    NoRoom,
    InvalidRAck,
    NoPendingList,
    UnknownRSeq,
    RAckCSeqMismatch,
    RAckMethodMismatch,
    DuplicatePrack,
    IdentifierEmpty,
    IdentifierTooLong,
    ControlCharacters,
    InvalidMethod,
    SettingOutOfBounds,
}

impl Refusal {
    // The number of document 01's table, and document 02's 30.
    // Kept (4): one variant has a field, so that no cast takes the enum; a `From` would be this match.
    pub fn number(self) -> u8
        ensures { result ≡ number_of self }
    {
        match self {
            Refusal::TextTooLong => 1,
            Refusal::Malformed => 2,
            Refusal::BadStore => 3,
            Refusal::MissingHeader => 4,
            Refusal::InvalidStatus => 5,
            Refusal::InvalidUri => 6,
            Refusal::UriTooLong => 7,
            Refusal::RouteSetTooLarge => 8,
            Refusal::CSeqZero => 9,
            Refusal::CSeqTooLarge => 10,
            Refusal::InvalidCSeq => 11,
            Refusal::CSeqJumpTooLarge => 12,
            Refusal::SessionExpiresTooSmall(_) => 13,
            Refusal::SessionExpiresTooLarge => 14,
            Refusal::NotFound => 15,
            Refusal::TooManyDialogs => 16,
            Refusal::TooManyEarlyDialogs => 17,
            Refusal::NoRoom => 18,
            Refusal::InvalidRAck => 19,
            Refusal::NoPendingList => 20,
            Refusal::UnknownRSeq => 21,
            Refusal::RAckCSeqMismatch => 22,
            Refusal::RAckMethodMismatch => 23,
            Refusal::DuplicatePrack => 24,
            Refusal::IdentifierEmpty => 25,
            Refusal::IdentifierTooLong => 26,
            Refusal::ControlCharacters => 27,
            Refusal::InvalidMethod => 28,
            Refusal::SettingOutOfBounds => 30,
        }
    }
}
