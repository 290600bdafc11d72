// DialogManager: the look-ups of a dialog store, on lent bytes of which so many are used.
#![tactic(auto)]

mod finding;
mod lookups;
mod placing;

pub use finding::{OfCallId, OfId, Wanted, is_part, search, search_id};
pub use lookups::{find_by_call_id, find_by_request, get};
