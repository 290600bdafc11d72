// Calls by identifier that change one held record in its place in a dialog store, on lent bytes of which so many are used. Each answers the new used
// length; the next local number is answered beside it. The request entry is in `store_requests`.
#![tactic(auto)]

mod calls;

pub use calls::{next_local_cseq, response, set_session_expires, terminate};
