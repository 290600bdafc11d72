// The elements of a header value, the Contact's URI, and the route set of a block's Record-Route lines.
#![tactic(auto)]

mod elements;
mod parts;
mod routes;

pub use elements::Elements;
pub use parts::{next_header_value, next_part};
pub use routes::{contact_at, find_contact, read_contact, read_element, route, route_count};
