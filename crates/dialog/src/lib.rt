// Dialog: readings of one record image. What creation and the updates make of a record is defined in `dialog_rules`; the updates of one image are in
// `dialog_changes`, `dialog_updates` and above it, creation in `dialog_creation`.
#![tactic(auto)]

mod matching;
mod readings;
mod routes;

pub use matching::matches_request;
pub use readings::{needs_refresh, read_image};
pub use routes::image_route;
