//! What replies and snapshots have in common as JSON: members of objects, lists, and links.
#![tactic(auto)]

mod links;
mod members;

pub use links::write_links;
pub use members::{number_at, string_at};
