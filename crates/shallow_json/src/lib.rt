//! Reading JSON without what stands within lists and objects: that is read, so that a text means no more than it
//! should, and takes no memory. And which keys an object has.
#![tactic(auto)]

mod keys;
mod members;
mod numbers;
mod skip;
mod texts;

pub use keys::has_only_keys;
pub use members::{Unread, read_flat, read_member, read_members, read_scalar, take_begin_object};
pub use skip::{skip_items, skip_members};
pub use texts::read_texts;
