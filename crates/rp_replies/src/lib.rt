//! Replies as lines of JSON: from a reply to bytes.
#![tactic(auto)]

mod lists;
mod refusals;
mod replies;
mod reports;
mod writing;

pub use replies::{no_memory_line, reply_bytes, reply_line};
