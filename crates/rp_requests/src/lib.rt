//! Requests as lines of JSON: from bytes to a request.
#![tactic(auto)]

mod asks;
mod grants;
mod groups;
mod lines;
mod links;
mod members;
mod places;
mod values;

pub use asks::{RequestLine, Unread, request_of};
