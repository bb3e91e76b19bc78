//! The plain repository: the words in which requests, replies and their meaning are said.
//!
//! `specs/` has the definitions: what a repository holds, what a partner's requests are told of it,
//! the step that a request makes, what a partner sees, and runs of many partners. No body of the
//! repository stands here.
#![tactic(auto)]

pub mod lists;
pub mod messages;
pub mod reports;
