//! The rows of a repository: what models and groups hold, and who may do what with them.
//!
//! `specs/` says what a level on a row is, what a partner sees of a table, what is altered in one,
//! what a group lists, and how much there may be. Nothing here speaks of requests.
#![tactic(auto)]

pub mod limits;
pub mod names;
pub mod rows;
