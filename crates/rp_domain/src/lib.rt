//! Populations by position.
#![tactic(auto)]

mod attributes;
mod chains;
mod combination;
mod combinations;
mod domain;
mod extents;
mod instance;
mod others;
mod places;
mod read;
mod readings;
mod references;
mod room;
mod rows;
mod sameness;
mod users;

pub use domain::ListDomain;
pub use instance::WrittenInstance;
