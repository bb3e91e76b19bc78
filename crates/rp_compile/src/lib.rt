//! A schema that was checked, as it is evaluated.
#![tactic(auto)]

mod algorithms;
mod declared;
mod defined_types;
mod entities;
mod expressions;
mod schema;

pub use schema::compile;
