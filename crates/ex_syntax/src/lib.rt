//! The syntax of an EXPRESS schema (ISO 10303-11:1994, Annex A).
#![tactic(auto)]

mod schemas;

pub use schemas::parse;
