//! Statements of EXPRESS (ISO 10303-11:1994, clause 13).
#![tactic(auto)]

mod control;
mod place;
mod simple;
mod statement;

pub use place::{Place, begins_statement};
pub use statement::statements;
