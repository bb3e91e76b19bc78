//! Statements with their names bound.
#![tactic(auto)]

mod control;
mod statement;

pub use statement::statements;
