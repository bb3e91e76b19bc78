//! The faults of types of statements.
#![tactic(auto)]

mod control;
mod labels;
mod places;
mod statement;
mod taken_names;

pub use places::{assign_unless, assigned};
pub use statement::statements;
pub use taken_names::push_taken_of_statements;
