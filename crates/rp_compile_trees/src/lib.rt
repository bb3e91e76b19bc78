//! Expressions and statements of a checked schema, as they are evaluated.
#![tactic(auto)]

mod control;
mod declared;
mod leaves;
mod made;
mod statement;
mod trees;

pub use declared::Declared;
pub use made::{both, push_made};
pub use statement::statements;
pub use trees::expression;
