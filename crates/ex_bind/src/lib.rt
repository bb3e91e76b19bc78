//! Types, expressions and the rules of a WHERE clause with their names bound.
#![tactic(auto)]

mod copies;
mod expressions;
mod qualified;
mod rules;
mod types;

pub use copies::{copy_label, copy_name, copy_names};
pub use expressions::expression;
pub use rules::domain_rules;
pub use types::data_type;
