//! The expressions of EXPRESS (ISO 10303-11:1994, clause 12).
#![tactic(auto)]

mod expressions;
mod factors;
mod grammar;
mod literals;
mod operators;
mod qualifiers;
mod string_tokens;

pub use expressions::{ExpressionForm, begins_expression, expression, simple_expression};
pub use string_tokens::strings;
