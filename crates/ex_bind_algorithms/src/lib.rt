//! Constants, functions and rules with their names bound.
#![tactic(auto)]

mod constants;
mod functions;
mod global_rules;
mod variables;

pub use constants::constant;
pub use functions::named_function;
pub use global_rules::named_rule;
