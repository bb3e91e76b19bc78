//! What operators, functions and qualifiers of EXPRESS take, and what they give.
#![tactic(auto)]

mod arithmetic;
mod cases;
mod fitting;
mod functions;
mod operand;
mod operators;
mod possibilities;
mod ruling;
mod taken;

pub use cases::case_fault;
pub use fitting::{fits, is_integer};
pub use functions::{built_in, built_in_anyway, called};
pub use operators::{binary, binary_anyway, comparison, unary, unary_anyway};
pub use ruling::Ruling;
pub use taken::{elements_of, grouped, indexed, queried, ranged};
