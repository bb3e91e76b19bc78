//! A trial of evaluation: the conditions of a schema's WHERE clauses, each with its value and its steps for the instances of an
//! exchange file.
#![tactic(auto)]

mod answers;
mod limits;
mod lines;
mod loading;
mod trials;
mod values;

pub use answers::Keeping;
pub use limits::limits_of;
pub use trials::trial;
