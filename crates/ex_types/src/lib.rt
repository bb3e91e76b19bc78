//! A schema with its types checked.
#![tactic(auto)]

mod algorithms;
mod constants;
mod declarations;
mod defined_types;
mod entities;
mod known;
mod names;
mod rules;
mod schema;
mod taken_names;
mod uses;
mod variables;

pub use ex_kinds::{TypeFault, TypeFaultKind};
pub use schema::{CheckedSchema, check};
