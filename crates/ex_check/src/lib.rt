//! What is said of an EXPRESS text: the name of its schema with its warnings, or its first fault, with their lines and
//! columns.
#![tactic(auto)]

mod explain;
mod fault;
mod place;
mod report;
mod schema;
mod shown;

pub use explain::explain_text;
pub use fault::SchemaFault;
pub use report::{CheckFault, Verdict, check_compiled, check_text, words_of_fault};
pub use schema::compile_schema;
