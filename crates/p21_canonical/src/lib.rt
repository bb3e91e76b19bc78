//! What canonical text is made of: the lines of instances, and the values of the header.
#![tactic(auto)]

mod binary;
mod header;
mod instance;
mod output;
mod tokens;
mod type_names;
mod value;

pub use header::write_values;
pub use instance::{write_entity_instance, write_lines};
pub use output::Output;
pub use tokens::write_string;
pub use type_names::type_text;
