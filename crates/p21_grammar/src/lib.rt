//! The grammar of an exchange file: its header, its instances, the whole.
#![tactic(auto)]

mod grammar;
mod header;
mod schemas;
mod source;
mod visited;
mod whole;

pub use grammar::{Read, instance, instances, mapping, quoted};
pub use header::{Head, header_section, line, one_schema};
pub use schemas::is_of_schema;
pub use source::Source;
pub use visited::{Visitor, read_visited};
pub use whole::file;
