//! Canonical text: the one text of what a model holds, by its schema.
#![tactic(auto)]

mod file;
mod single;

pub use file::write;
pub use p21_canonical::type_text;
pub use single::write_instance;
