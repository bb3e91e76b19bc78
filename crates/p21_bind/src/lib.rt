//! What an exchange file holds, by the schema that it is of: the content of a model, or the first fault of its instances
//! (ISO 10303-21:2002, clauses 8 to 10).
#![tactic(auto)]

mod file;
mod loading;
mod mapped;
mod single;

pub use file::bind;
pub use loading::load;
pub use p21_mappings::{DefinedNames, Names};
pub use single::bind_instance;
