//! What a schema declares, and what reaches what in it (ISO 10303-11:1994, clauses 9 and 10).
#![tactic(auto)]

mod attribute_names;
mod collected;
mod own_names;
mod reaching;
mod sorts;
mod uniqueness;

pub use collected::declarations;
pub use own_names::declared_names;
pub use reaching::{supertype_graph, type_graph};
pub use sorts::{entities, types};
pub use uniqueness::once;
