//! The declarations of an EXPRESS schema: constants, types, entities, functions and rules (ISO 10303-11:1994, clauses 8 and 9).
#![tactic(auto)]

mod algorithms;
mod data_types;
mod declarations;
mod entities;
mod supertypes;

pub use algorithms::{function_decl, rule_decl};
pub use declarations::{constants, type_decl};
pub use entities::entity_decl;
