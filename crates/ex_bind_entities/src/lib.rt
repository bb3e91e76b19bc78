//! Entities and types with their names bound (ISO 10303-11:1994, 9.1 and 9.2).
#![tactic(auto)]

mod attribute_uses;
mod attributes;
mod entities;
mod families;
mod redeclarations;
mod repeated;
mod scope_names;
mod supertypes;
mod types;
mod unique_rules;

pub use entities::named_entity;
pub use types::named_type;
