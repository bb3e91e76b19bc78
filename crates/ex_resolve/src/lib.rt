//! Names of an EXPRESS schema: each bound to the declaration that it means, and the attributes and ancestors of its
//! entities (ISO 10303-11:1994, clause 10).
#![tactic(auto)]

mod identifiers;
mod named;
mod parts;
mod queue;
mod schema;
mod sorts;

pub use named::Named;
pub use schema::resolve;
