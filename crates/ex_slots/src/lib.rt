//! What files write of an instance: its explicit attributes, each with what its declaration says; and what entities
//! redeclare.
//!
//! Nothing of it is kept in the schema, where it could be the square of the text: who needs it makes it, for the entities of an
//! instance, and keeps it as long as it is needed.
#![tactic(auto)]

mod instances;
mod redeclared;
mod slot;

pub use instances::{slots, slots_of_each};
pub use redeclared::{Clause, Redeclaration, redeclarations};
pub use slot::Slot;
