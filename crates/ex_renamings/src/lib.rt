//! Which types of an EXPRESS schema rename others, and which are SELECTs (ISO 10303-11:1994, clauses 8.4.2 and 9.1); and
//! which members of a graph of types lead to marked ones.
#![tactic(auto)]

mod leading;
mod renamings;

pub use leading::{Turned, is_marked};
pub use renamings::Renamings;
