//! What is looked up in a checked schema while it is compiled: names in their order, the roles and names of attributes, what
//! redeclares attributes in DERIVE, and what SELECTs choose from.
#![tactic(auto)]

mod declared_names;
mod graph;
mod names;
mod orders;
mod rederived;
mod role_names;
mod rows;
mod select_types;

pub use declared_names::{attributes, explicit_of};
pub use graph::supertypes;
pub use names::joined;
pub use orders::{entity_order, rule_order, type_order};
pub use rederived::{Rederived, derivations, rederived_of, rederived_rows};
pub use role_names::roles;
pub use select_types::{choices, selection, selects};
