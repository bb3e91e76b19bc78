//! The attributes of entities, and what their values may be.
#![tactic(auto)]

mod attribute;
mod attributes;
mod declared_attributes;
mod declared_rows;
mod found;
mod kept;
mod keys;
mod latest;
mod order;
mod redeclarations;
mod redeclared_rows;
mod tables;
mod taken;

pub use attribute::{Attribute, Redeclared};
pub use attributes::Attributes;
pub use found::Found;
pub use kept::{Kept, KeptAmong, keep, keep_among};
