//! How an exchange file is mapped to what a model holds: the header; the instance that an external mapping is, and the values of
//! an internal one, or the first fault, by what was found in the schema for those before it; and all instances of a file that is
//! whole (ISO 10303-21:2002, 9 and 10.2).
#![tactic(auto)]

mod content;
mod header;
mod names;
mod parts;
mod referred;
mod value;

pub use content::{in_name_order, whole};
pub use header::header_of;
pub use names::{AnyName, Defined, DefinedNames, Names};
pub use parts::{by_parts, entity_named, values_of_leaf};
pub use referred::put_references_of;
pub use value::Mapped;
