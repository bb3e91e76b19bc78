//! What a schema knows of its instances, found once when it is loaded and lent from then on: the entities of an instance, its
//! attributes and what their declared types come to, in the order of its values (ISO 10303-11:1994, 9.2).
#![tactic(auto)]

mod alike;
mod dictionary;
mod hints;
mod layout;
mod layouts;
mod read_slot;

pub use dictionary::Dictionary;
pub use layout::{Layout, layout_of, legal_leaf, legal_several};
pub use layouts::Layouts;
pub use read_slot::ReadSlot;
