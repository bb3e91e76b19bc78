//! Roles: the attributes in which uses are looked for (ISO 10303-11:1994, 15.26).

use ex_named::AttributePlace;
use plain_data::{Items, Text};

pub enum Role {
    /// All attributes.
    Every,
    /// These attributes, in the instances of an entity.
    Of(usize, Items<AttributePlace>),
}

impl Drop for Role {
    fn drop(self) {
        match self {
            Role::Every => {}
            Role::Of(_, attributes) => drop(attributes),
        }
    }
}

/// A role by its name, `SCHEMA.ENTITY.ATTRIBUTE` in upper case.
#[derive(Drop)]
pub struct NamedRole {
    pub name: Text,
    pub role: Role,
}
