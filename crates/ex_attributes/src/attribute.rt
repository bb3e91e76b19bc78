//! Attributes as they are declared.

use ex_kinds::Kinds;
use ex_named::AttributePlace;
use ex_tree::Identifier;

/// An attribute that an entity declares, and what its value may be.
#[derive(Drop)]
pub struct Attribute {
    pub name: Identifier,
    pub place: AttributePlace,
    pub kinds: Kinds,
}

/// An inherited attribute that an entity redeclares, and what its value may be there.
#[derive(Drop)]
pub struct Redeclared {
    pub place: AttributePlace,
    /// The entity that redeclares it.
    pub entity: usize,
    pub kinds: Kinds,
}
