//! What names stand for.

/// What a name of the schema's own scope declares.
#[derive(Clone, Copy, PartialEq, Eq)]
pub enum Declared {
    Constant(usize),
    Entity(usize),
    Function(usize),
    Rule(usize),
    Type(usize),
}

/// What the name of a type stands for.
#[derive(Clone, Copy, PartialEq, Eq)]
pub enum TypeName {
    Entity(usize),
    Defined(usize),
}

/// An item of an enumeration: the type, and the item's place in it from 0.
#[derive(Clone, Copy, PartialEq, Eq)]
pub struct EnumerationItem {
    pub type_number: usize,
    pub place: usize,
}

/// How an attribute is declared.
#[derive(Clone, Copy, PartialEq, Eq)]
pub enum AttributeSort {
    Explicit,
    Derived,
    Inverse,
}

/// A declaration of an attribute: the entity, how it declares the attribute, and the place among the entity's attributes
/// that are declared so, from 0.
#[derive(Clone, Copy, PartialEq, Eq)]
pub struct AttributePlace {
    pub entity: usize,
    pub sort: AttributeSort,
    pub place: usize,
}

/// What the name of an attribute means: one declaration, or several, and then it is ambiguous.
#[derive(Clone, Copy, PartialEq, Eq)]
pub enum AttributeMeaning {
    One(AttributePlace),
    Several,
}

/// The name of an attribute: its first byte, and what it means.
#[derive(Clone, Copy, PartialEq, Eq)]
pub struct AttributeUse {
    pub at: usize,
    pub meaning: AttributeMeaning,
}
