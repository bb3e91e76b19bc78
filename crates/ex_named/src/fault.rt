/// What is wrong with a name.
#[derive(Clone, Copy, PartialEq, Eq)]
pub enum NameFaultKind {
    /// Nothing of that name is in scope, or not of a sort that can stand here.
    Undeclared,
    /// Its scope declares the name before.
    DeclaredTwice,
    /// An entity that is a supertype of itself.
    CyclicSubtype,
    /// A type that holds itself other than through an entity.
    CyclicType,
    /// The entity has no such attribute, or none that can stand here.
    NotAnAttribute,
}

/// The fault of least offset among a schema's names, and the first byte of its name, from 0.
#[derive(Clone, Copy, PartialEq, Eq)]
pub struct NameFault {
    pub kind: NameFaultKind,
    pub at: usize,
}
