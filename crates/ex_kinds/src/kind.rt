//! Kinds.

/// What a value may be.
#[derive(Clone, Copy, PartialEq, Eq)]
pub enum Sort {
    Integer,
    Real,
    String,
    Binary,
    Logical,
    /// An item of the enumeration of this type.
    Enumeration(usize),
    /// Whatever a value of this defined type may be.
    Defined(usize),
    /// An instance of this entity.
    Entity(usize),
    /// An instance of some entity.
    Instance,
    Aggregate,
    /// Whatever there is.
    Generic,
}

/// What a value may be in the end, where no number tells which.
#[derive(Clone, Copy)]
pub enum PlainSort {
    Integer,
    Real,
    String,
    Binary,
    Logical,
    /// An item of some enumeration.
    Enumeration,
    /// An instance of some entity.
    Instance,
    Aggregate,
    /// Whatever there is.
    Generic,
}

/// What a value may be, where the depth is 0; what its elements may be, where it is 1; their elements, where it is 2.
#[derive(Clone, Copy, PartialEq, Eq)]
pub struct ValueKind {
    pub depth: usize,
    pub sort: Sort,
}
