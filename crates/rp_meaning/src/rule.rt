//! Rules: what one evaluation runs.

/// A rule of a schema, by the numbers of what declares it and by its place there, from 0.
#[derive(Clone, Copy, PartialEq, Eq)]
pub enum Rule {
    /// A defined type, and the place in its WHERE clause.
    Type(usize, usize),
    /// An entity, and the place in its WHERE clause.
    Entity(usize, usize),
    /// A rule, and the place in its WHERE clause.
    Global(usize, usize),
    /// An entity, the place in its UNIQUE clause, and the place of an attribute in that rule.
    Unique(usize, usize, usize),
    /// An entity, and the place in its INVERSE clause.
    Inverse(usize, usize),
}
