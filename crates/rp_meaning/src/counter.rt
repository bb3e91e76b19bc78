//! What an evaluation counts.

#[derive(Clone, Copy, PartialEq, Eq)]
pub struct Counter {
    /// The steps that it may still take.
    pub left: usize,
    /// How deep bodies nested so far, in the body at hand.
    pub nesting: usize,
}
