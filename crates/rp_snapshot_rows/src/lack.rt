//! What the tokens of a row lack.

/// What doesn't stand where it has to.
#[derive(Clone, Copy, PartialEq, Eq)]
pub enum Lack {
    /// A brace, a bracket, the key that comes next, a text, or a whole number of 64 bits.
    Form,
    /// The word of a level.
    Level,
}
