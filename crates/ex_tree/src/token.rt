use crate::kind::TokenKind;

/// A slice of the text, and the place where it begins, in bytes from 0.
#[derive(Clone, Copy)]
pub struct Token<'a> {
    pub kind: TokenKind,
    pub at: usize,
    pub text: &'a [u8],
}
