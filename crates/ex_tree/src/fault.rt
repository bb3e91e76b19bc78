use crate::kind::TokenKind;

/// What is wrong with a token or a remark.
#[derive(Clone, Copy, PartialEq, Eq)]
pub enum LexFaultKind {
    /// No token begins here; or a simple string that is not UTF-8.
    Token,
    /// A string without its end on its line.
    OpenString,
    /// An embedded remark without its end.
    OpenRemark,
    /// An encoded string of anything but groups of eight hexadecimal digits that write characters.
    BadEncoded,
    /// An integer or a real out of its range.
    TooBig,
}

/// The first lexical fault of a text, and the byte at which its token or remark begins, from 0.
#[derive(Clone, Copy, PartialEq, Eq)]
pub struct LexFault {
    pub kind: LexFaultKind,
    pub at: usize,
}

/// Why a text of good tokens is no schema.
#[derive(Clone, Copy, PartialEq, Eq)]
pub enum ParseFaultKind {
    /// A token that cannot stand here, or the end.
    Syntax,
    /// A token that opens the 65th level of nesting.
    TooDeep,
    /// A token that cannot stand here and is of EXPRESS beyond this profile: a reserved word or `||`, or the
    /// identifier SUBTYPE_CONSTRAINT.
    OutOfProfile(TokenKind),
}

/// The first fault of a text's syntax, and the byte at which its token begins, from 0; the text's length where it
/// is the end.
#[derive(Clone, Copy, PartialEq, Eq)]
pub struct ParseFault {
    pub kind: ParseFaultKind,
    pub at: usize,
}
