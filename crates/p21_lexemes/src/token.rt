ghost use Rattle.std.specs.Prelude.{◌≡◌, IsAscii};
ghost use Rattle.p21_lexemes.specs.declared.token.TokenKind.TheVariants.{Word};

/// What a token is.
#[derive(Clone, Copy, PartialEq, Eq)]
pub enum TokenKind {
    /// A keyword: letters, digits and `_`.
    Word,
    /// `ISO-10303-21`, the mark at the front of a file.
    FileStart,
    /// `END-ISO-10303-21`, the mark at its end.
    FileEnd,
    /// Digits, with a sign or none, of 64 bits.
    Integer,
    /// Digits with a point and what follows it, with a sign or none.
    Real,
    /// A string with its apostrophes.
    Text,
    /// `#` and digits.
    Name,
    /// `.NAME.`
    Item,
    /// Hexadecimal digits with their quotes.
    Binary,
    Open,
    Close,
    Comma,
    Equals,
    Semicolon,
    Dollar,
    Star,
    /// No token: the end of the text, or a lexical fault.
    End,
}

/// A token is a slice of the text, and the place where it begins, in bytes. A keyword is ASCII.
#[derive(Clone, Copy)]
pub struct Token<'a> {
    pub kind: TokenKind,
    pub at: usize,
    pub text: &'a [u8],
    ghost plain: { kind ≡ Word → IsAscii text.now },
}
