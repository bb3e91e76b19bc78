//! Strings, comments and print control directives of an exchange file.

/// What a byte of an exchange file stands in.
#[derive(Clone, Copy, PartialEq, Eq)]
pub(crate) enum Inside {
    /// Tokens and blanks.
    Nothing,
    String,
    /// Behind a `/`, which may begin a comment.
    Slash,
    Comment,
    /// Behind a `*` in a comment.
    Star,
    /// `\N\` or `\F\`, behind its first `\`.
    Directive,
}

impl Inside {
    /// What the byte behind this one stands in.
    pub(crate) fn behind(self, byte: u8) -> Inside {
        match self {
            Inside::Nothing => outside(byte),
            Inside::Slash if byte == b'*' => Inside::Comment,
            Inside::Slash => outside(byte),
            Inside::String if byte == b'\'' => Inside::Nothing,
            Inside::String => Inside::String,
            Inside::Star if byte == b'/' => Inside::Nothing,
            Inside::Comment | Inside::Star if byte == b'*' => Inside::Star,
            Inside::Comment | Inside::Star => Inside::Comment,
            Inside::Directive if byte == b'\\' => Inside::Nothing,
            Inside::Directive => Inside::Directive,
        }
    }

    /// Whether a byte there is one of a token or a blank.
    pub(crate) fn is_open(self) -> bool {
        matches!(self, Inside::Nothing | Inside::Slash)
    }
}

/// What stands behind a byte that is one of a token.
fn outside(byte: u8) -> Inside {
    match byte {
        b'\'' => Inside::String,
        b'/' => Inside::Slash,
        b'\\' => Inside::Directive,
        _ => Inside::Nothing,
    }
}
