//! Where statements stand, and which tokens begin one there.

ghost use Rattle.std.specs.Prelude.{◌≡◌};
ghost use Rattle.ex_statements.specs.Statements as spec;

use ex_forms::{Cursor, TokenKind};

/// Where statements stand, at any depth of other statements: RETURN stands in functions alone, SKIP and ESCAPE in a
/// REPEAT alone.
#[derive(Clone, Copy)]
pub struct Place {
    pub in_function: bool,
    pub in_repeat: bool,
}

/// Whether a statement begins here.
pub fn begins_statement(cursor: &Cursor<'_>, place: Place) -> bool
    ensures { result ≡ spec.begins_statement place cursor.now }
{
    match cursor.kind() {
        TokenKind::Identifier
        | TokenKind::Case
        | TokenKind::Begin
        | TokenKind::If
        | TokenKind::Semicolon
        | TokenKind::Repeat => true,
        TokenKind::Return => place.in_function,
        TokenKind::Escape | TokenKind::Skip => place.in_repeat,
        _ => false,
    }
}
