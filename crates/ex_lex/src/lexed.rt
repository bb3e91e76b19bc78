//! The tokens of a text.

ghost use Rattle.std.specs.Prelude.{◌≡◌, map};
ghost use Rattle.ex_lex.specs.Lexeme.{lexeme};

use ex_tree::Token;
use std::marker::Model;

/// The tokens of a text in order: slices of it, with blanks and remarks alone between them.
#[derive(Drop)]
pub struct TokenList<'a> {
    tokens: Vec<Token<'a>>,
    /// How many bytes the text has.
    length: usize,
}

impl<'a> Model for TokenList<'a> {
    ghost use Rattle.std.specs.Prelude.{map};
    ghost use Rattle.ex_lex.specs.Lexeme.{Lexed, lexeme};

    ghost Value = { Lexed };

    ghost view = { λ t. record { lexemes = map lexeme t.tokens.items; length = t.length } };
}

impl<'a> TokenList<'a> {
    pub(crate) fn new(tokens: Vec<Token<'a>>, length: usize) -> TokenList<'a>
        ensures { result ≡ record { lexemes = map lexeme tokens.entry.items; length = length } }
    {
        TokenList { tokens, length }
    }

    pub fn as_slice(&self) -> &[Token<'a>]
        ensures { map lexeme result.now ≡ self.now.lexemes }
    {
        self.tokens.as_slice()
    }

    /// How many bytes the text has.
    pub fn text_length(&self) -> usize
        ensures { result ≡ self.now.length }
    {
        self.length
    }
}
