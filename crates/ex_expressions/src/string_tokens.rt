//! The string literals of a text.

ghost use Rattle.std.specs.Prelude.{◌≡◌, IfOk, map};
ghost use Rattle.ex_lex.specs.Lexeme.{lexeme};
ghost use Rattle.ex_expressions.specs.Strings as spec;

use crate::literals::{encoded_value, simple_value};
use ex_tree::{StringToken, Token, TokenKind};
use plain_data::{Items, Text};
use std::alloc::{AllocError, Global};

/// The value of a token that is a string literal.
fn string_value(alloc: Global, token: &Token<'_>) -> Result<Option<Text>, AllocError>
    ensures { IfOk result (λ value. value ≡ spec.string_value (lexeme token.now)) }
{
    match token.kind {
        TokenKind::SimpleStringLiteral => simple_value(alloc, token.text),
        TokenKind::EncodedStringLiteral => encoded_value(alloc, token.text),
        _ => Ok(None),
    }
}

/// The string literals among the tokens, in their order.
#[tactic(auto, unfolding(crate::specs::Strings::strings))]
pub fn strings(alloc: Global, tokens: &[Token<'_>]) -> Result<Items<StringToken>, AllocError>
    ensures { IfOk result (λ found. found ≡ spec.strings (map lexeme tokens.now)) }
{
    let mut found = Items::new(alloc);
    for token in tokens {
        if let Some(value) = string_value(alloc, token)? {
            found.push(StringToken {
                value,
                at: token.at,
            })?;
        }
    }
    Ok(found)
}
