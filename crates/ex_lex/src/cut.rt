//! The cut of a text into its tokens.

ghost use Rattle.std.specs.Prelude.{IfOk, map};
ghost use Rattle.plain_data.specs.Gives.{Gives};
ghost use Rattle.ex_lex.specs.Spelling as spec;

use crate::front::{Start, front};
use crate::lexed::TokenList;
use ex_tree::{LexFault, Token};
use plain_data::Failure;
use std::alloc::Global;

/// The tokens of a text, with places in bytes from 0.
///
/// # Errors
///
/// The first lexical fault, at the first byte of its token or remark; or want of memory.
pub fn tokens(alloc: Global, text: &[u8]) -> Result<TokenList<'_>, Failure<LexFault>>
    ensures value { Gives (λ t. t) result (spec.tokens text.now) }
    ensures slices { IfOk result (λ t. spec.AreSlices text.now 0 t.lexemes) }
    ensures ascending { IfOk result (λ t. spec.Rise 0 (map (λ l. l.at) t.lexemes)) }
{
    // Few texts have more tokens than this: others take room again.
    let mut found = Vec::with_capacity(alloc, text.len() / 4)?;
    let mut left = text;
    let mut at = 0;
    'tokens: while !left.is_empty() {
        match front(left) {
            Start::Blank(len) => {
                left = &left[len..];
                at += len;
            }
            Start::Token(kind, len) => {
                let (text, rest) = left.split_at(len);
                found.push(Token { kind, at, text })?;
                left = rest;
                at += len;
            }
            Start::Fault(kind) => return Err(Failure::Fault(LexFault { kind, at })),
        }
    }
    Ok(TokenList::new(found, text.len()))
}
