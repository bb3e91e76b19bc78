//! All tokens of a text at once.

ghost use Rattle.std.specs.Prelude.{map};
ghost use Rattle.plain_data.specs.Gives.{Gives};
ghost use Rattle.p21_lexemes.specs.Tokens as spec;

use p21_lexemes::{Token, Tokens};
use p21_tree::{FaultKind, FileFault};
use plain_data::Failure;
use std::alloc::Global;

/// The tokens of a text.
///
/// # Errors
///
/// The first lexical fault, or want of memory.
pub fn lex(alloc: Global, text: &[u8]) -> Result<Vec<Token<'_>>, Failure<FileFault>>
    ensures { Gives (λ found. map spec.view found.items) result (spec.lexed (spec.lexemes 0 text.now)) }
{
    let mut tokens = Tokens::new(text);
    let mut found = Vec::new(alloc);
    'tokens: while let Some(token) = tokens.take() {
        found.push(token)?;
    }
    let end = tokens.refusal();
    match end.kind {
        FaultKind::Syntax => Ok(found),
        _ => Err(Failure::Fault(end)),
    }
}
