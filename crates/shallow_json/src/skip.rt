//! Passing over a value.

ghost use Rattle.std.specs.Prelude.{◌≡◌, ◌<◌, length, is_some, Some, None, MatchResult, OnOk};
ghost use Rattle.json.specs.Reads.{token_of};
ghost use Rattle.shallow_json.specs.Passing.{after_value, after_items, after_members, scalar_of};

use crate::numbers::number_of;
use json::{Invalid, Reader, Token};

/// Lists and objects may nest `depth` deep, and numbers have to be in range.
#[cycle(skip)]
pub(crate) fn skip_value(reader: &mut Reader<'_>, depth: usize) -> Result<(), Invalid>
    ensures value { MatchResult result (λ _. after_value depth reader.old ≡ Some reader.new)
        (λ _. after_value depth reader.old ≡ None) }
    ensures shorter { OnOk result (length reader.new < length reader.old) }
{
    let token = reader.next().ok_or(Invalid)?;
    match token {
        Token::BeginArray => {
            if depth == 0 {
                return Err(Invalid);
            }
            skip_items(reader, depth - 1)
        }
        Token::BeginObject => {
            if depth == 0 {
                return Err(Invalid);
            }
            skip_members(reader, depth - 1)
        }
        _ => if is_scalar(&token) {
            Ok(())
        } else {
            Err(Invalid)
        },
    }
}

/// Passes over what follows the bracket that opens a list.
#[cycle(skip)]
pub fn skip_items(reader: &mut Reader<'_>, depth: usize) -> Result<(), Invalid>
    ensures value { MatchResult result (λ _. after_items depth reader.old ≡ Some reader.new)
        (λ _. after_items depth reader.old ≡ None) }
    ensures shorter { OnOk result (length reader.new < length reader.old) }
{
    'items: while !reader.take_end_array() {
        skip_value(reader, depth)?;
    }
    Ok(())
}

/// Passes over what follows the brace that opens an object.
#[cycle(skip)]
pub fn skip_members(reader: &mut Reader<'_>, depth: usize) -> Result<(), Invalid>
    ensures value { MatchResult result (λ _. after_members depth reader.old ≡ Some reader.new)
        (λ _. after_members depth reader.old ≡ None) }
    ensures shorter { OnOk result (length reader.new < length reader.old) }
{
    'members: while let Some(_) = reader.next_key()? {
        skip_value(reader, depth)?;
    }
    Ok(())
}

fn is_scalar(token: &Token<'_>) -> bool
    ensures { result ≡ is_some (scalar_of (token_of token.now)) }
{
    match token {
        Token::String(_) | Token::Bool(_) | Token::Null => true,
        Token::Number(text) => number_of(text).is_some(),
        _ => false,
    }
}
