//! Identifiers and whole numbers.

ghost use Rattle.std.specs.Prelude.{◌≡◌, IfOk, option_map};
ghost use Rattle.text_forms.specs.Reads.{Reads, Takes};
ghost use Rattle.ex_forms.specs.Input as spec;

use crate::cursor::{Cursor, Read, refused};
use ex_tree::{Identifier, Name, TokenKind};
use plain_data::Failure;
use rp_numbers::whole_number;
use std::alloc::{AllocError, Global};

/// The bytes as a text, where they are one.
pub fn utf8(bytes: &[u8]) -> Option<&str>
    ensures { option_map (λ text. text.now) result ≡ spec.utf8 bytes.now }
{
    match str::from_utf8(bytes) {
        Ok(text) => Some(text),
        Err(_) => None,
    }
}

/// The identifier in upper case that the bytes spell, if they spell one.
fn identifier(alloc: Global, bytes: &[u8]) -> Result<Option<Identifier>, AllocError>
    ensures { IfOk result (λ found. found ≡ spec.identifier bytes.now) }
{
    Identifier::in_upper_case(alloc, bytes)
}

/// An identifier, in upper case.
#[tactic(auto, unfolding(crate::specs::Input::name))]
pub fn name(alloc: Global, cursor: &mut Cursor<'_>) -> Read<Name>
    ensures reads { Reads (spec.name cursor.old) result cursor.new }
    ensures takes { Takes result cursor.old cursor.new }
{
    let token = cursor.expect(TokenKind::Identifier)?;
    let Some(text) = identifier(alloc, token.text)? else {
        return Err(Failure::Fault(refused(&token)));
    };
    Ok(Name { text, at: token.at })
}

/// The value of an integer literal.
#[tactic(auto, unfolding(crate::specs::Input::whole))]
pub fn whole(cursor: &mut Cursor<'_>) -> Read<u64>
    ensures reads { Reads (spec.whole cursor.old) result cursor.new }
    ensures takes { Takes result cursor.old cursor.new }
{
    let token = cursor.expect(TokenKind::IntegerLiteral)?;
    match whole_number(token.text) {
        Some(value) => Ok(value),
        None => Err(Failure::Fault(refused(&token))),
    }
}
