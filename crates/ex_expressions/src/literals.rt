//! Literals and their values.

ghost use Rattle.std.specs.Prelude.{◌≡◌, IfOk, false, option_map};
ghost use Rattle.std.specs.Str.{encode_utf8_all};
ghost use Rattle.text_forms.specs.Reads.{Reads, Takes};
ghost use Rattle.ex_lex.specs.Strings.{characters};
ghost use Rattle.ex_forms.specs.Input as input;
ghost use Rattle.ex_expressions.specs.Literals as spec;

use ex_forms::{Cursor, Read, refused, whole};
use ex_lex::character;
use ex_tree::{Literal, TokenKind};
use plain_data::{Failure, Text};
use rp_numbers::{Decimal, Logical};
use std::alloc::{AllocError, Global};

/// What stands between the first byte of a token and its last.
fn inner(token: &[u8]) -> &[u8]
    ensures { result.now ≡ spec.inner token.now }
{
    match token {
        [_, inner @ .., _] => inner,
        _ => &[],
    }
}

/// The bytes as a text, where they are one.
fn text_of(bytes: Vec<u8>) -> Option<Text>
    ensures { result ≡ input.utf8 bytes.items }
{
    match String::from_utf8(bytes) {
        Ok(text) => Some(Text::new(text)),
        Err(_) => None,
    }
}

/// The bytes without the second of each two apostrophes.
fn undoubled(alloc: Global, bytes: &[u8]) -> Result<Vec<u8>, AllocError>
    ensures { IfOk result (λ found. found.items ≡ spec.undoubled false bytes.now) }
{
    let mut found = Vec::with_capacity(alloc, bytes.len())?;
    let mut is_second = false;
    'bytes: for byte in bytes {
        if is_second {
            is_second = false;
        } else {
            found.push(*byte)?;
            is_second = *byte == b'\'';
        }
    }
    Ok(found)
}

fn copied(alloc: Global, bytes: &[u8]) -> Result<Vec<u8>, AllocError>
    ensures { IfOk result (λ found. found.items ≡ bytes.now) }
{
    let mut found = Vec::new(alloc);
    found.extend_from_slice(bytes)?;
    Ok(found)
}

#[tactic(auto, unfolding(crate::specs::Literals::real))]
fn real(cursor: &mut Cursor<'_>) -> Read<Decimal>
    ensures reads { Reads (spec.real cursor.old) result cursor.new }
    ensures takes { Takes result cursor.old cursor.new }
{
    let token = cursor.expect(TokenKind::RealLiteral)?;
    match Decimal::parse(token.text) {
        Ok(value) => Ok(value),
        Err(_) => Err(Failure::Fault(refused(&token))),
    }
}

/// A real with its sign, which comes next.
#[tactic(auto, unfolding(crate::specs::Literals::signed_real))]
pub fn signed_real(cursor: &mut Cursor<'_>) -> Read<Literal>
    ensures reads { Reads (spec.signed_real cursor.old) result cursor.new }
    ensures takes { Takes result cursor.old cursor.new }
{
    if cursor.eat(TokenKind::Minus) {
        return Ok(Literal::Real(real(cursor)?.negate()));
    }
    cursor.expect(TokenKind::Plus)?;
    Ok(Literal::Real(real(cursor)?))
}

/// What a string in apostrophes holds.
pub(crate) fn simple_value(alloc: Global, token: &[u8]) -> Result<Option<Text>, AllocError>
    ensures { IfOk result (λ value. value ≡ spec.simple_value token.now) }
{
    let bytes = undoubled(alloc, inner(token))?;
    Ok(text_of(bytes))
}

#[tactic(auto, unfolding(crate::specs::Literals::simple_string))]
fn simple_string(alloc: Global, cursor: &mut Cursor<'_>) -> Read<Literal>
    ensures reads { Reads (spec.simple_string cursor.old) result cursor.new }
    ensures takes { Takes result cursor.old cursor.new }
{
    let token = cursor.expect(TokenKind::SimpleStringLiteral)?;
    let Some(text) = simple_value(alloc, token.text)? else {
        return Err(Failure::Fault(refused(&token)));
    };
    Ok(Literal::String(text, token.at))
}

/// The characters of which groups of eight hexadecimal digits write the codes.
fn decoded(alloc: Global, digits: &[u8]) -> Result<Option<Text>, AllocError>
    ensures { IfOk result (λ text. text ≡ option_map encode_utf8_all (characters digits.now)) }
{
    let mut found = String::new(alloc);
    let mut left = digits;
    'groups: while !left.is_empty() {
        if left.len() < 8 {
            return Ok(None);
        }
        let (group, rest) = left.split_at(8);
        let Some(next) = character(group) else {
            return Ok(None);
        };
        found.push(next)?;
        left = rest;
    }
    Ok(Some(Text::new(found)))
}

/// What a string in double quotes holds.
pub(crate) fn encoded_value(alloc: Global, token: &[u8]) -> Result<Option<Text>, AllocError>
    ensures { IfOk result (λ value. value ≡ spec.encoded_value token.now) }
{
    decoded(alloc, inner(token))
}

#[tactic(auto, unfolding(crate::specs::Literals::encoded_string))]
fn encoded_string(alloc: Global, cursor: &mut Cursor<'_>) -> Read<Literal>
    ensures reads { Reads (spec.encoded_string cursor.old) result cursor.new }
    ensures takes { Takes result cursor.old cursor.new }
{
    let token = cursor.expect(TokenKind::EncodedStringLiteral)?;
    let Some(text) = encoded_value(alloc, token.text)? else {
        return Err(Failure::Fault(refused(&token)));
    };
    Ok(Literal::String(text, token.at))
}

#[tactic(auto, unfolding(crate::specs::Literals::binary))]
fn binary(alloc: Global, cursor: &mut Cursor<'_>) -> Read<Literal>
    ensures reads { Reads (spec.binary cursor.old) result cursor.new }
    ensures takes { Takes result cursor.old cursor.new }
{
    let token = cursor.expect(TokenKind::BinaryLiteral)?;
    let bits = match token.text {
        [_, bits @ ..] => bits,
        [] => &[],
    };
    let Some(text) = text_of(copied(alloc, bits)?) else {
        return Err(Failure::Fault(refused(&token)));
    };
    Ok(Literal::Binary(text))
}

/// Whether the next token is a literal.
pub fn begins_literal(cursor: &Cursor<'_>) -> bool
    ensures { result ≡ spec.begins_literal cursor.now }
{
    const LITERAL_TOKENS: [TokenKind; 8] = [
        TokenKind::IntegerLiteral,
        TokenKind::RealLiteral,
        TokenKind::SimpleStringLiteral,
        TokenKind::EncodedStringLiteral,
        TokenKind::BinaryLiteral,
        TokenKind::True,
        TokenKind::False,
        TokenKind::Unknown,
    ];
    LITERAL_TOKENS.iter().any(|literal| cursor.sees(*literal))
}

fn logical(cursor: &mut Cursor<'_>, word: TokenKind, value: Logical) -> Read<Literal>
    ensures reads { Reads (spec.logical word value cursor.old) result cursor.new }
    ensures takes { Takes result cursor.old cursor.new }
{
    cursor.expect(word)?;
    Ok(Literal::Logical(value))
}

#[tactic(auto, unfolding(crate::specs::Literals::literal))]
pub fn literal(alloc: Global, cursor: &mut Cursor<'_>) -> Read<Literal>
    ensures reads { Reads (spec.literal cursor.old) result cursor.new }
    ensures takes { Takes result cursor.old cursor.new }
{
    match cursor.kind() {
        TokenKind::IntegerLiteral => Ok(Literal::Integer(whole(cursor)?)),
        TokenKind::RealLiteral => Ok(Literal::Real(real(cursor)?)),
        TokenKind::SimpleStringLiteral => simple_string(alloc, cursor),
        TokenKind::EncodedStringLiteral => encoded_string(alloc, cursor),
        TokenKind::BinaryLiteral => binary(alloc, cursor),
        TokenKind::False => logical(cursor, TokenKind::False, Logical::False),
        TokenKind::Unknown => logical(cursor, TokenKind::Unknown, Logical::Unknown),
        TokenKind::True => logical(cursor, TokenKind::True, Logical::True),
        _ => Err(Failure::Fault(cursor.refusal())),
    }
}
