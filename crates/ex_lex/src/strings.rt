//! String and binary literals.

ghost use Rattle.std.specs.Prelude.{◌≡◌, ◌<◌, ◌≤◌, ◌+◌, ◌^◌, length, slice_index, false, true, IfSome};
ghost use Rattle.std.specs.List.{prefix_len, list_all};
ghost use Rattle.std.specs.Char.{digit_value, is_ascii_hexdigit};
ghost use Rattle.std.specs.Str.{is_utf8};
ghost use Rattle.std.specs.Str.Parse.{digits_value};
ghost use Rattle.ex_lex.specs.Lexical as spec;
ghost use Rattle.ex_lex.specs.Strings as strings;

use crate::front::Start;
use ex_tree::{LexFaultKind, TokenKind};
use std::str;
use text_forms::byte;

/// The place after the apostrophe that ends a string, where `z` begins at the place 1.
fn string_end(mut z: &[u8]) -> Option<usize>
    requires { length z.now < 2 ^ 63 }
    ensures value { result ≡ strings.string_end false 1 z.entry.now }
    ensures within { IfSome result (λ end. (1 ≤ end) × (end ≤ length z.entry.now + 1)) }
{
    let mut is_second = false;
    let mut at = 1;
    'bytes: while let [b, rest @ ..] = z {
        if !is_second {
            if *b == b'\n' {
                return None;
            }
            if *b == b'\'' && byte(rest, 0) != b'\'' {
                return Some(at + 1);
            }
        }
        is_second = !is_second && *b == b'\'';
        at += 1;
        z = rest;
    }
    None
}

fn is_text(bytes: &[u8]) -> bool
    ensures { result ≡ is_utf8 bytes.now }
{
    str::from_utf8(bytes).is_ok()
}

#[tactic(auto, unfolding(crate::specs::Lexical::simple_string))]
pub fn simple_string(z: &[u8]) -> Start
    requires { 0 < length z.now }
    ensures value { result ≡ spec.simple_string z.now }
    ensures within { spec.Fits result (length z.now) }
{
    match string_end(&z[1..]) {
        None => Start::Fault(LexFaultKind::OpenString),
        Some(end) if is_text(&z[..end]) => Start::Token(TokenKind::SimpleStringLiteral, end),
        Some(_) => Start::Fault(LexFaultKind::Token),
    }
}

fn are_hex(digits: &[u8]) -> bool
    ensures { result ≡ list_all is_ascii_hexdigit digits.now }
{
    digits.iter().all(|b| b.is_ascii_hexdigit())
}

fn digit(b: u8) -> u32
    requires { is_ascii_hexdigit b ≡ true }
    ensures value { result ≡ digit_value b }
    ensures below { result < 16 }
{
    match b {
        b'0'..=b'9' => u32::from(b - b'0'),
        b'A'..=b'F' => u32::from(b - b'A') + 10,
        _ => u32::from(b - b'a') + 10,
    }
}

/// The number that eight hexadecimal digits write.
fn code(digits: &[u8]) -> u32
    requires eight { length digits.now ≡ 8 }
    requires hexadecimal { list_all is_ascii_hexdigit digits.now ≡ true }
    ensures { result ≡ digits_value 16 digits.now }
{
    let mut value = 0;
    'digits: for b in digits {
        value = 16 * value + digit(*b);
    }
    value
}

/// The character of which eight hexadecimal digits write the code.
#[tactic(auto, unfolding(crate::specs::Strings::character))]
pub fn character(digits: &[u8]) -> Option<char>
    ensures { result ≡ strings.character digits.now }
{
    if digits.len() == 8 && are_hex(digits) {
        char::from_u32(code(digits))
    } else {
        None
    }
}

/// Whether groups of eight digits that write characters stand here, one at least.
fn is_encoded(inside: &[u8]) -> bool
    ensures { result ≡ strings.is_encoded inside.now }
{
    if inside.is_empty() {
        return false;
    }
    let mut left = inside;
    'groups: while !left.is_empty() {
        if left.len() < 8 {
            return false;
        }
        let (group, rest) = left.split_at(8);
        if character(group).is_none() {
            return false;
        }
        left = rest;
    }
    true
}

#[tactic(auto, unfolding(crate::specs::Lexical::encoded_string))]
pub fn encoded_string(z: &[u8]) -> Start
    requires { 0 < length z.now }
    ensures value { result ≡ spec.encoded_string z.now }
    ensures within { spec.Fits result (length z.now) }
{
    let rest = &z[1..];
    let len = inside_len(rest);
    if byte(z, 1 + len) != b'"' {
        Start::Fault(LexFaultKind::OpenString)
    } else if is_encoded(&rest[..len]) {
        Start::Token(TokenKind::EncodedStringLiteral, len + 2)
    } else {
        Start::Fault(LexFaultKind::BadEncoded)
    }
}

fn inside_len(z: &[u8]) -> usize
    ensures value { result ≡ prefix_len spec.is_inside z.now }
    ensures within { result ≤ length z.now }
{
    z.iter().take_while(|b| **b != b'"' && **b != b'\n').count()
}

fn bits_len(z: &[u8]) -> usize
    ensures value { result ≡ prefix_len spec.is_bit z.now }
    ensures within { result ≤ length z.now }
{
    z.iter().take_while(|b| **b == b'0' || **b == b'1').count()
}

#[tactic(auto, unfolding(crate::specs::Lexical::binary))]
pub fn binary(z: &[u8]) -> Start
    requires { 0 < length z.now }
    ensures value { result ≡ spec.binary z.now }
    ensures within { spec.Fits result (length z.now) }
{
    let bits = bits_len(&z[1..]);
    if bits == 0 {
        Start::Fault(LexFaultKind::Token)
    } else {
        Start::Token(TokenKind::BinaryLiteral, 1 + bits)
    }
}
