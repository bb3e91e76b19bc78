//! What stands at the front of a text.

ghost use Rattle.std.specs.Prelude.{◌≡◌, ◌<◌, ◌≤◌, ◌+◌, ◌-◌, ◌^◌, ◌==◌, not, length, take, drop, slice_index, false, true, nat_le, IfSome, ℕ};
ghost use Rattle.std.specs.List.{prefix_len, list_all};
ghost use Rattle.std.specs.Char.{is_ascii_digit, is_ascii_hexdigit};
ghost use Rattle.text_forms.specs.Words.{is_word_byte};
ghost use Rattle.rp_numbers.specs.Spelling as spelling;
ghost use Rattle.rp_numbers.specs.Whole.{value};
ghost use Rattle.p21_lexemes.specs.Lexical as spec;

use crate::token::TokenKind;
use memchr::memmem;
use p21_escapes::{StringFault, string_fault};
use p21_tree::{FaultKind, MAX_NAME};
use rp_numbers::{Decimal, digits_len, exponent_len, number_after, sign_len};
use text_forms::{byte, is_word_byte};

/// What stands at the front of a text.
#[derive(Clone, Copy)]
pub enum Start {
    /// This many bytes separate tokens.
    Blank(usize),
    /// A token of this many bytes.
    Token(TokenKind, usize),
    Fault(FaultKind),
}

pub(crate) fn is_letter(b: u8) -> bool
    ensures { result ≡ spec.is_letter b }
{
    b.is_ascii_alphabetic() || b == b'_'
}

fn mark_len(z: &[u8]) -> usize
    ensures value { result ≡ prefix_len spec.is_mark_byte z.now }
    ensures some { spec.is_letter (slice_index z.now 0) ≡ true → 0 < result }
    ensures within { result ≤ length z.now }
{
    z.iter()
        .take_while(|b| is_word_byte(**b) || **b == b'-')
        .count()
}

pub(crate) fn word_len(z: &[u8]) -> usize
    ensures value { result ≡ prefix_len is_word_byte z.now }
    ensures some { spec.is_letter (slice_index z.now 0) ≡ true → 0 < result }
    ensures within { result ≤ length z.now }
{
    z.iter().take_while(|b| is_word_byte(**b)).count()
}

/// A word with a `-` behind its letters, digits and `_`.
#[tactic(auto, unfolding(crate::specs::Lexical::word))]
fn marked(z: &[u8]) -> Start
    requires { spec.is_letter (slice_index z.now 0) ≡ true }
    ensures value { result ≡ spec.word z.now }
    ensures within { spec.Fits result (length z.now) }
{
    let len = mark_len(z);
    let text = &z[..len];
    if text.eq_ignore_ascii_case(b"ISO-10303-21") {
        Start::Token(TokenKind::FileStart, len)
    } else if text.eq_ignore_ascii_case(b"END-ISO-10303-21") {
        Start::Token(TokenKind::FileEnd, len)
    } else if text.contains(&b'-') {
        Start::Fault(FaultKind::Token)
    } else {
        Start::Token(TokenKind::Word, len)
    }
}

#[tactic(auto, using(crate::proofs::Plain::plain_word))]
fn word(z: &[u8]) -> Start
    requires { spec.is_letter (slice_index z.now 0) ≡ true }
    ensures value { result ≡ spec.word z.now }
    ensures within { spec.Fits result (length z.now) }
{
    let len = word_len(z);
    if byte(z, len) == b'-' {
        marked(z)
    } else {
        Start::Token(TokenKind::Word, len)
    }
}

pub(crate) fn is_sign(b: u8) -> bool
    ensures { result ≡ spec.is_sign b }
{
    b == b'+' || b == b'-'
}

/// Whether there are so few digits that the number that they write is no greater than `most`, whatever they are.
#[tactic(auto, using(crate::proofs::Digits::value_below))]
#[inline(always)]
pub(crate) fn are_few(most: u64, digits: &[u8]) -> bool
    requires all { list_all is_ascii_digit digits.now ≡ true }
    requires most { MAX_NAME ≤ most }
    ensures { result ≡ true → nat_le (value digits.now) most ≡ true }
{
    digits.len() <= 18
}

/// Whether the number that the digits write is no greater than `most`.
fn is_up_to(most: u64, digits: &[u8]) -> bool
    requires all { list_all is_ascii_digit digits.now ≡ true }
    requires most { MAX_NAME ≤ most }
    ensures { result ≡ nat_le (value digits.now) most }
{
    are_few(most, digits) || number_after(0, digits, u128::from(most)).is_some()
}

pub(crate) fn greatest(sign: u8) -> u64
    ensures { result ≡ spec.greatest sign }
{
    if sign == b'-' { 1 << 63 } else { (1 << 63) - 1 }
}

/// A real of `len` bytes.
#[inline(never)]
fn real(len: usize, z: &[u8]) -> Start
    requires { (1 ≤ len) × (len ≤ length z.now) }
    ensures value { result ≡ spec.real len z.now }
    ensures within { spec.Fits result (length z.now) }
{
    match Decimal::parse(&z[..len]) {
        Ok(_) => Start::Token(TokenKind::Real, len),
        Err(_) => Start::Fault(FaultKind::Number),
    }
}

/// A real whose point is at the place `end`, where its whole digits end.
fn real_with(end: usize, z: &[u8]) -> Start
    requires some { 0 < spelling.digits_len (drop (spelling.sign_len z.now) z.now) }
    requires end { end ≡ spelling.sign_len z.now + spelling.digits_len (drop (spelling.sign_len z.now) z.now) }
    requires point { slice_index z.now end ≡ 46 }
    requires within { end < length z.now }
    ensures value { result ≡ spec.real (end + 1 + spelling.digits_len (drop (end + 1) z.now) + spelling.exponent_len (drop (end + 1 + spelling.digits_len (drop (end + 1) z.now)) z.now)) z.now }
    ensures within { spec.Fits result (length z.now) }
{
    let len = end + 1 + digits_len(&z[end + 1..]);
    let exponent = exponent_len(&z[len..]);
    real(len + exponent, z)
}

#[tactic(auto, unfolding(crate::specs::Lexical::number))]
fn number(z: &[u8]) -> Start
    ensures value { result ≡ spec.number z.now }
    ensures within { spec.Fits result (length z.now) }
{
    let sign = sign_len(z);
    let whole = digits_len(&z[sign..]);
    let end = sign + whole;
    if whole == 0 {
        return Start::Fault(FaultKind::Token);
    }
    if byte(z, end) == b'.' {
        return real_with(end, z);
    }
    if is_up_to(greatest(byte(z, 0)), &z[sign..end]) {
        Start::Token(TokenKind::Integer, end)
    } else {
        Start::Fault(FaultKind::Number)
    }
}

#[tactic(auto, unfolding(crate::specs::Lexical::name))]
fn name(z: &[u8]) -> Start
    requires { 0 < length z.now }
    ensures value { result ≡ spec.name z.now }
    ensures within { spec.Fits result (length z.now) }
{
    let digits = digits_len(&z[1..]);
    if digits == 0 {
        Start::Fault(FaultKind::Token)
    } else if is_up_to(MAX_NAME, &z[1..1 + digits]) {
        Start::Token(TokenKind::Name, 1 + digits)
    } else {
        Start::Fault(FaultKind::Number)
    }
}

#[tactic(auto, unfolding(crate::specs::Lexical::item))]
fn item(z: &[u8]) -> Start
    requires { 0 < length z.now }
    ensures value { result ≡ spec.item z.now }
    ensures within { spec.Fits result (length z.now) }
{
    let len = word_len(&z[1..]);
    if is_letter(byte(z, 1)) && byte(z, 1 + len) == b'.' {
        Start::Token(TokenKind::Item, len + 2)
    } else {
        Start::Fault(FaultKind::Token)
    }
}

/// The place after the apostrophe that ends a string, where `z` begins at the place 1.
fn string_end(mut z: &[u8]) -> Option<usize>
    requires { length z.now < 2 ^ 63 }
    ensures value { result ≡ spec.string_end false 1 z.entry.now }
    ensures within { IfSome result (λ end. (2 ≤ end) × (end ≤ length z.entry.now + 1)) }
{
    let mut is_second = false;
    let mut at = 1;
    'bytes: while let [b, rest @ ..] = z {
        if !is_second && *b == b'\'' && byte(rest, 0) != b'\'' {
            return Some(at + 1);
        }
        is_second = !is_second && *b == b'\'';
        at += 1;
        z = rest;
    }
    None
}

fn kind_of(fault: StringFault) -> FaultKind
    ensures { result ≡ spec.kind_of fault }
{
    match fault {
        StringFault::BadEscape => FaultKind::Escape,
        StringFault::PageUnsupported => FaultKind::Page,
        StringFault::BadCode => FaultKind::Code,
        StringFault::NotUtf8 => FaultKind::Utf8,
    }
}

#[tactic(auto, unfolding(crate::specs::Lexical::string))]
fn string(z: &[u8]) -> Start
    requires { 0 < length z.now }
    ensures value { result ≡ spec.string z.now }
    ensures within { spec.Fits result (length z.now) }
{
    let Some(end) = string_end(&z[1..]) else {
        return Start::Fault(FaultKind::Open);
    };
    match string_fault(&z[1..end - 1]) {
        None => Start::Token(TokenKind::Text, end),
        Some(fault) => Start::Fault(kind_of(fault)),
    }
}

fn unquoted_len(z: &[u8]) -> usize
    ensures value { result ≡ prefix_len (λ b. not (b == 34)) z.now }
    ensures within { result ≤ length z.now }
{
    z.iter().take_while(|b| **b != b'"').count()
}

fn is_binary(digits: &[u8]) -> bool
    ensures { result ≡ spec.is_binary digits.now }
{
    match digits {
        [b'0', rest @ ..] => are_hex(rest),
        [b'1'..=b'3', rest @ ..] => !rest.is_empty() && are_hex(rest),
        _ => false,
    }
}

fn are_hex(digits: &[u8]) -> bool
    ensures { result ≡ list_all is_ascii_hexdigit digits.now }
{
    digits.iter().all(|b| b.is_ascii_hexdigit())
}

#[tactic(auto, unfolding(crate::specs::Lexical::binary))]
fn binary(z: &[u8]) -> Start
    requires { 0 < length z.now }
    ensures value { result ≡ spec.binary z.now }
    ensures within { spec.Fits result (length z.now) }
{
    let rest = &z[1..];
    let len = unquoted_len(rest);
    if len == rest.len() {
        Start::Fault(FaultKind::Open)
    } else if is_binary(&rest[..len]) {
        Start::Token(TokenKind::Binary, len + 2)
    } else {
        Start::Fault(FaultKind::Token)
    }
}

/// How many bytes there are up to the first `*/` and with it.
fn comment_len(z: &[u8]) -> Option<usize>
    ensures value { result ≡ spec.comment_len z.now }
    ensures within { IfSome result (λ len. (2 ≤ len) × (len ≤ length z.now)) }
{
    match memmem::find(z, b"*/") {
        None => None,
        Some(place) => Some(place + 2),
    }
}

#[tactic(auto, unfolding(crate::specs::Lexical::slash))]
fn slash(z: &[u8]) -> Start
    requires { 0 < length z.now }
    ensures value { result ≡ spec.slash z.now }
    ensures within { spec.Fits result (length z.now) }
{
    if byte(z, 1) != b'*' {
        return Start::Fault(FaultKind::Token);
    }
    match comment_len(&z[2..]) {
        None => Start::Fault(FaultKind::Open),
        Some(len) => Start::Blank(2 + len),
    }
}

#[tactic(auto, unfolding(crate::specs::Lexical::directive))]
fn directive(z: &[u8]) -> Start
    ensures value { result ≡ spec.directive z.now }
    ensures within { spec.Fits result (length z.now) }
{
    let letter = byte(z, 1);
    if (letter == b'N' || letter == b'F') && byte(z, 2) == b'\\' {
        Start::Blank(3)
    } else {
        Start::Fault(FaultKind::Token)
    }
}

fn single(b: u8) -> Start
    ensures value { result ≡ spec.single b }
    ensures within { (len : ℕ) → 0 < len → spec.Fits result len }
{
    let kind = match b {
        b'(' => TokenKind::Open,
        b')' => TokenKind::Close,
        b',' => TokenKind::Comma,
        b'=' => TokenKind::Equals,
        b';' => TokenKind::Semicolon,
        b'$' => TokenKind::Dollar,
        b'*' => TokenKind::Star,
        _ => return Start::Fault(FaultKind::Token),
    };
    Start::Token(kind, 1)
}

#[tactic(auto, unfolding(crate::specs::Lexical::punctuation))]
fn punctuation(z: &[u8]) -> Start
    requires { 0 < length z.now }
    ensures value { result ≡ spec.punctuation z.now }
    ensures within { spec.Fits result (length z.now) }
{
    match z[0] {
        b'\'' => string(z),
        b'#' => name(z),
        b'.' => item(z),
        b'"' => binary(z),
        b'/' => slash(z),
        b'\\' => directive(z),
        b => single(b),
    }
}

/// What a text that is not empty begins with.
#[tactic(auto, unfolding(crate::specs::Lexical::front))]
pub fn front(z: &[u8]) -> Start
    requires { 0 < length z.now }
    ensures value { result ≡ spec.front z.now }
    ensures within { spec.Fits result (length z.now) }
{
    let b = z[0];
    if b <= b' ' {
        Start::Blank(1)
    } else if is_letter(b) {
        word(z)
    } else if is_sign(b) || b.is_ascii_digit() {
        number(z)
    } else {
        punctuation(z)
    }
}
