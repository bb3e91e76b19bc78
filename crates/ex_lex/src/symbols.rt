//! Symbols.

ghost use Rattle.std.specs.Prelude.{◌≡◌, ◌<◌, ℕ, [], ◌∷◌, length, slice_index};
ghost use Rattle.ex_lex.specs.Lexical.{Fits};
ghost use Rattle.ex_lex.specs.Symbols as spec;

use crate::front::Start;
use ex_tree::{LexFaultKind, TokenKind};

#[tactic(auto, unfolding(crate::specs::Symbols::symbol))]
fn colon(z: &[u8]) -> Start
    requires { slice_index z.now 0 ≡ 58 }
    ensures value { result ≡ spec.symbol z.now }
    ensures within { Fits result (length z.now) }
{
    if z.starts_with(b":<>:") {
        Start::Token(TokenKind::InstanceNotEqual, 4)
    } else if z.starts_with(b":=:") {
        Start::Token(TokenKind::InstanceEqual, 3)
    } else if z.starts_with(b":=") {
        Start::Token(TokenKind::Becomes, 2)
    } else {
        single(b':')
    }
}

#[tactic(auto, unfolding(crate::specs::Symbols::symbol))]
fn less(z: &[u8]) -> Start
    requires { slice_index z.now 0 ≡ 60 }
    ensures value { result ≡ spec.symbol z.now }
    ensures within { Fits result (length z.now) }
{
    if z.starts_with(b"<=") {
        Start::Token(TokenKind::LessEqual, 2)
    } else if z.starts_with(b"<>") {
        Start::Token(TokenKind::NotEqual, 2)
    } else if z.starts_with(b"<*") {
        Start::Token(TokenKind::QuerySource, 2)
    } else {
        single(b'<')
    }
}

#[tactic(auto, unfolding(crate::specs::Symbols::symbol))]
fn greater(z: &[u8]) -> Start
    requires { slice_index z.now 0 ≡ 62 }
    ensures value { result ≡ spec.symbol z.now }
    ensures within { Fits result (length z.now) }
{
    if z.starts_with(b">=") {
        Start::Token(TokenKind::GreaterEqual, 2)
    } else {
        single(b'>')
    }
}

#[tactic(auto, unfolding(crate::specs::Symbols::symbol))]
fn star(z: &[u8]) -> Start
    requires { slice_index z.now 0 ≡ 42 }
    ensures value { result ≡ spec.symbol z.now }
    ensures within { Fits result (length z.now) }
{
    if z.starts_with(b"**") {
        Start::Token(TokenKind::Power, 2)
    } else {
        single(b'*')
    }
}

#[tactic(auto, unfolding(crate::specs::Symbols::symbol))]
fn bar(z: &[u8]) -> Start
    requires { slice_index z.now 0 ≡ 124 }
    ensures value { result ≡ spec.symbol z.now }
    ensures within { Fits result (length z.now) }
{
    if z.starts_with(b"||") {
        Start::Token(TokenKind::Concatenate, 2)
    } else {
        single(b'|')
    }
}

#[tactic(auto, unfolding(crate::specs::Symbols::symbol))]
/// The symbol of this one byte.
fn single(b: u8) -> Start
    ensures value { result ≡ spec.symbol (b ∷ []) }
    ensures within { (len : ℕ) → 0 < len → Fits result len }
{
    let kind = match b {
        b'.' => TokenKind::Point,
        b',' => TokenKind::Comma,
        b';' => TokenKind::Semicolon,
        b':' => TokenKind::Colon,
        b'*' => TokenKind::Star,
        b'+' => TokenKind::Plus,
        b'-' => TokenKind::Minus,
        b'=' => TokenKind::Equals,
        b'\\' => TokenKind::Backslash,
        b'/' => TokenKind::Slash,
        b'<' => TokenKind::Less,
        b'>' => TokenKind::Greater,
        b'[' => TokenKind::OpenBracket,
        b']' => TokenKind::CloseBracket,
        b'{' => TokenKind::OpenBrace,
        b'}' => TokenKind::CloseBrace,
        b'|' => TokenKind::Bar,
        b'(' => TokenKind::OpenParenthesis,
        b')' => TokenKind::CloseParenthesis,
        b'?' => TokenKind::QuestionMark,
        _ => return Start::Fault(LexFaultKind::Token),
    };
    Start::Token(kind, 1)
}

/// The longest symbol at the front.
#[tactic(auto, unfolding(crate::specs::Symbols::symbol))]
pub fn symbol(z: &[u8]) -> Start
    requires { 0 < length z.now }
    ensures value { result ≡ spec.symbol z.now }
    ensures within { Fits result (length z.now) }
{
    match z[0] {
        b':' => colon(z),
        b'<' => less(z),
        b'>' => greater(z),
        b'*' => star(z),
        b'|' => bar(z),
        b => single(b),
    }
}
