//! Kinds of tokens, and the bytes that are tokens by themselves.

ghost use Rattle.std.specs.Prelude.{◌≡◌, true, false};
ghost use Rattle.p21_lexemes.specs.declared.token.TokenKind.TheVariants.{End};
ghost use Rattle.p21_lexemes.specs.declared.front.Start.TheVariants.{Token};
ghost use Rattle.p21_lexemes.specs.Lexical.{single};
ghost use Rattle.p21_lexemes.specs.Tokens as spec;

use crate::token::TokenKind;

pub fn same_kind(a: TokenKind, b: TokenKind) -> bool
    ensures value { result ≡ spec.same_kind a b }
    ensures same { result ≡ true → a ≡ b }
{
    a == b
}

/// What the bytes from `$` to `=` are that are tokens by themselves.
static SINGLE_KINDS: [TokenKind; 26] = [
    TokenKind::Dollar,
    TokenKind::End,
    TokenKind::End,
    TokenKind::End,
    TokenKind::Open,
    TokenKind::Close,
    TokenKind::Star,
    TokenKind::End,
    TokenKind::Comma,
    TokenKind::End,
    TokenKind::End,
    TokenKind::End,
    TokenKind::End,
    TokenKind::End,
    TokenKind::End,
    TokenKind::End,
    TokenKind::End,
    TokenKind::End,
    TokenKind::End,
    TokenKind::End,
    TokenKind::End,
    TokenKind::End,
    TokenKind::End,
    TokenKind::Semicolon,
    TokenKind::End,
    TokenKind::Equals,
];

/// What a byte is that is a token by itself, or `End`. A table is read faster than a choice among bytes.
#[inline(always)]
pub fn single_kind(b: u8) -> TokenKind
    ensures { spec.same_kind result End ≡ false → single b ≡ Token result 1 }
{
    if b'$' <= b && b <= b'=' {
        SINGLE_KINDS[usize::from(b - b'$')]
    } else {
        TokenKind::End
    }
}
