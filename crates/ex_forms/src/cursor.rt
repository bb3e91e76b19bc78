//! A cursor over tokens.

ghost use Rattle.std.specs.Prelude.{◌≡◌, ◌<◌, ◌≤◌, true, IsOk, Ok, Err, OnSome};
ghost use Rattle.std.specs.List.{list_any};
ghost use Rattle.text_forms.specs.Forms.{rest, turns};
ghost use Rattle.text_forms.specs.Forms as forms;
ghost use Rattle.text_forms.specs.Reads.{Reads, ReadsAs, Takes};
ghost use Rattle.ex_lex.specs.Lexeme.{lexeme};
ghost use Rattle.ex_forms.specs.Input as spec;

use ex_lex::TokenList;
use ex_tree::{ParseFault, ParseFaultKind, Token, TokenKind};
use plain_data::Failure;
use std::marker::Model;
use text_forms::TokenSource;

/// What reads a form: its tree; else the fault, or want of memory.
pub type Read<T> = Result<T, Failure<ParseFault>>;

/// The tokens of a text that are left.
#[derive(Drop)]
pub struct Cursor<'t> {
    rest: &'t [Token<'t>],
    text_length: usize,
}

impl<'t> Model for Cursor<'t> {
    ghost use Rattle.ex_forms.specs.Input.{Lexemes};

    ghost Value = { Lexemes };

    ghost use Rattle.ex_forms.specs.Cursor.{left};

    ghost view = { left };
}

impl<'t> Cursor<'t> {
    pub fn new(tokens: &'t TokenList<'t>) -> Cursor<'t>
        ensures { result ≡ spec.stream tokens.now }
    {
        Cursor {
            rest: tokens.as_slice(),
            text_length: tokens.text_length(),
        }
    }

    /// What the next token is.
    pub fn kind(&self) -> TokenKind
        ensures { result ≡ spec.kind self.now }
    {
        match self.rest {
            [token, ..] => token.kind,
            [] => TokenKind::Finish,
        }
    }

    /// What the token after the next is.
    pub fn second_kind(&self) -> TokenKind
        ensures { result ≡ spec.second_kind self.now }
    {
        match self.rest {
            [_, second, ..] => second.kind,
            _ => TokenKind::Finish,
        }
    }

    /// Whether the next token is of this kind.
    pub fn sees(&self, kind: TokenKind) -> bool
        ensures { result ≡ spec.sees kind self.now }
    {
        same_kind(self.kind(), kind)
    }

    /// Whether the token after the next is of this kind.
    pub fn sees_second(&self, kind: TokenKind) -> bool
        ensures { result ≡ spec.sees_second kind self.now }
    {
        same_kind(self.second_kind(), kind)
    }

    /// The fault where no form takes the next token.
    pub fn refusal(&self) -> ParseFault
        ensures { result ≡ spec.refusal self.now }
    {
        match self.rest {
            [token, ..] => refused(token),
            [] => ParseFault {
                kind: ParseFaultKind::Syntax,
                at: self.text_length,
            },
        }
    }

    /// The fault where the next token opens a level too many.
    fn too_deep(&self) -> ParseFault
        ensures { result ≡ spec.too_deep self.now }
    {
        match self.rest {
            [token, ..] => ParseFault {
                kind: ParseFaultKind::TooDeep,
                at: token.at,
            },
            [] => ParseFault {
                kind: ParseFaultKind::Syntax,
                at: self.text_length,
            },
        }
    }

    /// Takes the next token if it is of this kind.
    #[tactic(auto, unfolding(crate::specs::Input::eat))]
    pub fn eat(&mut self, kind: TokenKind) -> bool
        ensures reads { spec.eat kind self.old ≡ Ok (result, self.new) }
        ensures keeps { turns self.new ≤ turns self.old }
    {
        let seen = self.sees(kind);
        if let (true, [_, rest @ ..]) = (seen, self.rest) {
            self.rest = rest;
        }
        seen
    }

    /// Takes the next token, which has to be of this kind.
    #[tactic(auto, unfolding(crate::specs::Input::expect))]
    pub fn expect(&mut self, kind: TokenKind) -> Read<Token<'t>>
        ensures reads { ReadsAs lexeme (spec.expect kind self.old) result self.new }
        ensures takes { Takes result self.old self.new }
    {
        if !self.sees(kind) {
            return Err(Failure::Fault(self.refusal()));
        }
        match self.rest {
            [token, rest @ ..] => {
                self.rest = rest;
                Ok(*token)
            }
            [] => Err(Failure::Fault(self.refusal())),
        }
    }

    /// Takes the next token, which has to be of this kind and opens a level, where so many are left.
    #[tactic(auto, unfolding(crate::specs::Input::enter))]
    pub fn enter(&mut self, levels: u8, kind: TokenKind) -> Read<Token<'t>>
        ensures reads { ReadsAs lexeme (spec.enter levels kind self.old) result self.new }
        ensures takes { Takes result self.old self.new }
        ensures deeper { IsOk result → 0 < levels }
    {
        if levels > 0 {
            return self.expect(kind);
        }
        Err(Failure::Fault(if self.sees(kind) {
            self.too_deep()
        } else {
            self.refusal()
        }))
    }

    /// Whether no token is left.
    #[tactic(auto, unfolding(crate::specs::Input::finish))]
    pub fn finish(&self) -> Read<()>
        ensures { Reads (spec.finish self.now) result self.now }
    {
        match self.rest {
            [token, ..] => Err(Failure::Fault(refused(token))),
            [] => Ok(()),
        }
    }
}

impl<'t> TokenSource for Cursor<'t> {
    type Kind = TokenKind;

    type Token = Token<'t>;

    type Fault = ParseFault;

    ghost turns = { turns };

    ghost use Rattle.ex_lex.specs.Lexeme.{Lexeme};

    ghost Seen = { Lexeme };

    ghost seen = { lexeme };

    ghost sees = { spec.sees };

    ghost expect = { spec.expect };

    fn sees(&self, kind: TokenKind) -> bool {
        Cursor::sees(self, kind)
    }

    fn expect(&mut self, kind: TokenKind) -> Read<Token<'t>> {
        Cursor::expect(self, kind)
    }
}

pub fn same_kind(a: TokenKind, b: TokenKind) -> bool
    ensures value { result ≡ spec.same_kind a b }
    ensures same { result ≡ true → a ≡ b }
{
    a == b
}

/// The fault of a token that no form takes.
#[tactic(auto, unfolding(crate::specs::Input::refused))]
pub fn refused(token: &Token<'_>) -> ParseFault
    ensures { result ≡ spec.refused (lexeme token.now) }
{
    let kind = if is_left_out(token.kind) || is_constraint_word(token) {
        ParseFaultKind::OutOfProfile(token.kind)
    } else {
        ParseFaultKind::Syntax
    };
    ParseFault { kind, at: token.at }
}

fn is_constraint_word(token: &Token<'_>) -> bool
    ensures { result ≡ spec.is_constraint_word (lexeme token.now) }
{
    same_kind(token.kind, TokenKind::Identifier)
        && token.text.eq_ignore_ascii_case(b"SUBTYPE_CONSTRAINT")
}

fn is_left_out(kind: TokenKind) -> bool
    ensures { result ≡ list_any (spec.same_kind kind) spec.left_out }
{
    const LEFT_OUT: [TokenKind; 29] = [
        TokenKind::Acos,
        TokenKind::Aggregate,
        TokenKind::Alias,
        TokenKind::Asin,
        TokenKind::Atan,
        TokenKind::Concatenate,
        TokenKind::ConstE,
        TokenKind::Cos,
        TokenKind::Exp,
        TokenKind::Format,
        TokenKind::Generic,
        TokenKind::HiBound,
        TokenKind::Insert,
        TokenKind::Like,
        TokenKind::LoBound,
        TokenKind::Log,
        TokenKind::Log10,
        TokenKind::Log2,
        TokenKind::Pi,
        TokenKind::Procedure,
        TokenKind::Reference,
        TokenKind::Remove,
        TokenKind::RolesOf,
        TokenKind::Sin,
        TokenKind::Sqrt,
        TokenKind::Tan,
        TokenKind::Use,
        TokenKind::Value,
        TokenKind::ValueUnique,
    ];
    LEFT_OUT.iter().any(|left_out| same_kind(kind, *left_out))
}
