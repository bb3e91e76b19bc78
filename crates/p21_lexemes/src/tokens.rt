//! The tokens of a text, one after the other.

ghost use Rattle.std.specs.Prelude.{◌≡◌, ◌<◌, ◌≤◌, ◌-◌, ◌^◌, length, true, IfOk, IsAscii};
ghost use Rattle.std.specs.List.{prefix_len};
ghost use Rattle.std.specs.Option.{option_map};
ghost use Rattle.text_forms.specs.Forms.{first, rest, turns};
ghost use Rattle.text_forms.specs.Forms as forms;
ghost use Rattle.text_forms.specs.Reads.{Reads, ReadsAs, Takes};
ghost use Rattle.p21_lexemes.specs.Lexical as lexical;
ghost use Rattle.p21_lexemes.specs.Tokens as spec;
ghost use Rattle.p21_lexemes.specs.declared.front.Start.TheVariants as start;

use crate::front::{Start, front};
use crate::kinds::same_kind;
use crate::token::{Token, TokenKind};
use crate::usual::{may_be_number, usual, usual_number, usual_or_word};
use p21_tree::{FaultKind, FileFault};
use plain_data::Failure;
use std::marker::Model;
use text_forms::TokenSource;

/// How many blanks stand in front of a text.
fn blanks_len(z: &[u8]) -> usize
    ensures value { result ≡ prefix_len lexical.is_blank z.now }
    ensures within { result ≤ length z.now }
{
    z.iter().take_while(|b| **b <= b' ').count()
}

/// What follows the blanks in front of a text that ends at the place `end`.
#[tactic(auto, using(crate::proofs::Lexemes::lexemes_after_blanks))]
#[inline(always)]
fn after_blanks<'a>(z: &'a [u8], end: usize) -> &'a [u8]
    requires { length z.now ≤ end }
    ensures value { spec.lexemes (end - length result.now) result.now ≡ spec.lexemes (end - length z.now) z.now }
    ensures within { length result.now ≤ length z.now }
{
    &z[blanks_len(z)..]
}

/// A cursor over the tokens of a text, which cuts each as it is reached. It is made of few words, since each is written anew
/// for each token.
#[derive(Drop)]
pub struct Tokens<'a> {
    /// What the next token is, or `End`.
    kind: TokenKind,
    /// At the end, the kind of the fault of whoever wants a token.
    fault: FaultKind,
    /// The length of the next token, which is 0 at the end alone.
    len: usize,
    /// The text from the next token on.
    left: &'a [u8],
    /// The place where the text ends.
    end: usize,
}

impl<'a> Model for Tokens<'a> {
    ghost use Rattle.p21_lexemes.specs.Tokens.{Lexemes};

    ghost Value = { Lexemes };

    ghost use Rattle.p21_lexemes.specs.Cursor.{shows, IsCut};

    ghost view = { shows };

    ghost invariant = { IsCut };
}

/// A token of this kind and length comes next in a text, which ends at the place `end`.
#[inline(always)]
fn with_token<'a>(kind: TokenKind, len: usize, left: &'a [u8], end: usize) -> Tokens<'a>
    requires front { lexical.front left.now ≡ start.Token kind len }
    requires fits { lexical.Fits (start.Token kind len) (length left.now) }
    requires within { length left.now ≤ end }
    requires range { end < 2 ^ 63 }
    ensures { result ≡ spec.lexemes (end - length left.now) left.now }
{
    Tokens {
        kind,
        fault: FaultKind::Syntax,
        len,
        left,
        end,
    }
}

/// No token comes next in a text, but a fault.
fn without_token<'a>(fault: FaultKind, left: &'a [u8], end: usize) -> Tokens<'a>
    requires fault { spec.lexemes (end - length left.now) left.now ≡ spec.faulty fault (end - length left.now) }
    requires within { length left.now ≤ end }
    requires range { end < 2 ^ 63 }
    ensures { result ≡ spec.lexemes (end - length left.now) left.now }
{
    Tokens {
        kind: TokenKind::End,
        fault,
        len: 0,
        left,
        end,
    }
}

/// The tokens of a text that ends at the place `end`.
fn cut<'a>(mut left: &'a [u8], end: usize) -> Tokens<'a>
    requires within { length left.now ≤ end }
    requires range { end < 2 ^ 63 }
    ensures { result ≡ spec.lexemes (end - length left.entry.now) left.entry.now }
{
    'blanks: while !left.is_empty() {
        match front(left) {
            Start::Blank(len) => left = &left[len..],
            Start::Token(kind, len) => return with_token(kind, len, left, end),
            Start::Fault(kind) => return without_token(kind, left, end),
        }
    }
    without_token(FaultKind::Syntax, left, end)
}

impl<'a> Tokens<'a> {
    /// The tokens of a text, whose places count from 0.
    pub fn new(text: &'a [u8]) -> Tokens<'a>
        ensures { result ≡ spec.lexemes 0 text.now }
    {
        cut(text, text.len())
    }

    /// The tokens of a whole file, which may have a byte order mark in front. Places count the mark.
    pub fn of_file(text: &'a [u8]) -> Tokens<'a>
        ensures { result ≡ spec.file_lexemes text.now }
    {
        if text.starts_with(b"\xEF\xBB\xBF") {
            cut(&text[3..], text.len())
        } else {
            Tokens::new(text)
        }
    }

    /// What the next token is, or `End`.
    pub fn kind(&self) -> TokenKind
        ensures { result ≡ spec.kind self.now }
    {
        self.kind
    }

    /// A fault of this kind at the next token. At the end it is the fault of whoever wants a token.
    fn refused(&self, kind: FaultKind) -> FileFault
        ensures { result ≡ forms.refusal (spec.refused kind) self.now }
    {
        let at = self.end - self.left.len();
        if self.len == 0 {
            FileFault {
                kind: self.fault,
                at,
            }
        } else {
            FileFault { kind, at }
        }
    }

    /// The fault where no form can take the next token.
    pub fn refusal(&self) -> FileFault
        ensures { result ≡ spec.refusal self.now }
    {
        self.refused(FaultKind::Syntax)
    }

    /// Whether the next token is of this kind.
    pub fn sees(&self, kind: TokenKind) -> bool
        ensures { result ≡ spec.sees kind self.now }
    {
        !same_kind(kind, TokenKind::End) && same_kind(self.kind, kind)
    }

    /// Goes on to the token that follows. A token that is neither a word nor a number, nor stands behind a blank, is cut
    /// here, and of a number nothing else is asked.
    #[inline(never)]
    fn advance(&mut self)
        requires { 0 < turns self.old }
        ensures { self.new ≡ rest self.old }
    {
        let left = &self.left[self.len..];
        match usual(left) {
            Some((kind, len)) => *self = with_token(kind, len, left, self.end),
            None if may_be_number(left) => {
                let end = self.end;
                self.go_to_number(left, end)
            }
            None => {
                let end = self.end;
                self.go_to(left, end)
            }
        }
    }

    /// Goes to a text that ends at the place `end`.
    #[inline(never)]
    fn go_to(&mut self, left: &'a [u8], end: usize)
        requires within { length left.now ≤ end }
        requires range { end < 2 ^ 63 }
        ensures { self.new ≡ spec.lexemes (end - length left.now) left.now }
    {
        let left = after_blanks(left, end);
        match usual_or_word(left) {
            Some((kind, len)) => *self = with_token(kind, len, left, end),
            None => self.go_to_number(left, end),
        }
    }

    /// The same, where a number comes first.
    #[inline(never)]
    fn go_to_number(&mut self, left: &'a [u8], end: usize)
        requires within { length left.now ≤ end }
        requires range { end < 2 ^ 63 }
        ensures { self.new ≡ spec.lexemes (end - length left.now) left.now }
    {
        match usual_number(left) {
            Some((kind, len)) => *self = with_token(kind, len, left, end),
            None => self.go_far(left, end),
        }
    }

    /// The same, whatever comes first.
    #[inline(never)]
    fn go_far(&mut self, left: &'a [u8], end: usize)
        requires within { length left.now ≤ end }
        requires range { end < 2 ^ 63 }
        ensures { self.new ≡ spec.lexemes (end - length left.now) left.now }
    {
        *self = cut(left, end);
    }

    /// Takes the next token.
    pub fn take(&mut self) -> Option<Token<'a>>
        ensures token { option_map spec.view result ≡ first self.old }
        ensures rest { self.new ≡ rest self.old }
    {
        let kind = self.kind;
        if same_kind(kind, TokenKind::End) {
            return None;
        }
        let at = self.end - self.left.len();
        let text = &self.left[..self.len];
        self.advance();
        Some(Token { kind, at, text })
    }

    /// Takes the next token, which has to be of this kind, and gives its text.
    ///
    /// # Errors
    ///
    /// The refusal of the next token, which then stays.
    #[tactic(auto, unfolding(crate::specs::Tokens::expect))]
    #[inline(always)]
    pub fn expect(&mut self, kind: TokenKind) -> Result<&'a [u8], Failure<FileFault>>
        ensures reads { ReadsAs (λ text. text.now) (spec.expect kind self.old) result self.new }
        ensures takes { Takes result self.old self.new }
    {
        if !self.sees(kind) {
            return Err(Failure::Fault(self.refusal()));
        }
        match self.take() {
            Some(token) => Ok(token.text),
            None => Err(Failure::Fault(self.refusal())),
        }
    }

    /// Takes a keyword, which has to come next, and gives it as it stands.
    ///
    /// # Errors
    ///
    /// The refusal of the next token, which then stays.
    #[tactic(auto, unfolding(crate::specs::Tokens::expect))]
    pub fn expect_keyword(&mut self) -> Result<&'a [u8], Failure<FileFault>>
        ensures reads { ReadsAs (λ text. text.now) (spec.expect TokenKind.Word self.old) result self.new }
        ensures takes { Takes result self.old self.new }
        ensures plain { IfOk result (λ text. IsAscii text.now) }
    {
        if !self.sees(TokenKind::Word) {
            return Err(Failure::Fault(self.refusal()));
        }
        match self.take() {
            Some(keyword) => Ok(keyword.text),
            None => Err(Failure::Fault(self.refusal())),
        }
    }

    /// Whether the next token is this word, in either case.
    pub fn sees_word(&self, word: &[u8]) -> bool
        ensures { result ≡ spec.sees_word word.now self.now }
    {
        same_kind(self.kind, TokenKind::Word) && self.left[..self.len].eq_ignore_ascii_case(word)
    }

    /// Takes this word, in either case, which has to come next.
    ///
    /// # Errors
    ///
    /// The refusal of the next token, which then stays.
    #[tactic(auto, unfolding(crate::specs::Tokens::word))]
    pub fn expect_word(&mut self, word: &[u8]) -> Result<(), Failure<FileFault>>
        ensures reads { Reads (spec.word word.now self.old) result self.new }
        ensures takes { Takes result self.old self.new }
    {
        if !self.sees_word(word) {
            return Err(Failure::Fault(self.refusal()));
        }
        match self.take() {
            Some(_) => Ok(()),
            None => Err(Failure::Fault(self.refusal())),
        }
    }

    /// Meets the end of the text.
    ///
    /// # Errors
    ///
    /// The refusal of the next token, or the lexical fault that comes next.
    pub fn finish(&self) -> Result<(), Failure<FileFault>>
        ensures { Reads (spec.finish self.now) result self.now }
    {
        if self.len > 0 {
            return Err(Failure::Fault(self.refusal()));
        }
        match self.fault {
            FaultKind::Syntax => Ok(()),
            _ => Err(Failure::Fault(self.refusal())),
        }
    }

    /// The fault of a value that nests too deep and begins with the next token.
    pub fn too_deep(&self) -> FileFault
        ensures { result ≡ spec.deep_fault self.now }
    {
        self.refused(FaultKind::Deep)
    }

    /// The fault of a second data section that begins with the next token.
    pub fn too_many_sections(&self) -> FileFault
        ensures { result ≡ spec.sections_fault self.now }
    {
        self.refused(FaultKind::Sections)
    }
}

impl<'a> TokenSource for Tokens<'a> {
    type Kind = TokenKind;

    type Token = &'a [u8];

    type Fault = FileFault;

    ghost turns = { turns };

    ghost use Rattle.std.specs.Prelude.{List, ℕ};

    ghost Seen = { List ℕ };

    ghost seen = { λ text. text.now };

    ghost sees = { spec.sees };

    ghost expect = { spec.expect };

    fn sees(&self, kind: TokenKind) -> bool {
        Tokens::sees(self, kind)
    }

    fn expect(&mut self, kind: TokenKind) -> Result<&'a [u8], Failure<FileFault>> {
        Tokens::expect(self, kind)
    }
}
