//! What stands at the front of a text.

ghost use Rattle.std.specs.Prelude.{◌≡◌, ◌<◌, ◌≤◌, ◌+◌, ◌^◌, ◌==◌, not, length, slice_index, true, false, IfSome};
ghost use Rattle.std.specs.List.{prefix_len};
ghost use Rattle.std.specs.Char.{is_ascii_alphabetic};
ghost use Rattle.text_forms.specs.Words.{is_word_byte};
ghost use Rattle.ex_lex.specs.Lexical as spec;

use crate::numbers::number;
use crate::strings::{binary, encoded_string, simple_string};
use crate::symbols::symbol;
use crate::words::word_kind;
use ex_tree::{LexFaultKind, TokenKind};
use text_forms::{byte, is_word_byte};

/// What stands at the front of a text.
#[derive(Clone, Copy)]
pub enum Start {
    /// This many bytes separate tokens.
    Blank(usize),
    /// A token of this many bytes.
    Token(TokenKind, usize),
    Fault(LexFaultKind),
}

fn word_len(z: &[u8]) -> usize
    ensures value { result ≡ prefix_len is_word_byte z.now }
    ensures some { is_ascii_alphabetic (slice_index z.now 0) ≡ true → 0 < result }
    ensures within { result ≤ length z.now }
{
    z.iter().take_while(|b| is_word_byte(**b)).count()
}

#[tactic(auto, unfolding(crate::specs::Lexical::word))]
fn word(z: &[u8]) -> Start
    requires { is_ascii_alphabetic (slice_index z.now 0) ≡ true }
    ensures value { result ≡ spec.word z.now }
    ensures within { spec.Fits result (length z.now) }
{
    let len = word_len(z);
    Start::Token(word_kind(&z[..len]), len)
}

fn line_len(z: &[u8]) -> usize
    ensures value { result ≡ prefix_len (λ b. not (b == 10)) z.now }
    ensures some { slice_index z.now 0 ≡ 45 → 0 < result }
    ensures within { result ≤ length z.now }
{
    z.iter().take_while(|b| **b != b'\n').count()
}

#[tactic(auto, unfolding(crate::specs::Lexical::tail_remark))]
fn tail_remark(z: &[u8]) -> Start
    requires { slice_index z.now 0 ≡ 45 }
    ensures value { result ≡ spec.tail_remark z.now }
    ensures within { spec.Fits result (length z.now) }
{
    Start::Blank(line_len(z))
}

/// The place after the `*)` that ends a remark, where `z` begins at the place 2.
fn remark_end(mut z: &[u8]) -> Option<usize>
    requires { length z.now + 2 < 2 ^ 63 }
    ensures value { result ≡ spec.remark_end false 0 2 z.entry.now }
    ensures within { IfSome result (λ end. (1 ≤ end) × (end ≤ length z.entry.now + 2)) }
{
    let mut inner = 0usize;
    let mut at = 2;
    'bytes: loop {
        match z {
            [b'(', b'*', rest @ ..] => {
                inner += 1;
                at += 2;
                z = rest;
            }
            [b'*', b')', rest @ ..] => {
                at += 2;
                if inner == 0 {
                    return Some(at);
                }
                inner -= 1;
                z = rest;
            }
            [_, rest @ ..] => {
                at += 1;
                z = rest;
            }
            [] => return None,
        }
    }
}

#[tactic(auto, unfolding(crate::specs::Lexical::embedded_remark))]
fn embedded_remark(z: &[u8]) -> Start
    requires { 1 < length z.now }
    ensures value { result ≡ spec.embedded_remark z.now }
    ensures within { spec.Fits result (length z.now) }
{
    match remark_end(&z[2..]) {
        None => Start::Fault(LexFaultKind::OpenRemark),
        Some(end) => Start::Blank(end),
    }
}

#[tactic(auto, unfolding(crate::specs::Lexical::other))]
fn other(z: &[u8]) -> Start
    requires { 0 < length z.now }
    ensures value { result ≡ spec.other z.now }
    ensures within { spec.Fits result (length z.now) }
{
    match z[0] {
        b'\'' => simple_string(z),
        b'"' => encoded_string(z),
        b'%' => binary(z),
        b'-' if byte(z, 1) == b'-' => tail_remark(z),
        b'(' if byte(z, 1) == b'*' => embedded_remark(z),
        _ => symbol(z),
    }
}

/// What a text that is not empty begins with.
#[tactic(auto, unfolding(crate::specs::Lexical::front))]
pub fn front(z: &[u8]) -> Start
    requires { 0 < length z.now }
    ensures value { result ≡ spec.front z.now }
    ensures within { spec.Fits result (length z.now) }
{
    let b = z[0];
    if b <= b' ' {
        Start::Blank(1)
    } else if b.is_ascii_alphabetic() {
        word(z)
    } else if b.is_ascii_digit() {
        number(z)
    } else {
        other(z)
    }
}
