//! The tokens that most of a file consists of, found without calls.

ghost use Rattle.std.specs.Prelude.{◌≡◌, ◌<◌, ◌≤◌, ◌+◌, ◌&&◌, nat_le, length, drop, slice_index, true, IfSome};
ghost use Rattle.std.specs.List.{list_all};
ghost use Rattle.std.specs.Char.{is_ascii_digit};
ghost use Rattle.std.specs.Option.{option_map};
ghost use Rattle.p21_lexemes.specs.declared.token.TokenKind.TheVariants as k;
ghost use Rattle.p21_lexemes.specs.declared.front.Start.TheVariants.{Token};
ghost use Rattle.rp_numbers.specs.Spelling as spelling;
ghost use Rattle.rp_numbers.specs.Whole.{value};
ghost use Rattle.p21_lexemes.specs.Lexical as spec;
ghost use Rattle.p21_lexemes.specs.Usual.{IsNear};

use crate::front::{are_few, greatest, is_letter, word_len};
use crate::kinds::{same_kind, single_kind};
use crate::token::TokenKind;
use p21_tree::MAX_NAME;
use rp_numbers::{digits_len, sign_len};
use text_forms::byte;

/// The length of `#` and a few digits.
#[tactic(auto, unfolding(crate::specs::Lexical::name))]
#[inline(always)]
fn name_len(z: &[u8]) -> Option<usize>
    requires { 0 < length z.now }
    ensures { IfSome result (λ len. (spec.name z.now ≡ Token k.Name len) × spec.Fits (Token k.Name len) (length z.now)) }
{
    let digits = digits_len(&z[1..]);
    if digits > 0 && are_few(MAX_NAME, &z[1..1 + digits]) {
        Some(1 + digits)
    } else {
        None
    }
}

/// The length of a word, where no `-` follows it.
#[tactic(auto, using(crate::proofs::Plain::plain_word))]
#[inline(always)]
fn keyword_len(z: &[u8]) -> Option<usize>
    requires { spec.is_letter (slice_index z.now 0) ≡ true }
    ensures { IfSome result (λ len. (spec.word z.now ≡ Token k.Word len) × spec.Fits (Token k.Word len) (length z.now)) }
{
    let len = word_len(z);
    if byte(z, len) == b'-' {
        None
    } else {
        Some(len)
    }
}

/// The length of `.NAME.`.
#[tactic(auto, unfolding(crate::specs::Lexical::item))]
#[inline(always)]
fn item_len(z: &[u8]) -> Option<usize>
    requires { 0 < length z.now }
    ensures { IfSome result (λ len. (spec.item z.now ≡ Token k.Item len) × spec.Fits (Token k.Item len) (length z.now)) }
{
    let len = word_len(&z[1..]);
    if is_letter(byte(z, 1)) && byte(z, 1 + len) == b'.' {
        Some(len + 2)
    } else {
        None
    }
}

/// The length of a string that is empty.
#[tactic(auto, unfolding(crate::specs::Lexical::string))]
#[inline(always)]
fn empty_string_len(z: &[u8]) -> Option<usize>
    requires { 0 < length z.now }
    ensures { IfSome result (λ len. (spec.string z.now ≡ Token k.Text len) × spec.Fits (Token k.Text len) (length z.now)) }
{
    if byte(z, 1) == b'\'' && byte(z, 2) != b'\'' {
        Some(2)
    } else {
        None
    }
}

/// Whether digits are so few that they write at most 99.
#[inline(always)]
fn is_near(digits: &[u8]) -> bool
    requires { list_all is_ascii_digit digits.now ≡ true }
    ensures { result ≡ true → value digits.now ≤ 99 }
{
    match digits {
        [b'0', rest @ ..] => rest.len() <= 2,
        _ => digits.len() <= 2,
    }
}

/// The length of an exponent that is near to 0, or 0 where there is none.
#[inline(always)]
fn near_power_len(z: &[u8]) -> Option<usize>
    ensures { IfSome result (IsNear z.now) }
{
    let e = byte(z, 0);
    if e != b'E' && e != b'e' {
        return Some(0);
    }
    let sign = sign_len(&z[1..]);
    let digits = digits_len(&z[1 + sign..]);
    if digits > 0 && is_near(&z[1 + sign..1 + sign + digits]) {
        Some(1 + sign + digits)
    } else {
        None
    }
}

/// The most bytes of a sign, digits, a point and digits that are within the limits whatever they are.
const MAX_PLAIN: usize = 37;

/// The length of a real of few digits, whose point is at the place `end`, where its whole digits end.
#[inline(always)]
fn real_len(end: usize, z: &[u8]) -> Option<usize>
    requires some { 0 < spelling.digits_len (drop (spelling.sign_len z.now) z.now) }
    requires end { end ≡ spelling.sign_len z.now + spelling.digits_len (drop (spelling.sign_len z.now) z.now) }
    requires point { slice_index z.now end ≡ 46 }
    requires within { end < length z.now }
    ensures value { IfSome result (λ len. spec.real (end + 1 + spelling.digits_len (drop (end + 1) z.now) + spelling.exponent_len (drop (end + 1 + spelling.digits_len (drop (end + 1) z.now)) z.now)) z.now ≡ Token k.Real len) }
    ensures within { IfSome result (λ len. spec.Fits (Token k.Real len) (length z.now)) }
{
    let len = end + 1 + digits_len(&z[end + 1..]);
    if len > MAX_PLAIN {
        return None;
    }
    match near_power_len(&z[len..]) {
        Some(power) => Some(len + power),
        None => None,
    }
}

/// The kind and the length of a number.
#[tactic(auto, unfolding(crate::specs::Lexical::number))]
#[inline(always)]
fn number(z: &[u8]) -> Option<(TokenKind, usize)>
    ensures { IfSome result (λ found. (spec.number z.now ≡ Token found.0 found.1) × spec.Fits (Token found.0 found.1) (length z.now)) }
{
    let sign = sign_len(z);
    let whole = digits_len(&z[sign..]);
    let end = sign + whole;
    if whole == 0 {
        return None;
    }
    if byte(z, end) == b'.' {
        return match real_len(end, z) {
            Some(len) => Some((TokenKind::Real, len)),
            None => None,
        };
    }
    if are_few(greatest(byte(z, 0)), &z[sign..end]) {
        Some((TokenKind::Integer, end))
    } else {
        None
    }
}

#[inline(always)]
fn of_kind(kind: TokenKind, len: Option<usize>) -> Option<(TokenKind, usize)>
    ensures { result ≡ option_map (λ n. (kind, n)) len }
{
    match len {
        Some(len) => Some((kind, len)),
        None => None,
    }
}

/// The kind and the length of the token in front of a text, where it is a usual one, and neither a word nor a number.
#[tactic(auto, unfolding(crate::specs::Lexical::front, crate::specs::Lexical::punctuation))]
#[inline(always)]
pub fn usual(z: &[u8]) -> Option<(TokenKind, usize)>
    ensures { IfSome result (λ found. (spec.front z.now ≡ Token found.0 found.1) × spec.Fits (Token found.0 found.1) (length z.now)) }
{
    let b = byte(z, 0);
    let kind = single_kind(b);
    if !same_kind(kind, TokenKind::End) {
        return Some((kind, 1));
    }
    if b == b'#' {
        of_kind(TokenKind::Name, name_len(z))
    } else if b == b'\'' {
        of_kind(TokenKind::Text, empty_string_len(z))
    } else if b == b'.' {
        of_kind(TokenKind::Item, item_len(z))
    } else {
        None
    }
}

/// The kind and the length of the token in front of a text, where it is a usual one and no number.
#[tactic(auto, unfolding(crate::specs::Lexical::front))]
#[inline(always)]
pub fn usual_or_word(z: &[u8]) -> Option<(TokenKind, usize)>
    ensures { IfSome result (λ found. (spec.front z.now ≡ Token found.0 found.1) × spec.Fits (Token found.0 found.1) (length z.now)) }
{
    if is_letter(byte(z, 0)) {
        of_kind(TokenKind::Word, keyword_len(z))
    } else {
        usual(z)
    }
}

/// Whether a text may begin with a number. It may begin with `.` or `/` as well, so that one comparison tells.
#[inline(always)]
pub fn may_be_number(z: &[u8]) -> bool
    ensures { result ≡ (nat_le 45 (slice_index z.now 0) && nat_le (slice_index z.now 0) 57) }
{
    let b = byte(z, 0);
    b'-' <= b && b <= b'9'
}

/// The kind and the length of the number in front of a text, where it is a usual one.
#[tactic(auto, unfolding(crate::specs::Lexical::front))]
#[inline(always)]
pub fn usual_number(z: &[u8]) -> Option<(TokenKind, usize)>
    ensures { IfSome result (λ found. (spec.front z.now ≡ Token found.0 found.1) × spec.Fits (Token found.0 found.1) (length z.now)) }
{
    let b = byte(z, 0);
    if b == b'-' || b.is_ascii_digit() {
        number(z)
    } else {
        None
    }
}
