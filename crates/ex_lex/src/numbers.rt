//! Integer and real literals.

ghost use Rattle.std.specs.Prelude.{◌≡◌, length, slice_index, true};
ghost use Rattle.std.specs.Char.{is_ascii_digit};
ghost use Rattle.rp_numbers.specs.Whole.{whole_number};
ghost use Rattle.rp_numbers.specs.Spelling.{parse};
ghost use Rattle.ex_lex.specs.Lexical as spec;

use crate::front::Start;
use ex_tree::{LexFaultKind, TokenKind};
use rp_numbers::{Decimal, digits_len, exponent_len, whole_number};
use text_forms::byte;

fn integer(digits: &[u8]) -> Start
    ensures { result ≡ spec.integer_by (whole_number digits.now) (length digits.now) }
{
    match whole_number(digits) {
        None => Start::Fault(LexFaultKind::TooBig),
        Some(_) => Start::Token(TokenKind::IntegerLiteral, digits.len()),
    }
}

fn real(spelling: &[u8]) -> Start
    ensures { result ≡ spec.real_by (parse spelling.now) (length spelling.now) }
{
    match Decimal::parse(spelling) {
        Err(_) => Start::Fault(LexFaultKind::TooBig),
        Ok(_) => Start::Token(TokenKind::RealLiteral, spelling.len()),
    }
}

#[tactic(auto, unfolding(crate::specs::Lexical::number))]
pub fn number(z: &[u8]) -> Start
    requires { is_ascii_digit (slice_index z.now 0) ≡ true }
    ensures value { result ≡ spec.number z.now }
    ensures within { spec.Fits result (length z.now) }
{
    let whole = digits_len(z);
    if byte(z, whole) != b'.' {
        return integer(&z[..whole]);
    }
    let point = whole + 1 + digits_len(&z[whole + 1..]);
    let end = point + exponent_len(&z[point..]);
    real(&z[..end])
}
