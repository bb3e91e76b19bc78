//! The values of tokens.

ghost use Rattle.std.specs.Prelude.{◌≡◌, ◌≤◌, ◌<◌, ◌-◌, ◌+◌, ◌^◌, ◌++◌, drop, nat_le, if◌then◌else◌, Some, None, true, IfOk, OnOk};
ghost use Rattle.std.specs.List.{flat_map};
ghost use Rattle.std.specs.Str.{str_to_ascii_uppercase};
ghost use Rattle.rp_numbers.specs.Whole.{value};
ghost use Rattle.p21_values.specs.Tokens as spec;

use p21_escapes::digit_value;
use plain_data::Items;
use rp_numbers::{after_sign, are_digits, is_negative, number_after};
use rp_value::Logical;
use std::alloc::{AllocError, Global};

/// The greatest magnitude of a value of INTEGER with this sign.
fn greatest(is_negative: bool) -> u128
    ensures value { result ≡ spec.greatest is_negative }
    ensures small { result ≤ 2 ^ 63 }
{
    if is_negative { 1 << 63 } else { (1 << 63) - 1 }
}

/// The magnitude of an integer with this sign.
fn magnitude(is_negative: bool, digits: &[u8]) -> Option<u128>
    ensures { result ≡ (if nat_le (value digits.now) (spec.greatest is_negative) then Some (value digits.now) else None) }
{
    number_after(0, digits, greatest(is_negative))
}

/// The value of an integer, with a sign or not.
#[tactic(auto, unfolding(crate::specs::Tokens::integer))]
pub fn integer(token: &[u8]) -> Option<i64>
    ensures { result ≡ spec.integer token.now }
{
    let digits = after_sign(token);
    if digits.is_empty() || !are_digits(digits) {
        return None;
    }
    let is_negative = is_negative(token);
    let Some(magnitude) = magnitude(is_negative, digits) else {
        return None;
    };
    let magnitude = magnitude as i128;
    Some(if is_negative {
        -magnitude as i64
    } else {
        magnitude as i64
    })
}

fn push_bits(bits: &mut Vec<bool>, digit: u8) -> Result<(), AllocError>
    ensures { OnOk result (bits.new.items ≡ bits.old.items ++ spec.bits_of_digit digit) }
{
    let value = digit_value(digit);
    bits.push(value / 8 % 2 == 1)?;
    bits.push(value / 4 % 2 == 1)?;
    bits.push(value / 2 % 2 == 1)?;
    bits.push(value % 2 == 1)?;
    Ok(())
}

/// The bits of hexadecimal digits.
fn all_bits(alloc: Global, digits: &[u8]) -> Result<Vec<bool>, AllocError>
    ensures { IfOk result (λ bits. bits.items ≡ flat_map spec.bits_of_digit digits.now) }
{
    let mut bits = Vec::new(alloc);
    for digit in digits {
        push_bits(&mut bits, *digit)?;
    }
    Ok(bits)
}

/// The bits without so many in front.
fn after(bits: &[bool], count: usize) -> &[bool]
    ensures { result.now ≡ drop count bits.now }
{
    if count < bits.len() {
        &bits[count..]
    } else {
        &[]
    }
}

/// The bits of a binary.
pub fn bits(alloc: Global, token: &[u8]) -> Result<Items<bool>, AllocError>
    ensures { IfOk result (λ bits. bits ≡ spec.bits token.now) }
{
    let [unused, digits @ ..] = token else {
        return Ok(Items::new(alloc));
    };
    let bits = all_bits(alloc, digits)?;
    let unused = usize::from(unused.saturating_sub(b'0'));
    Items::from_slice(alloc, after(&bits, unused))
}

fn by_letter(letter: u8) -> Option<Logical>
    ensures { result ≡ spec.by_letter letter }
{
    match letter {
        b'T' => Some(Logical::True),
        b'F' => Some(Logical::False),
        b'U' => Some(Logical::Unknown),
        _ => None,
    }
}

/// The value of LOGICAL that an item in upper case is.
pub fn logical(token: &[u8]) -> Option<Logical>
    ensures { result ≡ spec.logical token.now }
{
    match token {
        [letter] => by_letter(*letter),
        _ => None,
    }
}

/// The value of BOOLEAN that an item in upper case is.
pub fn boolean(token: &[u8]) -> Option<Logical>
    ensures { result ≡ spec.boolean token.now }
{
    match token {
        [b'U'] => None,
        [letter] => by_letter(*letter),
        _ => None,
    }
}

/// Whether no letter of the token is a small one.
pub fn is_upper_case(token: &[u8]) -> bool
    ensures { result ≡ true → str_to_ascii_uppercase token.now ≡ token.now }
{
    token.iter().all(|byte| byte.to_ascii_uppercase() == *byte)
}
