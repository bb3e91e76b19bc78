//! Reals as they are spelled.

ghost use Rattle.std.specs.Prelude.{◌≡◌, ◌≤◌, ◌<◌, ◌+◌, ◌-◌, ◌^◌, ◌%◌, ◌==◌, length, take, drop, true, nat_le, nat_lt, pos, Some, None, if◌then◌else◌, MatchOption};
ghost use Rattle.std.specs.List.{suffix_len, list_all};
ghost use Rattle.std.specs.Char.{is_ascii_digit};
ghost use Rattle.rp_numbers.specs.Spelling as spec;
ghost use Rattle.rp_numbers.specs.Whole.{value_after, value};

use crate::fronts::digits_len;
use crate::whole::{are_digits, number_after};
use std::marker::Model;

pub(crate) const MAX_COEFFICIENT: u128 = 999_999_999_999_999_999_999_999_999_999_999_999;

const MAX_EXPONENT: i128 = 1000;

/// A power of ten that no number of digits in memory brings back to `MAX_EXPONENT`.
const MAX_POWER: u128 = 1 << 70;

/// The parts of a real.
#[derive(Drop)]
pub(crate) struct Real<'a> {
    is_negative: bool,
    whole: &'a [u8],
    fraction: &'a [u8],
    /// The sign and the digits of the exponent; nothing where it has none.
    power: &'a [u8],
}

impl<'a> Model for Real<'a> {
    ghost use Rattle.std.specs.Prelude.{◌≡◌, true};
    ghost use Rattle.std.specs.List.{list_all};
    ghost use Rattle.std.specs.Char.{is_ascii_digit};
    ghost use Rattle.rp_numbers.specs.Spelling as spec;

    ghost Value = { spec.Real };

    ghost view = { λ r. record { is_negative = r.is_negative; whole = r.whole.now; fraction = r.fraction.now; power = r.power.now } };

    ghost invariant = { λ r. (list_all is_ascii_digit r.whole.now ≡ true) × (list_all is_ascii_digit r.fraction.now ≡ true) };
}

/// Whether a number has the sign `-`.
pub fn is_negative(text: &[u8]) -> bool
    ensures { result ≡ spec.is_negative text.now }
{
    match text {
        [b'-', ..] => true,
        _ => false,
    }
}

/// What follows the sign, if there is one.
pub fn after_sign(text: &[u8]) -> &[u8]
    ensures { result.now ≡ drop (spec.sign_len text.now) text.now }
{
    match text {
        [b'+' | b'-', rest @ ..] => rest,
        _ => text,
    }
}

/// The digits in front, and what follows.
#[tactic(auto, using(crate::proofs::Digits::all_in_front))]
fn split_digits(text: &[u8]) -> (&[u8], &[u8])
    ensures front { result.0.now ≡ take (spec.digits_len text.now) text.now }
    ensures back { result.1.now ≡ drop (spec.digits_len text.now) text.now }
    ensures digits { list_all is_ascii_digit result.0.now ≡ true }
{
    text.split_at(digits_len(text))
}

/// How many zeros stand at the end.
fn zeros_at_end(digits: &[u8]) -> usize
    ensures value { result ≡ suffix_len spec.is_zero digits.now }
    ensures within { result ≤ length digits.now }
{
    digits.iter().rev().take_while(|b| **b == b'0').count()
}

/// The number that digits before and behind a point write without it, where it is at most `most`.
#[tactic(auto, using(crate::proofs::Digits::grown))]
fn number_of_both(whole: &[u8], fraction: &[u8], most: u128) -> Option<u128>
    ensures { result ≡ (if nat_le (value_after (value whole.now) fraction.now) most then Some (value_after (value whole.now) fraction.now) else None) }
{
    let Some(start) = number_after(0, whole, most) else {
        return None;
    };
    number_after(start, fraction, most)
}

/// What follows an `E`, or nothing where `text` ends.
fn power(text: &[u8]) -> Option<&[u8]>
    ensures { MatchOption result (spec.power text.now ≡ None) (λ p. spec.power text.now ≡ Some p.now) }
{
    let [b, rest @ ..] = text else {
        return Some(text);
    };
    let digits = after_sign(rest);
    if (*b == b'E' || *b == b'e') && !digits.is_empty() && are_digits(digits) {
        Some(rest)
    } else {
        None
    }
}

/// What the sign and the digits of an exponent write, where it is not too far from 0.
fn power_value(power: &[u8]) -> Option<i128>
    ensures { MatchOption result (MAX_POWER < value (drop (spec.sign_len power.now) power.now)) (λ n. (n ≡ spec.power_value power.now) × (value (drop (spec.sign_len power.now) power.now) ≤ MAX_POWER)) }
{
    let Some(magnitude) = number_after(0, after_sign(power), MAX_POWER) else {
        return None;
    };
    let magnitude = magnitude as i128;
    Some(if is_negative(power) {
        -magnitude
    } else {
        magnitude
    })
}

/// The exponent, where a decimal can have it.
fn narrowed(exponent: i128) -> Option<i16>
    ensures { result ≡ (if spec.fits exponent then Some exponent else None) }
{
    if -MAX_EXPONENT <= exponent && exponent <= MAX_EXPONENT {
        Some(exponent as i16)
    } else {
        None
    }
}

impl Real<'_> {
    ghost use Rattle.std.specs.Prelude.{◌≡◌, ◌≤◌, ◌<◌, ◌+◌, ◌-◌, ◌^◌, ◌%◌, ◌==◌, length, take, drop, true, nat_le, pos, Some, None, if◌then◌else◌, MatchOption};
    ghost use Rattle.std.specs.List.{suffix_len, list_all};
    ghost use Rattle.rp_numbers.specs.Spelling as spec;

    /// The parts of the real that is the whole text.
    #[tactic(auto, unfolding(crate::specs::Spelling::real))]
    pub(crate) fn of(text: &[u8]) -> Option<Real<'_>>
        ensures { result ≡ spec.real text.now }
    {
        let unsigned = after_sign(text);
        let (whole, rest) = split_digits(unsigned);
        let [b'.', behind @ ..] = rest else {
            return None;
        };
        let (fraction, rest) = split_digits(behind);
        let Some(power) = power(rest) else {
            return None;
        };
        if whole.is_empty() {
            return None;
        }
        Some(Real {
            is_negative: is_negative(text),
            whole,
            fraction,
            power,
        })
    }

    #[tactic(auto, using(crate::proofs::Zeros::zeros_of))]
    /// How many of the zeros that end the digits stand before the point, and how many behind it.
    fn zeros(&self) -> (usize, usize)
        ensures all { result.0 + result.1 ≡ spec.zeros self.now }
        ensures before { result.0 ≤ length self.now.whole }
        ensures behind { result.1 ≤ length self.now.fraction }
        ensures only { result.1 < length self.now.fraction → result.0 ≡ 0 }
    {
        let behind = zeros_at_end(self.fraction);
        if behind == self.fraction.len() {
            (zeros_at_end(self.whole), behind)
        } else {
            (0, behind)
        }
    }

    /// The coefficient without zeros at its end, where it has at most 36 digits.
    pub(crate) fn coefficient(&self) -> Option<u128>
        ensures value { result ≡ (if nat_le (spec.coefficient self.now) (10 ^ 36 - 1) then Some (spec.coefficient self.now) else None) }
        ensures last { spec.coefficient self.now % 10 ≡ 0 → spec.coefficient self.now ≡ 0 }
    {
        let (before, behind) = self.zeros();
        let whole = &self.whole[..self.whole.len() - before];
        let fraction = &self.fraction[..self.fraction.len() - behind];
        number_of_both(whole, fraction, MAX_COEFFICIENT)
    }

    /// The exponent that goes with that coefficient, where a decimal can have it.
    pub(crate) fn exponent(&self) -> Option<i16>
        ensures { result ≡ (if spec.fits (spec.exponent self.now) then Some (spec.exponent self.now) else None) }
    {
        let (before, behind) = self.zeros();
        let Some(power) = power_value(self.power) else {
            return None;
        };
        let exponent = power - (self.fraction.len() - behind) as i128 + before as i128;
        narrowed(exponent)
    }

    pub(crate) fn is_negative(&self) -> bool
        ensures { result ≡ self.now.is_negative }
    {
        self.is_negative
    }
}
