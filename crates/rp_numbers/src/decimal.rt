//! Decimals: the values of REAL and NUMBER.

ghost use Rattle.std.specs.Prelude.{◌≡◌};
ghost use Rattle.rp_numbers.specs.Decimals as spec;

use crate::order::compare_magnitudes;
use crate::spelling::{MAX_COEFFICIENT, Real};
use crate::whole::without_zeros;
use crate::writing::{write_power, write_signed};
use std::alloc::AllocError;
use std::cmp::Ordering;
use std::marker::Model;

const MAX_EXPONENT: i16 = 1000;

/// 36 digits and the 4 of an exponent, with their signs, a point and an `E`.
const MAX_WRITTEN: usize = 44;

/// Why a spelling has no decimal.
#[derive(Clone, Copy, PartialEq, Eq)]
pub enum DecimalFault {
    /// It is no real.
    NotReal,
    /// The coefficient has more than 36 digits, without zeros at its ends.
    TooManyDigits,
    /// The exponent that goes with this coefficient is not from -1000 to 1000.
    TooWide,
}

/// The real number `coefficient * 10^exponent`, in its one normal form.
#[derive(Clone, Copy)]
pub struct Decimal {
    coefficient: i128,
    exponent: i16,
}

impl Model for Decimal {
    ghost use Rattle.rp_numbers.specs.Decimals as spec;

    ghost Value = { spec.Decimal };

    ghost view = { λ x. record { coefficient = x.coefficient; exponent = x.exponent } };

    ghost invariant = { λ x. spec.IsNormal (record { coefficient = x.coefficient; exponent = x.exponent }) };

    ghost inverse = { λ x. record { coefficient = x.coefficient; exponent = x.exponent } };
}

impl Decimal {
    ghost use Rattle.std.specs.Prelude.{◌≡◌, ◌++◌, int_lt, pos, unsigned_abs, IfSome, None, Ok, OnOk, OnErr};
    ghost use Rattle.rp_numbers.specs.Decimals as spec;
    ghost use Rattle.rp_numbers.specs.Spelling as spelt;
    ghost use Rattle.rp_numbers.specs.Written.{written};

    const ZERO: Decimal = Decimal {
        coefficient: 0,
        exponent: 0,
    };

    /// The decimal of a real with a sign or without one, which is the whole text.
    #[tactic(auto, unfolding(crate::specs::Spelling::parse, crate::specs::Spelling::decimal))]
    pub fn parse(spelling: &[u8]) -> Result<Decimal, DecimalFault>
        ensures { result ≡ spelt.parse spelling.now }
    {
        let Some(real) = Real::of(spelling) else {
            return Err(DecimalFault::NotReal);
        };
        let Some(magnitude) = real.coefficient() else {
            return Err(DecimalFault::TooManyDigits);
        };
        if magnitude == 0 {
            return Ok(Decimal::ZERO);
        }
        let Some(exponent) = real.exponent() else {
            return Err(DecimalFault::TooWide);
        };
        let magnitude = magnitude as i128;
        let coefficient = if real.is_negative() {
            -magnitude
        } else {
            magnitude
        };
        Ok(Decimal {
            coefficient,
            exponent,
        })
    }

    /// The decimal that is this whole number.
    pub fn of_integer(number: i64) -> Decimal
        ensures { spec.scaled result ≡ spec.scaled_whole number }
    {
        if number == 0 {
            return Decimal::ZERO;
        }
        let (magnitude, zeros) = without_zeros(number.unsigned_abs());
        let magnitude = i128::from(magnitude);
        let coefficient = if number < 0 { -magnitude } else { magnitude };
        Decimal {
            coefficient,
            exponent: i16::from(zeros),
        }
    }

    /// The decimal of this coefficient and exponent, where they are its normal form.
    pub fn of_parts(coefficient: i128, exponent: i16) -> Option<Decimal>
        ensures some { IfSome result (λ d. d ≡ record { coefficient = coefficient; exponent = exponent }) }
        ensures none { result ≡ None → ¬ spec.IsNormal (record { coefficient = coefficient; exponent = exponent }) }
    {
        let magnitude = coefficient.unsigned_abs();
        let is_wide = magnitude > MAX_COEFFICIENT
            || exponent < -MAX_EXPONENT
            || exponent > MAX_EXPONENT;
        let is_zero = magnitude == 0 && exponent == 0;
        if is_wide || (magnitude % 10 == 0 && !is_zero) {
            return None;
        }
        Some(Decimal {
            coefficient,
            exponent,
        })
    }

    fn is_negative(&self) -> bool
        ensures { result ≡ int_lt self.now.coefficient (pos 0) }
    {
        self.coefficient < 0
    }

    fn magnitude(&self) -> u128
        ensures { result ≡ unsigned_abs self.now.coefficient }
    {
        self.coefficient.unsigned_abs()
    }

    /// How many zeros the decimal times 10^1000 has behind the coefficient.
    fn places(&self) -> u16
        ensures { result ≡ spec.places self.now }
    {
        (self.exponent + MAX_EXPONENT) as u16
    }

    /// How this number stands to the other.
    #[tactic(auto, using(crate::proofs::Ranks::orders))]
    pub fn cmp(&self, other: &Decimal) -> Ordering
        ensures { result ≡ spec.compare self.now other.now }
    {
        match (self.is_negative(), other.is_negative()) {
            (true, false) => Ordering::Less,
            (false, true) => Ordering::Greater,
            (false, false) => compare_magnitudes(
                self.magnitude(),
                self.places(),
                other.magnitude(),
                other.places(),
            ),
            (true, true) => compare_magnitudes(
                other.magnitude(),
                other.places(),
                self.magnitude(),
                self.places(),
            ),
        }
    }

    pub fn coefficient(&self) -> i128
        ensures { result ≡ self.now.coefficient }
    {
        self.coefficient
    }

    pub fn exponent(&self) -> i16
        ensures { result ≡ self.now.exponent }
    {
        self.exponent
    }

    /// The same number with the other sign.
    pub fn negate(&self) -> Decimal
        ensures { result ≡ spec.negated self.now }
    {
        Decimal {
            coefficient: -self.coefficient,
            exponent: self.exponent,
        }
    }

    /// Appends this decimal as an exchange file has it, such as `125.E-1`. Where memory runs out, nothing is appended.
    #[tactic(auto, using(crate::proofs::Rereading::rereading), unfolding(crate::specs::Written::written))]
    pub fn write(&self, out: &mut Vec<u8>) -> Result<(), AllocError>
        ensures ok { OnOk result (out.new.items ≡ out.old.items ++ written self.now) }
        ensures err { OnErr result (out.new.items ≡ out.old.items) }
        ensures law { spelt.parse (written self.now) ≡ Ok self.now }
    {
        let Decimal {
            coefficient,
            exponent,
        } = *self;
        out.reserve(MAX_WRITTEN)?;
        write_signed(coefficient, out);
        out.push_reserved(b'.');
        write_power(exponent, out);
        Ok(())
    }
}
