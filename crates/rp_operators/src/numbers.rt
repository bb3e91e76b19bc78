//! Arithmetic on values of INTEGER, which gives `?` out of 64 bits.

ghost use Rattle.std.specs.Prelude.{◌≡◌, ◌≤◌, ℤ, pos, negsuc, ◌+ℤ◌, ◌-ℤ◌, ◌*ℤ◌, neg_ℤ, nat_abs, int_div, int_rem, SomeIff, FitsSigned, IsTrue, int_le};
ghost use Rattle.std.specs.Int.{w64};
ghost use Rattle.rp_meaning.specs.Bare.{integer_of};
ghost use Rattle.rp_meaning.specs.Operators as spec;
ghost use Rattle.rp_value.specs.declared.value.Value.TheVariants as v;

use crate::bare::integer_of;
use rp_value::Value;

/// A number of 64 bits that was checked, or `?`.
#[tactic(auto, using(crate::proofs::Integers::integers))]
fn checked(number: Option<i64>) -> Value
    ensures { (z : ℤ) → SomeIff number (FitsSigned w64 z) z → result ≡ spec.integer z }
{
    match number {
        Some(number) => Value::Int(number),
        None => Value::Indet,
    }
}

/// `?` out of 64 bits.
pub(crate) fn integer(number: i128) -> Value
    ensures { result ≡ spec.integer number }
{
    if -0x8000_0000_0000_0000 <= number && number < 0x8000_0000_0000_0000 {
        Value::Int(number as i64)
    } else {
        Value::Indet
    }
}

/// A count; `?` out of 64 bits with a sign.
pub(crate) fn natural(count: usize) -> Value
    ensures { result ≡ spec.integer (pos count) }
{
    integer(count as i128)
}

pub(crate) fn plus(x: i64, y: i64) -> Value
    ensures { result ≡ spec.integer (x +ℤ y) }
{
    checked(x.checked_add(y))
}

pub(crate) fn minus(x: i64, y: i64) -> Value
    ensures { result ≡ spec.integer (x -ℤ y) }
{
    checked(x.checked_sub(y))
}

pub(crate) fn times(x: i64, y: i64) -> Value
    ensures { result ≡ spec.integer (x *ℤ y) }
{
    checked(x.checked_mul(y))
}

/// `DIV`
pub(crate) fn quotient(x: i64, y: i64) -> Value
    ensures { result ≡ spec.of_natural int_div x y }
{
    if 0 <= x && 0 < y {
        integer(i128::from(x / y))
    } else {
        Value::Indet
    }
}

/// `MOD`
pub(crate) fn rest(x: i64, y: i64) -> Value
    ensures { result ≡ spec.of_natural int_rem x y }
{
    if 0 <= x && 0 < y {
        integer(i128::from(x % y))
    } else {
        Value::Indet
    }
}

/// Whether a power of this exponent is out of 64 bits, or a number that a less exponent of the same parity gives too.
fn reduced(exponent: u64) -> u32
    ensures { (x : ℤ) → spec.integer (spec.power_of x result) ≡ spec.integer (spec.power_of x exponent) }
{
    if exponent < 64 {
        exponent as u32
    } else if exponent % 2 == 0 {
        64
    } else {
        65
    }
}

/// A number to a power; `?` out of 64 bits.
fn raised(number: i64, exponent: u64) -> Value
    ensures { result ≡ spec.integer (spec.power_of number exponent) }
{
    checked(number.checked_pow(reduced(exponent)))
}

/// `**`
#[tactic(auto, using(crate::proofs::Powers::power_by_size))]
pub(crate) fn power(x: i64, y: i64) -> Value
    ensures { result ≡ spec.power x y }
{
    if 0 <= y {
        raised(x, y.unsigned_abs())
    } else {
        Value::Indet
    }
}

/// The same number, if it is one of INTEGER.
pub(crate) fn plain(x: &Value) -> Value
    ensures { result ≡ spec.of_integer spec.integer (integer_of x.now) }
{
    match integer_of(x) {
        Some(number) => integer(i128::from(number)),
        None => Value::Indet,
    }
}

pub(crate) fn negated(x: &Value) -> Value
    ensures { result ≡ spec.of_integer (λ a. spec.integer (neg_ℤ a)) (integer_of x.now) }
{
    match integer_of(x) {
        Some(number) => checked(number.checked_neg()),
        None => Value::Indet,
    }
}
