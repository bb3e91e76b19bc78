//! The order of decimals, from their coefficients and exponents.

ghost use Rattle.std.specs.Prelude.{◌≡◌, ◌*◌, ◌^◌, ◌*ℤ◌, pos, int_lt, unsigned_abs};
ghost use Rattle.std.specs.Ordering.{nat_cmp, int_cmp};
ghost use Rattle.rp_numbers.specs.Decimals.{places, scaled, scaled_whole};

use rp_value::HeldDecimal;
use std::cmp::Ordering;

/// How many places a whole number is raised by, as a decimal times 10^1000 is.
const PLACES: u32 = 1000;

/// How `m` stands to `n * 10^places`.
fn compare_raised(m: u128, n: u128, places: u32) -> Ordering
    ensures { result ≡ nat_cmp m (n * 10 ^ places) }
{
    let mut raised = n;
    for _place in 0..places {
        let Some(next) = raised.checked_mul(10) else {
            return Ordering::Less;
        };
        raised = next;
    }
    m.cmp(&raised)
}

/// How `m * 10^m_places` stands to `n * 10^n_places`.
fn compare_magnitudes(m: u128, m_places: u32, n: u128, n_places: u32) -> Ordering
    ensures { result ≡ nat_cmp (m * 10 ^ m_places) (n * 10 ^ n_places) }
{
    if m_places <= n_places {
        compare_raised(m, n, n_places - m_places)
    } else {
        compare_raised(n, m, m_places - n_places).reverse()
    }
}

fn is_negative(number: i128) -> bool
    ensures { result ≡ int_lt number (pos 0) }
{
    number < 0
}

fn magnitude(number: i128) -> u128
    ensures { result ≡ unsigned_abs number }
{
    number.unsigned_abs()
}

/// The same of two with signs.
#[tactic(auto, using(crate::proofs::Scales::orders))]
fn compare_signed(m: i128, m_places: u32, n: i128, n_places: u32) -> Ordering
    ensures { result ≡ int_cmp (m *ℤ pos (10 ^ m_places)) (n *ℤ pos (10 ^ n_places)) }
{
    match (is_negative(m), is_negative(n)) {
        (true, false) => Ordering::Less,
        (false, true) => Ordering::Greater,
        (false, false) => compare_magnitudes(magnitude(m), m_places, magnitude(n), n_places),
        (true, true) => compare_magnitudes(magnitude(n), n_places, magnitude(m), m_places),
    }
}

/// How many zeros a decimal times 10^1000 has behind its coefficient.
fn places(decimal: &HeldDecimal) -> u32
    ensures { result ≡ places decimal.now }
{
    (i32::from(decimal.exponent()) + 1000).unsigned_abs()
}

/// How two decimals stand to each other: of as many places as their coefficients do.
pub(crate) fn compare_decimals(x: &HeldDecimal, y: &HeldDecimal) -> Ordering
    ensures { result ≡ int_cmp (scaled x.now) (scaled y.now) }
{
    if x.exponent() == y.exponent() {
        return x.coefficient().cmp(&y.coefficient());
    }
    compare_signed(x.coefficient(), places(x), y.coefficient(), places(y))
}

/// How a whole number stands to a decimal.
pub(crate) fn compare_whole(x: i64, y: &HeldDecimal) -> Ordering
    ensures { result ≡ int_cmp (scaled_whole x) (scaled y.now) }
{
    compare_signed(i128::from(x), PLACES, y.coefficient(), places(y))
}

/// How a decimal stands to a whole number.
pub(crate) fn compare_with_whole(x: &HeldDecimal, y: i64) -> Ordering
    ensures { result ≡ int_cmp (scaled x.now) (scaled_whole y) }
{
    compare_signed(x.coefficient(), places(x), i128::from(y), PLACES)
}
