//! Decimals by hand: the one that a real spells, and how two of them stand to each other.

use rp_numbers::{Decimal, DecimalFault};
use std::cmp::Ordering;
use std::test::*;

const NINES: &[u8] = b"999999999999999999999999999999999999.";

/// A real, and the coefficient and the exponent of its decimal.
static SPELLED: [(&[u8], i128, i16); 13] = [
    (b"0.10", 1, -1),
    (b"1.E-1", 1, -1),
    (b"10.", 1, 1),
    (b"+00120.300e+0007", 1203, 6),
    (b"-12.5", -125, -1),
    (b"0.E9999", 0, 0),
    (b"-0.E99999999999999999999", 0, 0),
    (b"0.001E1001", 1, 998),
    (b"1000.E-1003", 1, -1000),
    (b"1.E1000", 1, 1000),
    (b"1.E-1000", 1, -1000),
    (NINES, 999999999999999999999999999999999999, 0),
    (
        b"000999999999999999999999999999999999999000.000",
        999999999999999999999999999999999999,
        3,
    ),
];

/// A text that has no decimal, and why.
static REFUSED: [(&[u8], DecimalFault); 18] = [
    (b"", DecimalFault::NotReal),
    (b".5", DecimalFault::NotReal),
    (b"5", DecimalFault::NotReal),
    (b"+.5", DecimalFault::NotReal),
    (b"--5.", DecimalFault::NotReal),
    (b"5.E", DecimalFault::NotReal),
    (b"5.E+", DecimalFault::NotReal),
    (b"5.5.", DecimalFault::NotReal),
    (b"5. ", DecimalFault::NotReal),
    (b" 5.", DecimalFault::NotReal),
    (b"5.E1x", DecimalFault::NotReal),
    (b"5.F1", DecimalFault::NotReal),
    (
        b"9999999999999999999999999999999999999.",
        DecimalFault::TooManyDigits,
    ),
    (
        b"9.999999999999999999999999999999999999E9999",
        DecimalFault::TooManyDigits,
    ),
    (b"10.E1000", DecimalFault::TooWide),
    (b"0.1E-1000", DecimalFault::TooWide),
    (b"1.E99999999999999999999", DecimalFault::TooWide),
    (b"1.E-99999999999999999999", DecimalFault::TooWide),
];

/// How the first stands to the second.
static ORDERED: [(&[u8], Ordering, &[u8]); 11] = [
    (b"0.1", Ordering::Equal, b"1.E-1"),
    (
        b"100000000000000000000000000000000001.",
        Ordering::Greater,
        b"100000000000000000000000000000000000.",
    ),
    (
        b"123456789012345678.E0",
        Ordering::Less,
        b"123456789012345679.E0",
    ),
    (b"-1.E1000", Ordering::Less, b"1.E-1000"),
    (b"1.E-1000", Ordering::Greater, b"0."),
    (b"0.", Ordering::Less, b"1.E1000"),
    (b"-0.", Ordering::Equal, b"0.E5"),
    (b"-2.", Ordering::Less, b"-1.999"),
    (b"1.E1000", Ordering::Greater, NINES),
    (b"1.E36", Ordering::Greater, NINES),
    (b"1.E35", Ordering::Less, NINES),
];

/// Whether the real has this coefficient and exponent.
fn is_spelled(spelling: &[u8], coefficient: i128, exponent: i16) -> bool {
    match Decimal::parse(spelling) {
        Ok(decimal) => decimal.coefficient() == coefficient && decimal.exponent() == exponent,
        Err(_) => false,
    }
}

fn is_refused(text: &[u8], fault: DecimalFault) -> bool {
    match Decimal::parse(text) {
        Ok(_) => false,
        Err(why) => why == fault,
    }
}

/// Whether both are decimals, the first stands so to the second, and the second the other way to the first.
fn is_ordered(left: &[u8], order: Ordering, right: &[u8]) -> bool {
    match (Decimal::parse(left), Decimal::parse(right)) {
        (Ok(left), Ok(right)) => left.cmp(&right) == order && right.cmp(&left) == order.reverse(),
        _ => false,
    }
}

fn are_spelled() -> bool {
    SPELLED.iter().all(|(spelling, coefficient, exponent)| is_spelled(
        spelling,
        *coefficient,
        *exponent,
    ))
}

fn are_refused() -> bool {
    REFUSED.iter().all(|(text, fault)| is_refused(text, *fault))
}

fn are_ordered() -> bool {
    ORDERED
        .iter()
        .all(|(left, order, right)| is_ordered(left, *order, right))
}

#[test]
fn reals_spell_decimals_which_are_ordered(rt: HostRuntime) -> Result<(), Fail> {
    assert!(rt; are_spelled());
    assert!(rt; are_refused());
    assert!(rt; are_ordered());
    Ok(())
}
