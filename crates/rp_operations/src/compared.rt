//! How values stand to each other.

ghost use Rattle.std.specs.Prelude.{◌≡◌};
ghost use Rattle.rp_operations.specs.Bare.{seen_by};
ghost use Rattle.rp_operations.specs.Order.{of_ordering, compare_scalars};
ghost use Rattle.rp_numbers.specs.Decimals.{scaled, scaled_whole};
ghost use Rattle.std.specs.Ordering.{int_cmp};

use crate::bare::Bare;
use rp_value::{Decimal, Logical};
use std::cmp::Ordering;

/// How a value stands to another (ISO 10303-11:1994, 12.2).
#[derive(Clone, Copy, PartialEq, Eq)]
pub enum Compared {
    Less,
    Equal,
    Greater,
    /// Two aggregates that are not equal.
    Differs,
    /// A side is indeterminate or holds an instance, or the two are of different kinds.
    Unknown,
}

impl Compared {
    ghost use Rattle.std.specs.Prelude.{◌≡◌};
    ghost use Rattle.rp_operations.specs.Order.{of_ordering, equals};
    ghost use Rattle.rp_operations.specs.Operations.{of_equality, is_equal};

    fn of(ordering: Ordering) -> Compared
        ensures { result ≡ of_ordering ordering }
    {
        match ordering {
            Ordering::Less => Compared::Less,
            Ordering::Equal => Compared::Equal,
            Ordering::Greater => Compared::Greater,
        }
    }

    /// What is said of two aggregates of which this is said by `=`.
    pub(crate) fn of_equality(equal: Logical) -> Compared
        ensures { result ≡ of_equality equal }
    {
        match equal {
            Logical::True => Compared::Equal,
            Logical::False => Compared::Differs,
            Logical::Unknown => Compared::Unknown,
        }
    }

    /// What `=` gives.
    pub fn equals(self) -> Logical
        ensures { result ≡ equals self }
    {
        match self {
            Compared::Equal => Logical::True,
            Compared::Unknown => Logical::Unknown,
            Compared::Less | Compared::Greater | Compared::Differs => Logical::False,
        }
    }

    pub(crate) fn is_equal(self) -> bool
        ensures { result ≡ is_equal self }
    {
        match self {
            Compared::Equal => true,
            _ => false,
        }
    }
}

fn compare_integers(number: i64, other: i64) -> Compared
    ensures { result ≡ of_ordering (int_cmp (scaled_whole number) (scaled_whole other)) }
{
    Compared::of(number.cmp(&other))
}

#[tactic(auto, using(crate::proofs::Scales::decimals))]
fn compare_decimals(number: Decimal, other: Decimal) -> Compared
    ensures { result ≡ of_ordering (int_cmp (scaled number) (scaled other)) }
{
    Compared::of(number.cmp(&other))
}

/// How two values that are no aggregates stand to each other.
pub(crate) fn compare_scalars(s: Bare<'_>, t: Bare<'_>) -> Compared
    ensures { result ≡ compare_scalars (seen_by s.entry) (seen_by t.entry) }
{
    match (s, t) {
        (Bare::Integer(number), Bare::Integer(other)) => compare_integers(number, other),
        (Bare::Integer(number), Bare::Real(other)) => {
            compare_decimals(Decimal::of_integer(number), other.get())
        }
        (Bare::Real(number), Bare::Integer(other)) => {
            compare_decimals(number.get(), Decimal::of_integer(other))
        }
        (Bare::Real(number), Bare::Real(other)) => compare_decimals(number.get(), other.get()),
        (Bare::Text(text), Bare::Text(other)) => Compared::of(text.cmp(other)),
        (Bare::Bits(bits), Bare::Bits(other)) => Compared::of(bits.cmp(other)),
        (Bare::Truth(logical), Bare::Truth(other)) => Compared::of(logical.cmp(other)),
        (Bare::Item(enumeration, place), Bare::Item(other, at)) if enumeration == other => {
            Compared::of(place.cmp(&at))
        }
        _ => Compared::Unknown,
    }
}
