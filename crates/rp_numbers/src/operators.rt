//! The operators of LOGICAL.

use crate::Logical;
use std::cmp::Ordering;

impl Logical {
    ghost use Rattle.std.specs.Prelude.{◌≡◌};
    ghost use Rattle.std.specs.Ordering.{nat_cmp};
    ghost use Rattle.rp_numbers.specs.Logical as spec;

    /// The value of a test.
    pub fn of(test: bool) -> Logical
        ensures { result ≡ spec.of_test test }
    {
        if test { Logical::True } else { Logical::False }
    }

    pub fn is_true(self) -> bool
        ensures { result ≡ spec.is_true self }
    {
        match self {
            Logical::True => true,
            Logical::Unknown | Logical::False => false,
        }
    }

    fn rank(self) -> u8
        ensures { result ≡ spec.rank self }
    {
        match self {
            Logical::False => 0,
            Logical::Unknown => 1,
            Logical::True => 2,
        }
    }

    /// How it stands to the other: FALSE is less than UNKNOWN, and that is less than TRUE.
    pub fn cmp(self, other: Logical) -> Ordering
        ensures { result ≡ nat_cmp (spec.rank self) (spec.rank other) }
    {
        self.rank().cmp(&other.rank())
    }

    /// AND: the least of the two.
    pub fn and(self, other: Logical) -> Logical
        ensures { result ≡ spec.conjunction self other }
    {
        if self.rank() <= other.rank() {
            self
        } else {
            other
        }
    }

    /// OR: the greatest of the two.
    pub fn or(self, other: Logical) -> Logical
        ensures { result ≡ spec.disjunction self other }
    {
        if self.rank() <= other.rank() {
            other
        } else {
            self
        }
    }

    /// NOT, of which UNKNOWN is UNKNOWN.
    pub fn not(self) -> Logical
        ensures { result ≡ spec.negation self }
    {
        match self {
            Logical::False => Logical::True,
            Logical::Unknown => Logical::Unknown,
            Logical::True => Logical::False,
        }
    }

    /// XOR, which is UNKNOWN where a side is.
    pub fn xor(self, other: Logical) -> Logical
        ensures { result ≡ spec.exclusive_disjunction self other }
    {
        self.or(other).and(self.and(other).not())
    }
}
