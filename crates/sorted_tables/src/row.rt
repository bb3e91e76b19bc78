//! What stands in lists, and what is looked for.

ghost use Rattle.std.specs.Prelude.{◌≡◌};
ghost use Rattle.std.specs.Cmp.{IsTotalOrder};
ghost use Rattle.std.specs.declared.cmp.Ordering.{Ordering as Order};

use std::cmp::Ordering;

/// What stands in a list under a key of its own.
pub trait Row {
    /// What its key is.
    type Key;

    ghost key: { Self → Self.Key };

    ghost cmp: { Self.Key → Self.Key → Order };

    /// The order of its key and another's.
    fn order(&self, other: &Self) -> Ordering
        ensures { result ≡ cmp (key self.now) (key other.now) };

    ghost total: { IsTotalOrder cmp };
}

/// A key that rows are looked for by.
pub trait Sought<T: Row> {
    ghost sought: { Self → T.Key };

    /// The order of a row's key and this one.
    fn order_of(&self, row: &T) -> Ordering
        ensures { result ≡ T.cmp (T.key row.now) (sought self.now) };
}

/// The key of another row.
#[derive(Drop)]
pub(crate) struct KeyOf<'a, T> {
    pub(crate) row: &'a T,
}

impl<'a, T: Row> Sought<T> for KeyOf<'a, T> {
    ghost sought = { λ k. T.key k.row.now };

    fn order_of(&self, row: &T) -> Ordering {
        row.order(self.row)
    }
}
