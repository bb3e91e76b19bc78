//! Sets of entities, by their numbers.

ghost use Rattle.std.specs.Prelude.{◌≡◌, ℕ, IfOk};
ghost use Rattle.std.specs.List.Sorted.{IsStrictlyIncreasing};
ghost use Rattle.plain_data.specs.Numbers.{is_among};
ghost use Rattle.ex_subtypes.specs.Edges.{is_that, stands_at};

use crate::sets::{ascending, set_of};
use std::alloc::{AllocError, Global};
use std::marker::Model;

/// The numbers of entities, strictly ascending.
#[derive(Drop)]
pub struct EntitySet {
    numbers: Vec<usize>,
}

impl Model for EntitySet {
    ghost use Rattle.std.specs.Prelude.{List, ℕ};
    ghost use Rattle.std.specs.List.Sorted.{IsStrictlyIncreasing};

    ghost Value = { List ℕ };

    ghost view = { λ set. set.numbers.items };

    ghost invariant = { λ set. IsStrictlyIncreasing set.numbers.items };
}

impl EntitySet {
    /// The entities of these numbers, in any order; a number may stand there twice.
    pub fn of(alloc: Global, numbers: &[usize]) -> Result<EntitySet, AllocError>
        ensures ascending { IfOk result (λ set. IsStrictlyIncreasing set) }
        ensures same { IfOk result (λ set. (n : ℕ) → is_among set n ≡ is_among numbers.now n) }
    {
        let set = set_of(alloc, numbers)?;
        let numbers = ascending(alloc, set)?;
        Ok(EntitySet { numbers })
    }

    /// Their numbers, in ascending order.
    pub fn as_slice(&self) -> &[usize]
        ensures same { result.now ≡ self.now }
        ensures ascending { IsStrictlyIncreasing self.now }
    {
        &self.numbers
    }

    /// Whether the entity of this number is one of them.
    pub fn has(&self, number: usize) -> bool
        ensures { result ≡ is_among self.now number }
    {
        self.numbers.binary_search(&number).is_ok()
    }

    /// The place of this number, counted from 0.
    pub(crate) fn place(&self, number: usize) -> Option<usize>
        ensures { (place : ℕ) → is_that result place ≡ stands_at self.now number place }
    {
        self.numbers.binary_search(&number).ok()
    }
}
