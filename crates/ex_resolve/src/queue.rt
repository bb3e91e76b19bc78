//! What is taken from its front, item by item.

ghost use Rattle.std.specs.Prelude.{◌≡◌, [], ◌∷◌, length, MatchOption, OnOk};

use plain_data::Items;
use std::alloc::{AllocError, Global};
use std::marker::Model;

/// Items that are put before the first, and taken from there.
#[derive(Drop)]
pub(crate) struct Queue<T> {
    last_first: Items<T>,
}

impl<T> Model for Queue<T> {
    ghost use Rattle.std.specs.Prelude.{List, reverse};

    ghost Value = { List T };

    ghost view = { λ q. reverse q.last_first };
}

impl<T> Queue<T> {
    pub(crate) fn new(alloc: Global) -> Queue<T>
        ensures { result ≡ [] }
    {
        Queue {
            last_first: Items::new(alloc),
        }
    }

    pub(crate) fn len(&self) -> usize
        ensures { result ≡ length self.now }
    {
        self.last_first.len()
    }

    /// Takes the first item.
    #[tactic(auto, using(crate::proofs::Ends::last_is_first))]
    pub(crate) fn take(&mut self) -> Option<T>
        ensures { MatchOption result ((self.old ≡ []) × (self.new ≡ [])) (λ first. self.old ≡ first ∷ self.new) }
    {
        let first = self.last_first.pop()?;
        Some(first)
    }
}

impl<T: Drop> Queue<T> {
    /// Puts an item before the first.
    #[tactic(auto, using(crate::proofs::Ends::last_is_first))]
    pub(crate) fn put_first(&mut self, item: T) -> Result<(), AllocError>
        ensures { OnOk result (self.new ≡ item ∷ self.old) }
    {
        self.last_first.push(item)
    }
}
