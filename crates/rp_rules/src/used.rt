//! What a validation uses.

use rp_eval::Memory;
use std::marker::Model;

/// The steps that an evaluation may take.
pub(crate) const MOST_STEPS: usize = 200_000;

/// With more steps than these behind it a validation begins no evaluation.
const LAST_START: usize = 19_800_000;

/// The steps that a validation used so far, at most 20,000,000, and the derived values that it remembers.
#[derive(Drop)]
pub(crate) struct Used {
    steps: usize,
    pub(crate) memory: Memory,
}

impl Model for Used {
    ghost use Rattle.std.specs.Prelude.{◌≤◌};
    ghost use Rattle.rp_rules.specs.Used as spec;

    ghost Value = { spec.Used };

    ghost view = { λ u. record { steps = u.steps; memory = u.memory } };

    ghost invariant = { λ u. u.steps ≤ 20000000 };

    ghost use Rattle.std.specs.Coded.{codes};
    ghost use Rattle.rp_value.specs.contracts.value.Value as value;

    ghost coded = { Prim.hlevel (codes, value.the_row.coded) };
}

impl Used {
    ghost use Rattle.std.specs.Prelude.{◌≡◌, ◌+◌, ◌≤◌, nat_le};

    /// One that used no steps yet.
    pub(crate) fn new(memory: Memory) -> Used
        ensures { result ≡ record { steps = 0; memory = memory } }
    {
        Used { steps: 0, memory }
    }

    pub(crate) fn steps(&self) -> usize
        ensures { result ≡ self.now.steps }
    {
        self.steps
    }

    /// Whether an evaluation may begin.
    pub(crate) fn may_begin(&self) -> bool
        ensures { result ≡ nat_le self.now.steps 19800000 }
    {
        self.steps <= LAST_START
    }

    pub(crate) fn add(&mut self, steps: usize)
        requires { self.old.steps + steps ≤ 20000000 }
        ensures steps { self.new.steps ≡ self.old.steps + steps }
        ensures memory { self.new.memory ≡ self.old.memory }
    {
        self.steps += steps;
    }
}
