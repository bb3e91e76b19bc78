//! Values that are kept: found once for all evaluations over a population, with the steps and the bodies that they take.

use rp_meaning::{Body, Derivation};
use rp_value::Value;

/// A value that is kept, with the steps that it took and how many bodies nested.
#[derive(Drop)]
pub struct Kept {
    pub value: Value,
    pub steps: usize,
    pub bodies: usize,
}

/// What is kept of a derived attribute of an instance.
#[derive(Drop)]
pub struct Row {
    pub of: Derived,
    pub kept: Kept,
}

/// What a place in the DERIVE clause of an entity gives for an instance.
#[derive(Clone, Copy, PartialEq, Eq)]
pub struct Derived {
    pub derivation: Derivation,
    pub instance: u64,
}

impl Derived {
    ghost use Rattle.std.specs.Prelude.{◌≡◌};
    ghost use Rattle.rp_eval_parts.specs.Serving.{derived_body};

    #[inline(always)]
    pub fn body(self) -> Body
        ensures { result ≡ derived_body self }
    {
        Body::Derived(self.derivation.entity, self.derivation.place, self.instance)
    }
}
