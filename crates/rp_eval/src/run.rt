//! What an evaluation has at hand.

use rp_eval_parts::{Derived, Remembered, Row, Table};
use rp_meaning::Counter;
use rp_value::Value;

/// The steps that are left to an evaluation, and what it remembers.
#[derive(Drop)]
pub(crate) struct Run<'m> {
    pub(crate) counter: Counter,
    pub(crate) memory: Remembered<'m>,
}

impl<'m> Run<'m> {
    ghost use Rattle.std.specs.Prelude.{◌≡◌, IfSome};
    ghost use Rattle.rp_meaning.specs.Expressions.{World};
    ghost use Rattle.rp_eval_parts.specs.Serving.{Ready, Remembers, Serves, derived_body};

    /// Remembers a value with its steps and its bodies, where it is that of a derived attribute.
    pub(crate) fn keep(&mut self, of: Option<Derived>, value: &Value, steps: usize, bodies: usize)
        ensures counter { self.new.counter ≡ self.old.counter }
        ensures ready { (w : World) → Ready w self.old.memory → IfSome of (λ d. Serves w (derived_body d) (record { value = value.now; steps = steps; bodies = bodies })) → Ready w self.new.memory }
    {
        if let Some(of) = of {
            self.memory.keep(of, value, steps, bodies);
        }
    }

    /// The counter, the rows that the evaluation found, and the table.
    pub(crate) fn into_parts(self) -> (Counter, Vec<Row>, Table)
        ensures counter { result.0 ≡ self.entry.counter }
        ensures found { (w : World) → Ready w self.entry.memory → Remembers w result.1.items }
    {
        let Run { counter, memory } = self;
        let (found, table) = memory.into_parts();
        (counter, found, table)
    }
}
