//! Global rules.

use crate::ended::verdict_of;
use crate::used::Used;
use crate::validation::Validation;
use plain_data::Items;
use rp_meaning::{Check, Constraint, Domain, Rule};
use rp_value::Value;
use std::alloc::AllocError;

impl<'a, D: Domain> Validation<'a, D> {
    ghost use Rattle.std.specs.Prelude.{◌≡◌, IfOk, OnOk};
    ghost use Rattle.rp_eval_parts.specs.Serving.{Remembers};
    ghost use Rattle.rp_meaning.specs.Report.{rule_check, world};

    /// What is said of a condition of a global rule. It has no culprits.
    pub(crate) fn of_rule(
        &self,
        number: usize,
        place: usize,
        used: &mut Used,
    ) -> Result<Check, AllocError>
        requires memory { Remembers (world self.now.schema.now (D.population self.now.domain.now)) used.old.memory }
        ensures check { IfOk result (λ check. check ≡ (rule_check self.now.schema.now (D.population self.now.domain.now) number place used.old.steps).0) }
        ensures used { OnOk result (used.new.steps ≡ (rule_check self.now.schema.now (D.population self.now.domain.now) number place used.old.steps).1) }
        ensures memory { OnOk result (Remembers (world self.now.schema.now (D.population self.now.domain.now)) used.new.memory) }
    {
        let ended = self.one(Rule::Global(number, place), Value::Indet, used)?;
        Ok(Check {
            constraint: Constraint::Rule(number, place),
            verdict: verdict_of(&ended),
            violating: Items::new(self.alloc),
            limited: Items::new(self.alloc),
            not_run: Items::new(self.alloc),
            unknown: Items::new(self.alloc),
        })
    }
}
