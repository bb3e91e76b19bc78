//! Evaluations one after the other, within the steps that a validation may use.

ghost use Rattle.std.specs.Prelude.{◌≡◌};
ghost use Rattle.rp_meaning.specs.Report as report;
ghost use Rattle.rp_rules.specs.Layouts.{Lays};

use crate::ended::{Ended, steps_of, verdict_of};
use crate::layouts::Layouts;
use crate::used::{MOST_STEPS, Used};
use crate::verdicts::Verdicts;
use rp_eval::{World, eval_with};
use rp_meaning::{Domain, Rule, Schema};
use rp_value::Value;
use std::alloc::{AllocError, Global};

/// What is validated, and by what.
#[derive(Drop)]
pub(crate) struct Validation<'a, D: Domain> {
    pub(crate) alloc: Global,
    pub(crate) schema: &'a Schema,
    pub(crate) domain: &'a D,
    /// What evaluations see of these.
    pub(crate) world: &'a World<'a, D>,
    /// None, where there are so few instances that a plan for each type with rules takes more than it saves.
    pub(crate) layouts: &'a Layouts,
    ghost seen: { world.now ≡ report.world schema.now (D.population domain.now) },
    ghost lays: { Lays (D.population domain.now) layouts.now },
}

impl<'a, D: Domain> Validation<'a, D> {
    ghost use Rattle.std.specs.Prelude.{◌≡◌, [], ◌∷◌, IfOk, OnOk};
    ghost use Rattle.rp_eval_parts.specs.Serving.{Remembers};
    ghost use Rattle.rp_meaning.specs.Report.{world};
    ghost use Rattle.rp_meaning.specs.Sequence.{each_after, one};
    ghost use Rattle.rp_rules.specs.Endings.{ended_behind, verdicts_of};

    /// How a rule ends for SELF. It is begun only while not too many steps are used.
    #[tactic(auto, using(crate::proofs::Within::begun))]
    pub(crate) fn one(
        &self,
        rule: Rule,
        itself: Value,
        used: &mut Used,
    ) -> Result<Ended, AllocError>
        requires memory { Remembers (world self.now.schema.now (D.population self.now.domain.now)) used.old.memory }
        ensures ended { IfOk result (λ ended. ended_behind ended ≡ (one (world self.now.schema.now (D.population self.now.domain.now)) (rule, itself) used.old.steps).0) }
        ensures used { OnOk result (used.new.steps ≡ (one (world self.now.schema.now (D.population self.now.domain.now)) (rule, itself) used.old.steps).1) }
        ensures memory { OnOk result (Remembers (world self.now.schema.now (D.population self.now.domain.now)) used.new.memory) }
    {
        if !used.may_begin() {
            return Ok(Ended::NotRun);
        }
        let memory = &mut used.memory;
        let outcome = eval_with(self.alloc, self.world, memory, rule, itself, MOST_STEPS)?;
        used.add(steps_of(&outcome));
        Ok(Ended::Begun(outcome))
    }

    /// The verdict of a rule for SELF.
    #[tactic(auto, using(crate::proofs::Tallied::verdicts_are))]
    pub(crate) fn verdicts(
        &self,
        rule: Rule,
        itself: &Value,
        used: &mut Used,
    ) -> Result<Verdicts, AllocError>
        requires memory { Remembers (world self.now.schema.now (D.population self.now.domain.now)) used.old.memory }
        ensures verdicts { IfOk result (λ verdicts. verdicts ≡ verdicts_of (each_after (world self.now.schema.now (D.population self.now.domain.now)) [] ((rule, itself.now) ∷ []) used.old.steps).0) }
        ensures used { OnOk result (used.new.steps ≡ (each_after (world self.now.schema.now (D.population self.now.domain.now)) [] ((rule, itself.now) ∷ []) used.old.steps).1) }
        ensures memory { OnOk result (Remembers (world self.now.schema.now (D.population self.now.domain.now)) used.new.memory) }
    {
        let ended = self.one(rule, itself.copy()?, used)?;
        Ok(Verdicts::none().with(verdict_of(&ended)))
    }
}
