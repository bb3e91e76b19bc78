//! Rules that are tried on the instances of an entity.

ghost use Rattle.std.specs.Prelude.{◌≡◌};
ghost use Rattle.rp_meaning.specs.Report.{instance_culprit};
ghost use Rattle.rp_rules.specs.Places.{place_or_none};

use crate::culprits::Culprits;
use crate::used::Used;
use crate::validation::Validation;
use rp_meaning::{Check, Constraint, Culprit, Domain, Rule};
use rp_value::Value;
use std::alloc::{AllocError, Global};

/// Where an instance stands.
fn place_or_none(instance: &Value) -> usize
    ensures { result ≡ place_or_none instance.now }
{
    match instance {
        Value::Inst(place) => *place as usize,
        _ => 0,
    }
}

/// An instance as a culprit.
pub(crate) fn instance_culprit(instance: &Value) -> Culprit
    ensures { result ≡ instance_culprit (place_or_none instance.now) }
{
    Culprit {
        instance: place_or_none(instance),
        attribute: None,
    }
}

impl<'a, D: Domain> Validation<'a, D> {
    ghost use Rattle.std.specs.Prelude.{◌≡◌, [], ◌∷◌, map, IfOk, OnOk};
    ghost use Rattle.rp_eval_parts.specs.Serving.{Remembers};
    ghost use Rattle.rp_meaning.specs.Report.{candidates_of, checking, world};
    ghost use Rattle.rp_meaning.specs.Sequence.{check_by};
    ghost use Rattle.rp_rules.specs.Tallies.{candidate_by, no_culprits, tallied};

    /// The culprits of a rule among instances.
    fn tallied(
        &self,
        rule: Rule,
        instances: &[Value],
        used: &mut Used,
    ) -> Result<Culprits, AllocError>
        requires memory { Remembers (world self.now.schema.now (D.population self.now.domain.now)) used.old.memory }
        ensures culprits { IfOk result (λ found. found ≡ (tallied (world self.now.schema.now (D.population self.now.domain.now)) no_culprits (map (candidate_by rule) instances.now) used.old.steps).0) }
        ensures used { OnOk result (used.new.steps ≡ (tallied (world self.now.schema.now (D.population self.now.domain.now)) no_culprits (map (candidate_by rule) instances.now) used.old.steps).1) }
        ensures memory { OnOk result (Remembers (world self.now.schema.now (D.population self.now.domain.now)) used.new.memory) }
    {
        let mut found = Culprits::none(self.alloc);
        for instance in instances {
            let verdicts = self.verdicts(rule, instance, used)?;
            found.add(instance_culprit(instance), verdicts)?;
        }
        Ok(found)
    }

    /// The check of a rule that holds for each instance of an entity.
    pub(crate) fn of_instances(
        &self,
        constraint: Constraint,
        entity: usize,
        rule: Rule,
        used: &mut Used,
    ) -> Result<Check, AllocError>
        requires memory { Remembers (world self.now.schema.now (D.population self.now.domain.now)) used.old.memory }
        ensures check { IfOk result (λ check. check ≡ (checking self.now.schema.now (D.population self.now.domain.now) (check_by constraint) (candidates_of self.now.schema.now (D.population self.now.domain.now) entity (rule ∷ [])) used.old.steps).0) }
        ensures used { OnOk result (used.new.steps ≡ (checking self.now.schema.now (D.population self.now.domain.now) (check_by constraint) (candidates_of self.now.schema.now (D.population self.now.domain.now) entity (rule ∷ [])) used.old.steps).1) }
        ensures memory { OnOk result (Remembers (world self.now.schema.now (D.population self.now.domain.now)) used.new.memory) }
    {
        let instances = self.domain.extent(self.alloc, entity)?;
        let found = self.tallied(rule, instances.as_slice(), used)?;
        Ok(found.into_check(constraint))
    }
}
