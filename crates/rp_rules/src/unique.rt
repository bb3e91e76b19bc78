//! UNIQUE.

ghost use Rattle.std.specs.Prelude.{◌≡◌, [], ◌∷◌, ◌++◌, if◌then◌else◌, OnOk};
ghost use Rattle.rp_meaning.specs.Report.{is_whole};

use crate::buckets::agreeing;
use crate::conditions::instance_culprit;
use crate::culprits::{Culprits, push_if};
use crate::ended::Ended;
use crate::rows::{Row, is_whole};
use crate::used::Used;
use crate::validation::Validation;
use ex_named::AttributePlace;
use plain_data::Items;
use rp_meaning::{Check, Constraint, Culprit, Domain, Outcome, Rule};
use rp_value::Value;
use std::alloc::{AllocError, Global};

/// How the attributes of a rule end in an instance: the values that they have, and whether one ends without.
#[derive(Drop)]
struct Gathered {
    values: Items<Value>,
    limited: bool,
    not_run: bool,
}

impl Gathered {
    ghost use Rattle.std.specs.Prelude.{◌≡◌, [], OnOk};
    ghost use Rattle.rp_rules.specs.Endings.{ended_behind};
    ghost use Rattle.rp_rules.specs.Gatherings as spec;

    fn none(alloc: Global) -> Gathered
        ensures { result ≡ spec.gathered_of [] }
    {
        Gathered {
            values: Items::new(alloc),
            limited: false,
            not_run: false,
        }
    }

    /// With the end of one more.
    fn add(&mut self, ended: &Ended) -> Result<(), AllocError>
        ensures { OnOk result (self.new ≡ spec.with_end self.old (ended_behind ended.now)) }
    {
        match ended {
            Ended::Begun(Outcome::Value(value, _)) => self.values.push(value.copy()?),
            Ended::Begun(Outcome::Limit) => {
                self.limited = true;
                Ok(())
            }
            Ended::NotRun => {
                self.not_run = true;
                Ok(())
            }
        }
    }
}

/// The rows of instances, and the instances in which an attribute has no value.
#[derive(Drop)]
struct Table {
    rows: Items<Row>,
    limited: Items<Culprit>,
    not_run: Items<Culprit>,
}

fn push_row(
    rows: &mut Items<Row>,
    culprit: Culprit,
    values: Items<Value>,
    count: usize,
) -> Result<(), AllocError>
    ensures { OnOk result (rows.new ≡ rows.old ++ (if is_whole values count then (record { culprit = culprit; values = values }) ∷ [] else [])) }
{
    if is_whole(values.as_slice(), count) {
        rows.push(Row::of(culprit, values))
    } else {
        Ok(())
    }
}

impl Table {
    ghost use Rattle.std.specs.Prelude.{◌≡◌, [], OnOk};
    ghost use Rattle.rp_rules.specs.Gatherings as spec;

    fn none(alloc: Global) -> Table
        ensures { result ≡ spec.table_of [] }
    {
        Table {
            rows: Items::new(alloc),
            limited: Items::new(alloc),
            not_run: Items::new(alloc),
        }
    }

    /// With what so many attributes are in an instance.
    fn add(&mut self, count: usize, instance: &Value, gathered: Gathered) -> Result<(), AllocError>
        ensures { OnOk result (self.new ≡ spec.with_row count self.old instance.now gathered) }
    {
        let culprit = instance_culprit(instance);
        push_if(&mut self.limited, gathered.limited, culprit)?;
        push_if(&mut self.not_run, gathered.not_run, culprit)?;
        push_row(&mut self.rows, culprit, gathered.values, count)
    }
}

impl<'a, D: Domain> Validation<'a, D> {
    ghost use Rattle.std.specs.Prelude.{◌≡◌, [], IfOk, OnOk};
    ghost use Rattle.rp_eval_parts.specs.Serving.{Remembers};
    ghost use Rattle.rp_meaning.specs.Report.{unique_check, world};
    ghost use Rattle.rp_meaning.specs.Sequence.{each_after};
    ghost use Rattle.rp_rules.specs.Gatherings as spec;

    /// How so many attributes of a rule end in an instance.
    fn gathered(
        &self,
        entity: usize,
        place: usize,
        count: usize,
        instance: &Value,
        used: &mut Used,
    ) -> Result<Gathered, AllocError>
        requires memory { Remembers (world self.now.schema.now (D.population self.now.domain.now)) used.old.memory }
        ensures gathered { IfOk result (λ found. found ≡ spec.gathered_of (each_after (world self.now.schema.now (D.population self.now.domain.now)) [] (spec.trials_of (spec.unique_rules entity place count) instance.now) used.old.steps).0) }
        ensures used { OnOk result (used.new.steps ≡ (each_after (world self.now.schema.now (D.population self.now.domain.now)) [] (spec.trials_of (spec.unique_rules entity place count) instance.now) used.old.steps).1) }
        ensures memory { OnOk result (Remembers (world self.now.schema.now (D.population self.now.domain.now)) used.new.memory) }
    {
        let mut found = Gathered::none(self.alloc);
        for at in 0..count {
            let ended = self.one(Rule::Unique(entity, place, at), instance.copy()?, used)?;
            found.add(&ended)?;
        }
        Ok(found)
    }

    /// What so many attributes of a rule are in instances.
    #[tactic(auto, using(crate::proofs::Gatherings::counted))]
    fn table(
        &self,
        entity: usize,
        place: usize,
        count: usize,
        instances: &[Value],
        used: &mut Used,
    ) -> Result<Table, AllocError>
        requires memory { Remembers (world self.now.schema.now (D.population self.now.domain.now)) used.old.memory }
        ensures table { IfOk result (λ found. found ≡ (spec.table_after (world self.now.schema.now (D.population self.now.domain.now)) (spec.unique_rules entity place count) (spec.table_of []) instances.now used.old.steps).0) }
        ensures used { OnOk result (used.new.steps ≡ (spec.table_after (world self.now.schema.now (D.population self.now.domain.now)) (spec.unique_rules entity place count) (spec.table_of []) instances.now used.old.steps).1) }
        ensures memory { OnOk result (Remembers (world self.now.schema.now (D.population self.now.domain.now)) used.new.memory) }
    {
        let mut found = Table::none(self.alloc);
        for instance in instances {
            let gathered = self.gathered(entity, place, count, instance, used)?;
            found.add(count, instance, gathered)?;
        }
        Ok(found)
    }

    /// The check of a rule of UNIQUE, which lists these attributes.
    pub(crate) fn of_unique(
        &self,
        entity: usize,
        place: usize,
        attributes: &[AttributePlace],
        used: &mut Used,
    ) -> Result<Check, AllocError>
        requires memory { Remembers (world self.now.schema.now (D.population self.now.domain.now)) used.old.memory }
        ensures check { IfOk result (λ check. check ≡ (unique_check self.now.schema.now (D.population self.now.domain.now) entity place attributes.now used.old.steps).0) }
        ensures used { OnOk result (used.new.steps ≡ (unique_check self.now.schema.now (D.population self.now.domain.now) entity place attributes.now used.old.steps).1) }
        ensures memory { OnOk result (Remembers (world self.now.schema.now (D.population self.now.domain.now)) used.new.memory) }
    {
        let instances = self.domain.extent(self.alloc, entity)?;
        let Table {
            rows,
            limited,
            not_run,
        } = self.table(entity, place, attributes.len(), instances.as_slice(), used)?;
        let culprits = Culprits {
            violating: agreeing(self.alloc, rows.as_slice(), attributes.len())?,
            limited,
            not_run,
            unknown: Items::new(self.alloc),
        };
        Ok(culprits.into_check(Constraint::Unique(entity, place)))
    }
}
