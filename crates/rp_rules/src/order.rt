//! The rules of a schema in their order.

ghost use Rattle.std.specs.Prelude.{◌≡◌, slice_get};
ghost use Rattle.std.specs.Option.{option_copied};
ghost use Rattle.rp_rules.specs.Order as spec;

use crate::types::Walk;
use crate::used::Used;
use crate::validation::Validation;
use ex_named::AttributePlace;
use plain_data::Items;
use rp_meaning::{Check, Constraint, Domain, Rule, Schema};
use std::alloc::AllocError;

/// What rules are of.
#[derive(Clone, Copy, PartialEq, Eq)]
pub(crate) enum Sort {
    /// The WHERE clause of a defined type.
    Type,
    /// The WHERE clause of an entity.
    Where,
    Unique,
    Inverse,
    /// The WHERE clause of a global rule.
    Global,
}

/// How many rules of a sort there are of a number.
fn count_of(schema: &Schema, sort: Sort, number: usize) -> usize
    ensures { result ≡ spec.count_of schema.now sort number }
{
    match sort {
        Sort::Type => match schema.types.get(number) {
            Some(defined_type) => defined_type.domain_rules.len(),
            None => 0,
        },
        Sort::Where => match schema.entities.get(number) {
            Some(entity) => entity.domain_rules.len(),
            None => 0,
        },
        Sort::Unique => match schema.entities.get(number) {
            Some(entity) => entity.unique_rules.len(),
            None => 0,
        },
        Sort::Inverse => match schema.entities.get(number) {
            Some(entity) => entity.inverse.len(),
            None => 0,
        },
        Sort::Global => match schema.rules.get(number) {
            Some(rule) => rule.domain_rules.len(),
            None => 0,
        },
    }
}

/// What a rule of UNIQUE lists.
fn listed_by(schema: &Schema, entity: usize, place: usize) -> &[AttributePlace]
    ensures { result.now ≡ spec.listed_by schema.now entity place }
{
    let Some(entity) = schema.entities.get(entity) else {
        return &[];
    };
    match entity.unique_rules.get(place) {
        Some(attributes) => attributes.as_slice(),
        None => &[],
    }
}

impl<'a, D: Domain> Validation<'a, D> {
    ghost use Rattle.std.specs.Prelude.{◌≡◌, IfOk, OnOk};
    ghost use Rattle.rp_eval_parts.specs.Serving.{Remembers};
    ghost use Rattle.rp_meaning.specs.Report.{world};
    ghost use Rattle.rp_meaning.specs.Sequence.{in_sequence_after};
    ghost use Rattle.rp_rules.specs.Order as spec;
    ghost use Rattle.rp_rules.specs.Walks.{Leads};

    /// The check of a rule.
    fn check(
        &self,
        walk: &Walk,
        sort: Sort,
        number: usize,
        place: usize,
        used: &mut Used,
    ) -> Result<Check, AllocError>
        requires leads { Leads self.now.schema.now (D.population self.now.domain.now) number self.now.layouts.now.numbers walk.now }
        requires memory { Remembers (world self.now.schema.now (D.population self.now.domain.now)) used.old.memory }
        ensures check { IfOk result (λ check. check ≡ (spec.check_at self.now.schema.now (D.population self.now.domain.now) sort number place used.old.steps).0) }
        ensures used { OnOk result (used.new.steps ≡ (spec.check_at self.now.schema.now (D.population self.now.domain.now) sort number place used.old.steps).1) }
        ensures memory { OnOk result (Remembers (world self.now.schema.now (D.population self.now.domain.now)) used.new.memory) }
    {
        match sort {
            Sort::Type => self.of_type(walk, number, place, used),
            Sort::Where => {
                let constraint = Constraint::Where(number, place);
                self.of_instances(constraint, number, Rule::Entity(number, place), used)
            }
            Sort::Unique => {
                let attributes = listed_by(self.schema, number, place);
                self.of_unique(number, place, attributes, used)
            }
            Sort::Inverse => {
                let constraint = Constraint::Inverse(number, place);
                self.of_instances(constraint, number, Rule::Inverse(number, place), used)
            }
            Sort::Global => self.of_rule(number, place, used),
        }
    }

    /// The checks of the rules of a number, behind others.
    fn checks_at(
        &self,
        sort: Sort,
        number: usize,
        checks: &mut Items<Check>,
        used: &mut Used,
    ) -> Result<(), AllocError>
        requires memory { Remembers (world self.now.schema.now (D.population self.now.domain.now)) used.old.memory }
        ensures checks { OnOk result (checks.new ≡ (in_sequence_after checks.old (spec.checks_at self.now.schema.now (D.population self.now.domain.now) sort number) used.old.steps).0) }
        ensures used { OnOk result (used.new.steps ≡ (in_sequence_after checks.old (spec.checks_at self.now.schema.now (D.population self.now.domain.now) sort number) used.old.steps).1) }
        ensures memory { OnOk result (Remembers (world self.now.schema.now (D.population self.now.domain.now)) used.new.memory) }
    {
        let count = count_of(self.schema, sort, number);
        let walk = self.walk(number, sort == Sort::Type && count > 0)?;
        for place in 0..count {
            let check = self.check(&walk, sort, number, place, used)?;
            checks.push(check)?;
        }
        Ok(())
    }

    /// The checks of the rules of these numbers, behind others.
    pub(crate) fn checks_of(
        &self,
        sort: Sort,
        numbers: &[usize],
        checks: &mut Items<Check>,
        used: &mut Used,
    ) -> Result<(), AllocError>
        requires memory { Remembers (world self.now.schema.now (D.population self.now.domain.now)) used.old.memory }
        ensures checks { OnOk result (checks.new ≡ (in_sequence_after checks.old (spec.checks_of self.now.schema.now (D.population self.now.domain.now) sort numbers.now) used.old.steps).0) }
        ensures used { OnOk result (used.new.steps ≡ (in_sequence_after checks.old (spec.checks_of self.now.schema.now (D.population self.now.domain.now) sort numbers.now) used.old.steps).1) }
        ensures memory { OnOk result (Remembers (world self.now.schema.now (D.population self.now.domain.now)) used.new.memory) }
    {
        for number in numbers {
            self.checks_at(sort, *number, checks, used)?;
        }
        Ok(())
    }
}
