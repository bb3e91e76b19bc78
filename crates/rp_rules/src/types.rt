//! WHERE clauses of defined types.

use crate::choices::Choosing;
use crate::culprits::Culprits;
use crate::ended::verdict_of;
use crate::layouts::attributes_at;
use crate::plan::{Plan, Planning};
use crate::tried::Trying;
use crate::used::Used;
use crate::validation::Validation;
use crate::verdicts::Verdicts;
use ex_named::AttributePlace;
use plain_data::Items;
use rp_faults::{declared_types, is_checked, read_at};
use rp_meaning::{Check, Constraint, Culprit, Domain, ReadValue, Rule, Seen};
use rp_operators::{aggregate_of, is_indeterminate};
use rp_value::Value;
use std::alloc::AllocError;

/// Where the rules of a defined type may be tried.
#[derive(Drop)]
pub(crate) struct Walk {
    plan: Plan,
    /// By the numbers of layouts whether on anything in what has it.
    layouts: Items<bool>,
}

impl<'a, D: Domain> Validation<'a, D> {
    ghost use Rattle.std.specs.Prelude.{◌≡◌, [], ◌∷◌, map, false, None, IsTrue, IfOk, OnOk};
    ghost use Rattle.rp_eval_parts.specs.Serving.{Remembers};
    ghost use Rattle.rp_faults.specs.Declarations.{declared_types, last_read};
    ghost use Rattle.rp_meaning.specs.Bare.{aggregate_of};
    ghost use Rattle.rp_meaning.specs.Report.{type_candidates, type_check, world};
    ghost use Rattle.rp_meaning.specs.Sequence.{each_after};
    ghost use Rattle.rp_meaning.specs.TypeRules.{values_tried};
    ghost use Rattle.rp_rules.specs.Endings.{verdicts_of};
    ghost use Rattle.rp_rules.specs.Layouts as layouts;
    ghost use Rattle.rp_rules.specs.Plan.{Tells, may_have_any};
    ghost use Rattle.rp_rules.specs.Tallies.{no_culprits, tallied};
    ghost use Rattle.rp_rules.specs.TypeTallies as spec;
    ghost use Rattle.rp_rules.specs.Walks.{Leads};

    /// Which verdicts a rule has for values.
    fn verdicts_of_values(
        &self,
        rule: Rule,
        values: &[Value],
        used: &mut Used,
    ) -> Result<Verdicts, AllocError>
        requires memory { Remembers (world self.now.schema.now (D.population self.now.domain.now)) used.old.memory }
        ensures verdicts { IfOk result (λ verdicts. verdicts ≡ verdicts_of (each_after (world self.now.schema.now (D.population self.now.domain.now)) [] (map (λ x. (rule, x)) values.now) used.old.steps).0) }
        ensures used { OnOk result (used.new.steps ≡ (each_after (world self.now.schema.now (D.population self.now.domain.now)) [] (map (λ x. (rule, x)) values.now) used.old.steps).1) }
        ensures memory { OnOk result (Remembers (world self.now.schema.now (D.population self.now.domain.now)) used.new.memory) }
    {
        let mut verdicts = Verdicts::none();
        for value in values {
            let ended = self.one(rule, value.copy()?, used)?;
            verdicts = verdicts.with(verdict_of(&ended));
        }
        Ok(verdicts)
    }

    /// The values in an attribute on which the rules of a type are tried.
    fn values_tried(
        &self,
        number: usize,
        entities: &[usize],
        attribute: AttributePlace,
        written: &Value,
        read: &Value,
    ) -> Result<Items<Value>, AllocError>
        ensures { IfOk result (λ found. found ≡ values_tried self.now.schema.now.types (D.population self.now.domain.now) number (declared_types self.now.schema.now entities.now attribute) written.now read.now) }
    {
        let declared = declared_types(self.alloc, self.schema, entities, attribute)?;
        let trying = Trying {
            alloc: self.alloc,
            choosing: Choosing {
                types: self.schema.types.as_slice(),
                domain: self.domain,
            },
            number,
        };
        let mut found = Items::new(self.alloc);
        trying.push(written, read, declared.as_slice(), &mut found)?;
        Ok(found)
    }

    /// Which verdicts a rule has for a value of an attribute that is no aggregate, if it is tried on that.
    #[tactic(auto, using(crate::proofs::TypeTallies::scalars))]
    fn verdicts_of_scalar(
        &self,
        number: usize,
        place: usize,
        entities: &[usize],
        attribute: AttributePlace,
        written: &Value,
        read: &Value,
        used: &mut Used,
    ) -> Result<Verdicts, AllocError>
        requires scalar { aggregate_of read.now ≡ None }
        requires memory { Remembers (world self.now.schema.now (D.population self.now.domain.now)) used.old.memory }
        ensures verdicts { IfOk result (λ verdicts. verdicts ≡ verdicts_of (each_after (world self.now.schema.now (D.population self.now.domain.now)) [] (spec.trials_in self.now.schema.now (D.population self.now.domain.now) number place entities.now attribute written.now read.now) used.old.steps).0) }
        ensures used { OnOk result (used.new.steps ≡ (each_after (world self.now.schema.now (D.population self.now.domain.now)) [] (spec.trials_in self.now.schema.now (D.population self.now.domain.now) number place entities.now attribute written.now read.now) used.old.steps).1) }
        ensures memory { OnOk result (Remembers (world self.now.schema.now (D.population self.now.domain.now)) used.new.memory) }
    {
        let choosing = Choosing {
            types: self.schema.types.as_slice(),
            domain: self.domain,
        };
        if is_indeterminate(read) {
            return Ok(Verdicts::none());
        }
        let schema = self.schema;
        if choosing.is_tried_in_attribute(written, read, schema, entities, attribute, number) {
            self.verdicts(Rule::Type(number, place), read, used)
        } else {
            Ok(Verdicts::none())
        }
    }

    /// Which verdicts it has for all values in an attribute on which it is tried.
    fn verdicts_in(
        &self,
        number: usize,
        place: usize,
        entities: &[usize],
        attribute: AttributePlace,
        written: &Value,
        read: &Value,
        used: &mut Used,
    ) -> Result<Verdicts, AllocError>
        requires memory { Remembers (world self.now.schema.now (D.population self.now.domain.now)) used.old.memory }
        ensures verdicts { IfOk result (λ verdicts. verdicts ≡ verdicts_of (each_after (world self.now.schema.now (D.population self.now.domain.now)) [] (spec.trials_in self.now.schema.now (D.population self.now.domain.now) number place entities.now attribute written.now read.now) used.old.steps).0) }
        ensures used { OnOk result (used.new.steps ≡ (each_after (world self.now.schema.now (D.population self.now.domain.now)) [] (spec.trials_in self.now.schema.now (D.population self.now.domain.now) number place entities.now attribute written.now read.now) used.old.steps).1) }
        ensures memory { OnOk result (Remembers (world self.now.schema.now (D.population self.now.domain.now)) used.new.memory) }
    {
        match aggregate_of(read) {
            None => {
                self.verdicts_of_scalar(number, place, entities, attribute, written, read, used)
            }
            Some(_) => {
                let values = self.values_tried(number, entities, attribute, written, read)?;
                self.verdicts_of_values(Rule::Type(number, place), values.as_slice(), used)
            }
        }
    }

    /// Adds an attribute of the instance at a place to the culprits of a rule, if a value in it is one. Mostly nothing in it is tried.
    #[inline(always)]
    #[tactic(auto, using(crate::proofs::Skipped::untried))]
    fn tally_attribute(
        &self,
        plan: &Plan,
        number: usize,
        place: usize,
        at: usize,
        instance: &Seen<'_>,
        slot: usize,
        attribute: AttributePlace,
        written: &Value,
        differing: &[ReadValue],
        found: &mut Culprits,
        used: &mut Used,
    ) -> Result<(), AllocError>
        requires tells { Tells self.now.schema.now number plan.now }
        requires memory { Remembers (world self.now.schema.now (D.population self.now.domain.now)) used.old.memory }
        ensures found { OnOk result (found.new ≡ (tallied (world self.now.schema.now (D.population self.now.domain.now)) found.old (spec.candidates_by self.now.schema.now (D.population self.now.domain.now) number place at instance.now attribute written.now (last_read written.now differing.now slot)) used.old.steps).0) }
        ensures used { OnOk result (used.new.steps ≡ (tallied (world self.now.schema.now (D.population self.now.domain.now)) found.old (spec.candidates_by self.now.schema.now (D.population self.now.domain.now) number place at instance.now attribute written.now (last_read written.now differing.now slot)) used.old.steps).1) }
        ensures memory { OnOk result (Remembers (world self.now.schema.now (D.population self.now.domain.now)) used.new.memory) }
    {
        if !plan.may_have(attribute, written) {
            return Ok(());
        }
        if !is_checked(self.schema, attribute, instance) {
            return Ok(());
        }
        let read = read_at(written, differing, slot);
        let entities = instance.entities;
        let verdicts = self.verdicts_in(number, place, entities, attribute, written, read, used)?;
        let culprit = Culprit {
            instance: at,
            attribute: Some(attribute),
        };
        found.add(culprit, verdicts)
    }

    /// Adds those of the instance at a place.
    fn tally_attributes(
        &self,
        plan: &Plan,
        number: usize,
        place: usize,
        at: usize,
        instance: &Seen<'_>,
        found: &mut Culprits,
        used: &mut Used,
    ) -> Result<(), AllocError>
        requires tells { Tells self.now.schema.now number plan.now }
        requires memory { Remembers (world self.now.schema.now (D.population self.now.domain.now)) used.old.memory }
        ensures found { OnOk result (found.new ≡ (tallied (world self.now.schema.now (D.population self.now.domain.now)) found.old (spec.candidates_in self.now.schema.now (D.population self.now.domain.now) number place at instance.now instance.now.values) used.old.steps).0) }
        ensures used { OnOk result (used.new.steps ≡ (tallied (world self.now.schema.now (D.population self.now.domain.now)) found.old (spec.candidates_in self.now.schema.now (D.population self.now.domain.now) number place at instance.now instance.now.values) used.old.steps).1) }
        ensures memory { OnOk result (Remembers (world self.now.schema.now (D.population self.now.domain.now)) used.new.memory) }
    {
        let differing = instance.differing;
        let written = instance.written;
        let attributes = instance.attributes;
        for (slot, attribute) in attributes.iter().enumerate() {
            let Some(value) = written.get(slot) else {
                return Ok(());
            };
            self.tally_attribute(
                plan, number, place, at, instance, slot, *attribute, value, differing, found, used,
            )?;
        }
        Ok(())
    }

    /// By layouts, whether anything may be tried in the instances of each.
    fn by_layouts(&self, plan: &Plan) -> Result<Items<bool>, AllocError>
        ensures { IfOk result (λ found. found ≡ map (λ at. may_have_any plan.now (layouts.attributes_at (D.population self.now.domain.now) at)) self.now.layouts.now.examples) }
    {
        let mut found = Items::new(self.alloc);
        for place in self.layouts.examples.as_slice() {
            found.push(plan.may_have_any(attributes_at(self.domain, *place)))?;
        }
        Ok(found)
    }

    /// Where the rules of a type may be tried: everywhere, if nobody wants to know or there are no layouts.
    pub(crate) fn walk(&self, number: usize, is_wanted: bool) -> Result<Walk, AllocError>
        ensures { IfOk result (λ walk. Leads self.now.schema.now (D.population self.now.domain.now) number self.now.layouts.now.numbers walk) }
    {
        if !is_wanted || self.layouts.examples.is_empty() {
            return Ok(Walk {
                plan: Plan::without(self.alloc),
                layouts: Items::new(self.alloc),
            });
        }
        let planning = Planning {
            alloc: self.alloc,
            schema: self.schema,
            number,
        };
        let plan = planning.plan()?;
        let layouts = self.by_layouts(&plan)?;
        Ok(Walk { plan, layouts })
    }

    /// Whether they are tried on nothing in the instance at a place, by its layout.
    #[inline(always)]
    fn skips(&self, walk: &Walk, number: usize, at: usize) -> bool
        requires { Leads self.now.schema.now (D.population self.now.domain.now) number self.now.layouts.now.numbers walk.now }
        ensures { IsTrue result → may_have_any walk.now.plan (layouts.attributes_at (D.population self.now.domain.now) at) ≡ false }
    {
        let Some(layout) = self.layouts.numbers.get(at) else {
            return false;
        };
        match walk.layouts.get(*layout) {
            Some(may_have_any) => !*may_have_any,
            None => false,
        }
    }

    /// Adds those of the instance at a place, which isn't looked at if nothing in it may be tried.
    #[inline(always)]
    #[tactic(auto, using(crate::proofs::Skipped::skipped))]
    fn tally_instance(
        &self,
        walk: &Walk,
        number: usize,
        place: usize,
        at: usize,
        found: &mut Culprits,
        used: &mut Used,
    ) -> Result<(), AllocError>
        requires leads { Leads self.now.schema.now (D.population self.now.domain.now) number self.now.layouts.now.numbers walk.now }
        requires memory { Remembers (world self.now.schema.now (D.population self.now.domain.now)) used.old.memory }
        ensures found { OnOk result (found.new ≡ (tallied (world self.now.schema.now (D.population self.now.domain.now)) found.old (spec.candidates_at self.now.schema.now (D.population self.now.domain.now) number place at) used.old.steps).0) }
        ensures used { OnOk result (used.new.steps ≡ (tallied (world self.now.schema.now (D.population self.now.domain.now)) found.old (spec.candidates_at self.now.schema.now (D.population self.now.domain.now) number place at) used.old.steps).1) }
        ensures memory { OnOk result (Remembers (world self.now.schema.now (D.population self.now.domain.now)) used.new.memory) }
    {
        if self.skips(walk, number, at) {
            return Ok(());
        }
        let Some(instance) = self.domain.instance(at) else {
            return Ok(());
        };
        self.tally_attributes(&walk.plan, number, place, at, &instance, found, used)
    }

    /// The culprits of a rule of a defined type.
    fn tallied_types(
        &self,
        walk: &Walk,
        number: usize,
        place: usize,
        used: &mut Used,
    ) -> Result<Culprits, AllocError>
        requires leads { Leads self.now.schema.now (D.population self.now.domain.now) number self.now.layouts.now.numbers walk.now }
        requires memory { Remembers (world self.now.schema.now (D.population self.now.domain.now)) used.old.memory }
        ensures culprits { IfOk result (λ found. found ≡ (tallied (world self.now.schema.now (D.population self.now.domain.now)) no_culprits (type_candidates self.now.schema.now (D.population self.now.domain.now) number place) used.old.steps).0) }
        ensures used { OnOk result (used.new.steps ≡ (tallied (world self.now.schema.now (D.population self.now.domain.now)) no_culprits (type_candidates self.now.schema.now (D.population self.now.domain.now) number place) used.old.steps).1) }
        ensures memory { OnOk result (Remembers (world self.now.schema.now (D.population self.now.domain.now)) used.new.memory) }
    {
        let mut found = Culprits::none(self.alloc);
        for at in 0..self.domain.count() {
            self.tally_instance(walk, number, place, at, &mut found, used)?;
        }
        Ok(found)
    }

    /// The check of a rule of a defined type.
    pub(crate) fn of_type(
        &self,
        walk: &Walk,
        number: usize,
        place: usize,
        used: &mut Used,
    ) -> Result<Check, AllocError>
        requires leads { Leads self.now.schema.now (D.population self.now.domain.now) number self.now.layouts.now.numbers walk.now }
        requires memory { Remembers (world self.now.schema.now (D.population self.now.domain.now)) used.old.memory }
        ensures check { IfOk result (λ check. check ≡ (type_check self.now.schema.now (D.population self.now.domain.now) number place used.old.steps).0) }
        ensures used { OnOk result (used.new.steps ≡ (type_check self.now.schema.now (D.population self.now.domain.now) number place used.old.steps).1) }
        ensures memory { OnOk result (Remembers (world self.now.schema.now (D.population self.now.domain.now)) used.new.memory) }
    {
        let found = self.tallied_types(walk, number, place, used)?;
        Ok(found.into_check(Constraint::Type(number, place)))
    }
}
