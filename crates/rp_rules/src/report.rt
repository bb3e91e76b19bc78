//! The report.

ghost use Rattle.std.specs.Prelude.{◌≡◌, IfOk};
ghost use Rattle.rp_meaning.specs.Report as spec;

use crate::culprits::Culprits;
use crate::layouts::layouts_of;
use crate::order::Sort;
use crate::plan::count_of_planned;
use crate::used::Used;
use crate::validation::Validation;
use plain_data::Items;
use rp_eval::{Memory, World};
use rp_faults::{Fault, culprits};
use rp_meaning::{Check, Constraint, Domain, Report, Schema};
use std::alloc::{AllocError, Global};

impl<'a, D: Domain> Validation<'a, D> {
    ghost use Rattle.std.specs.Prelude.{◌≡◌, [], IfOk, OnOk};
    ghost use Rattle.rp_eval_parts.specs.Serving.{Remembers};
    ghost use Rattle.rp_faults.specs.Held as held;
    ghost use Rattle.rp_meaning.specs.Report.{all_evaluated, attribute_checks, world};
    ghost use Rattle.rp_meaning.specs.Sequence.{check_of, in_sequence_after};

    /// The check of the values of attributes.
    fn of_attributes(&self, constraint: Constraint, fault: Fault) -> Result<Check, AllocError>
        ensures { IfOk result (λ check. check ≡ check_of constraint (held.culprits self.now.schema.now (D.population self.now.domain.now) fault) [] [] []) }
    {
        let culprits = Culprits {
            violating: culprits(self.alloc, fault, self.schema, self.domain)?,
            limited: Items::new(self.alloc),
            not_run: Items::new(self.alloc),
            unknown: Items::new(self.alloc),
        };
        Ok(culprits.into_check(constraint))
    }

    /// The checks that evaluate nothing.
    fn attribute_checks(&self) -> Result<Items<Check>, AllocError>
        ensures { IfOk result (λ checks. checks ≡ attribute_checks self.now.schema.now (D.population self.now.domain.now)) }
    {
        let mut checks = Items::new(self.alloc);
        checks.push(self.of_attributes(Constraint::Unset, Fault::Unset)?)?;
        checks.push(self.of_attributes(Constraint::Bounds, Fault::Bounds)?)?;
        checks.push(self.of_attributes(Constraint::Reference, Fault::Reference)?)?;
        Ok(checks)
    }

    /// The checks by evaluations, behind others.
    fn evaluate(&self, checks: &mut Items<Check>, used: &mut Used) -> Result<(), AllocError>
        requires memory { Remembers (world self.now.schema.now (D.population self.now.domain.now)) used.old.memory }
        ensures checks { OnOk result (checks.new ≡ (in_sequence_after checks.old (all_evaluated self.now.schema.now (D.population self.now.domain.now)) used.old.steps).0) }
        ensures used { OnOk result (used.new.steps ≡ (in_sequence_after checks.old (all_evaluated self.now.schema.now (D.population self.now.domain.now)) used.old.steps).1) }
        ensures memory { OnOk result (Remembers (world self.now.schema.now (D.population self.now.domain.now)) used.new.memory) }
    {
        let schema = self.schema;
        self.checks_of(Sort::Type, schema.type_order.as_slice(), checks, used)?;
        self.checks_of(Sort::Where, schema.entity_order.as_slice(), checks, used)?;
        self.checks_of(Sort::Unique, schema.entity_order.as_slice(), checks, used)?;
        self.checks_of(Sort::Inverse, schema.entity_order.as_slice(), checks, used)?;
        self.checks_of(Sort::Global, schema.rule_order.as_slice(), checks, used)
    }
}

/// The report of all rules of a schema over the population of a domain.
pub fn validate<D: Domain>(alloc: Global, schema: &Schema, domain: &D) -> Result<Report, AllocError>
    ensures { IfOk result (λ report. report ≡ spec.report schema.now (D.population domain.now)) }
{
    let layouts = layouts_of(alloc, domain, count_of_planned(schema, domain.count()))?;
    let world = World::new(alloc, schema, domain)?;
    let validation = Validation {
        alloc,
        schema,
        domain,
        world: &world,
        layouts: &layouts,
    };
    let mut checks = validation.attribute_checks()?;
    let memory = Memory::new(alloc, schema, domain)?;
    let mut used = Used::new(memory);
    validation.evaluate(&mut checks, &mut used)?;
    Ok(Report {
        checks,
        steps: used.steps(),
    })
}
