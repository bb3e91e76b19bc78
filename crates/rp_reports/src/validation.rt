//! The validation of a group's population.

ghost use Rattle.std.specs.Prelude.{◌≡◌, IfOk};
ghost use Rattle.rp_population.specs.Populations.{population as Population};
ghost use Rattle.rp_positions.specs.Positions.{AreInOrder};
ghost use Rattle.rp_positions.specs.Seen.{all_seen_by};
ghost use Rattle.rp_meaning.specs.Compiled.{compiled};
ghost use Rattle.rp_meaning.specs.Report.{report as ReportOf};
ghost use Rattle.rp_plain.specs.Reports as spec;

use crate::checks::told_report;
use crate::culprits::Telling;
use crate::ruled_schema::RuledSchema;
use rp_group_domain::{CountedModel, PlacedInstance, domain_of, population_of};
use rp_meaning::Report;
use rp_plain::reports::ToldReport;
use rp_rules::validate;
use std::alloc::{AllocError, Global};

/// The report of the population of some models. What evaluation sees of it is let go of.
fn report_of(
    alloc: Global,
    schema: &RuledSchema<'_>,
    models: &[CountedModel<'_>],
    population: &[PlacedInstance<'_>],
) -> Result<Report, AllocError>
    requires order { AreInOrder models.now }
    requires population { population.now ≡ Population models.now }
    ensures { IfOk result (λ report. report ≡ ReportOf (compiled schema.now) (all_seen_by (compiled schema.now) schema.now population.now)) }
{
    let rules = schema.rules();
    let dictionary = schema.loaded().dictionary();
    let domain = domain_of(alloc, rules, dictionary, models, population)?;
    validate(alloc, rules, &domain)
}

/// What is told of the population of some models by the rules of their schema.
pub(crate) fn validated(
    alloc: Global,
    schema: &RuledSchema<'_>,
    models: &[CountedModel<'_>],
) -> Result<ToldReport, AllocError>
    requires { AreInOrder models.now }
    ensures { IfOk result (λ told. told ≡ spec.validated schema.now (Population models.now)) }
{
    let population = population_of(alloc, models)?;
    let report = report_of(alloc, schema, models, &population)?;
    let telling = Telling::of(alloc, schema, models, &population)?;
    told_report(alloc, &telling, &report)
}
