//! Reports with names and places.

ghost use Rattle.std.specs.Prelude.{◌≡◌, map, IfOk};
ghost use Rattle.rp_plain.specs.Reports as spec;

use crate::culprits::Telling;
use crate::rules::{kind_of, rule_of};
use plain_data::Rows;
use rp_meaning::{Check, Report};
use rp_plain::reports::{ToldCheck, ToldReport};
use std::alloc::{AllocError, Global};

fn told_check(
    alloc: Global,
    telling: &Telling<'_, '_>,
    check: &Check,
) -> Result<ToldCheck, AllocError>
    ensures { IfOk result (λ told. told ≡ spec.told_check telling.now.schema.now telling.now.population.now check.now) }
{
    let rule = rule_of(alloc, telling.schema(), check.constraint)?;
    let violating = telling.culprits(alloc, check.violating.as_slice())?;
    let limited = telling.culprits(alloc, check.limited.as_slice())?;
    let not_run = telling.culprits(alloc, check.not_run.as_slice())?;
    let unknown = telling.culprits(alloc, check.unknown.as_slice())?;
    Ok(ToldCheck {
        kind: kind_of(check.constraint),
        rule,
        verdict: check.verdict,
        violating,
        limited,
        not_run,
        unknown,
    })
}

fn told_checks(
    alloc: Global,
    telling: &Telling<'_, '_>,
    checks: &[Check],
) -> Result<Rows<ToldCheck>, AllocError>
    ensures { IfOk result (λ told. told ≡ map (spec.told_check telling.now.schema.now telling.now.population.now) checks.now) }
{
    let mut told = Rows::from_vec(Vec::with_capacity(alloc, checks.len())?);
    for check in checks {
        told.push(told_check(alloc, telling, check)?)?;
    }
    Ok(told)
}

pub(crate) fn told_report(
    alloc: Global,
    telling: &Telling<'_, '_>,
    report: &Report,
) -> Result<ToldReport, AllocError>
    ensures { IfOk result (λ told. told ≡ spec.told_report telling.now.schema.now telling.now.population.now report.now) }
{
    Ok(ToldReport {
        checks: told_checks(alloc, telling, report.checks.as_slice())?,
        steps: report.steps,
    })
}
