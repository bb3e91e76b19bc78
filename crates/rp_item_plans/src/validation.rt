//! The validation of the populations of groups.

ghost use Rattle.std.specs.Prelude.{◌≡◌, map, IfOk};
ghost use Rattle.rp_plain.specs.Populations as of_populations;
ghost use Rattle.rp_population.specs.Populations.{population};
ghost use Rattle.rp_readers.specs.Listed.{TellsListed, TellsPopulations, counted_of};
ghost use Rattle.rp_readers.specs.Told.{told};
ghost use Rattle.rp_plans.specs.Plans.{Plans};

use plain_data::Rows;
use rp_group_domain::CountedModel;
use rp_index::Indexed;
use rp_plain::messages::{Refusal, Reply, Request};
use rp_plain::reports::ToldReport;
use rp_plans::{Plan, first, is_no_partner, key_fault, unseen};
use rp_readers::Readers;
use rp_reports::SchemaRules;
use rp_rows::rows::Key;
use rp_sight::RowRef;
use std::alloc::{AllocError, Global};

/// The models, as their population is made of them.
fn models_of<'a>(
    alloc: Global,
    counted: &[RowRef<'a, Indexed>],
) -> Result<Vec<CountedModel<'a>>, AllocError>
    ensures { IfOk result (λ models. models.items ≡ map counted_of counted.now) }
{
    let mut models = Vec::with_capacity(alloc, counted.len())?;
    for model in counted {
        models.push(CountedModel {
            key: model.key,
            content: &model.holds.get().content,
        })?;
    }
    Ok(models)
}

/// What is told of the group's population by the rules of its schema, if the partner sees the group.
fn validated(
    alloc: Global,
    asked: &Readers<'_, '_>,
    rules: &SchemaRules<'_>,
    group: &Key,
) -> Result<ToldReport, AllocError>
    requires listed { TellsListed (told asked.now) }
    requires populations { TellsPopulations (told asked.now) }
    requires schemas { rules.now ≡ (told asked.now).schemas }
    ensures { IfOk result (λ report. report ≡ of_populations.validated_by (of_populations.group_schema (told asked.now).schemas ((told asked.now).listing group.now)) (population ((told asked.now).counted group.now))) }
{
    let Some(listing) = asked.listing(group) else {
        return Ok(ToldReport {
            checks: Rows::new(alloc),
            steps: 0,
        });
    };
    let counted = asked.counted(alloc, group)?;
    let models = models_of(alloc, &counted)?;
    rules.validated(alloc, &listing.schema, &models)
}

/// What the rules of its schema say of a group's population.
pub fn plan_validate(
    alloc: Global,
    asked: &Readers<'_, '_>,
    rules: &SchemaRules<'_>,
    group: &Key,
) -> Result<Plan, Refusal>
    requires listed { TellsListed (told asked.now) }
    requires populations { TellsPopulations (told asked.now) }
    requires schemas { rules.now ≡ (told asked.now).schemas }
    ensures { Plans (told asked.now) asked.now.caller.now (Request.Validate group.now) result }
{
    let tests = [
        key_fault(group),
        is_no_partner(asked, &group.owner),
        unseen(asked.group_right(group)),
    ];
    if let Some(refusal) = first(&tests) {
        return Err(refusal);
    }
    let report = validated(alloc, asked, rules, group)?;
    Ok(Plan::told(alloc, Reply::Validated(report)))
}
