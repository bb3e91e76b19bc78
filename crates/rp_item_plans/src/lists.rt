//! Lists of what there is.

ghost use Rattle.rp_readers.specs.Told.{told};
ghost use Rattle.rp_plans.specs.Plans.{Plans};

use rp_plain::messages::{Refusal, Reply, Request};
use rp_plans::{Plan, first, is_no_partner, key_fault, unseen};
use rp_readers::Readers;
use rp_readers::contents::names_of;
use rp_rows::rows::Key;
use std::alloc::Global;

/// The names of a model's instances, with their types.
pub fn plan_names(alloc: Global, asked: &Readers<'_, '_>, key: &Key) -> Result<Plan, Refusal>
    ensures { Plans (told asked.now) asked.now.caller.now (Request.Names key.now) result }
{
    let tests = [
        key_fault(key),
        is_no_partner(asked, &key.owner),
        unseen(asked.model_right(key)),
    ];
    if let Some(refusal) = first(&tests) {
        return Err(refusal);
    }
    Ok(Plan::told(alloc, Reply::Names(names_of(alloc, asked, key)?)))
}

/// The groups and the models that the caller sees.
pub fn plan_list(alloc: Global, asked: &Readers<'_, '_>) -> Result<Plan, Refusal>
    ensures { Plans (told asked.now) asked.now.caller.now Request.ListItems result }
{
    let groups = asked.group_items(alloc)?;
    Ok(Plan::told(
        alloc,
        Reply::Listed {
            groups,
            models: asked.model_items(alloc)?,
        },
    ))
}

/// The names of the schemas.
pub fn plan_schemas(alloc: Global, asked: &Readers<'_, '_>) -> Result<Plan, Refusal>
    ensures { Plans (told asked.now) asked.now.caller.now Request.Schemas result }
{
    Ok(Plan::told(alloc, Reply::Schemas(asked.schema_names(alloc)?)))
}
