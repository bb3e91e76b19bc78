//! What a request is to be answered, and what it is to change, before anything is changed.

ghost use Rattle.std.specs.Prelude.{◌≡◌};
ghost use Rattle.rp_readers.specs.Told.{told};
ghost use Rattle.rp_readers.specs.Named.{TellsNamed};
ghost use Rattle.rp_readers.specs.Listed.{TellsListed, TellsPopulations};
ghost use Rattle.rp_plans.specs.Plans.{Plans};
ghost use Rattle.rp_core.specs.Groups.{IsOnGroup};

use rp_file_plans::{plan_add, plan_check, plan_drop, plan_export, plan_get, plan_put, plan_set};
use rp_item_plans::{
    plan_create, plan_create_group, plan_delete, plan_delete_group, plan_exclude, plan_extent,
    plan_grant, plan_grant_group, plan_include, plan_list, plan_members, plan_names, plan_revoke,
    plan_revoke_group, plan_schemas, plan_users, plan_validate,
};
use rp_plain::messages::{Refusal, Request};
use rp_plans::Plan;
use rp_readers::{KeptLayouts, Readers};
use rp_reports::SchemaRules;
use std::alloc::Global;

/// The plan of a request on groups, or its refusal.
fn plan_on_group(
    alloc: Global,
    asked: &Readers<'_, '_>,
    rules: &SchemaRules<'_>,
    request: Request,
) -> Result<Plan, Refusal>
    requires listed { TellsListed (told asked.now) }
    requires populations { TellsPopulations (told asked.now) }
    requires schemas { rules.now ≡ (told asked.now).schemas }
    requires on_group { IsOnGroup request }
    ensures { Plans (told asked.now) asked.now.caller.now request result }
{
    match request {
        Request::CreateGroup { name, schema } => plan_create_group(alloc, asked, name, schema),
        Request::DeleteGroup { name } => plan_delete_group(alloc, asked, name),
        Request::GrantGroup { name, to } => plan_grant_group(alloc, asked, name, to),
        Request::RevokeGroup { name, to } => plan_revoke_group(alloc, asked, name, to),
        Request::Include { group, model } => plan_include(alloc, asked, group, model),
        Request::Exclude { group, model } => plan_exclude(alloc, asked, group, model),
        Request::Members { group } => plan_members(alloc, asked, &group),
        Request::Extent { group, entity } => plan_extent(alloc, asked, &group, &entity),
        Request::Users { group, of, role } => plan_users(alloc, asked, &group, &of, &role),
        Request::Validate { group } => plan_validate(alloc, asked, rules, &group),
        _ => unreachable!(),
    }
}

/// The request's plan, or its refusal. What was found in the schemas for it is kept with theirs.
pub fn plan(
    alloc: Global,
    asked: &Readers<'_, '_>,
    layouts: &mut KeptLayouts<'_>,
    rules: &SchemaRules<'_>,
    request: Request,
) -> Result<Plan, Refusal>
    requires named { TellsNamed (told asked.now) }
    requires listed { TellsListed (told asked.now) }
    requires populations { TellsPopulations (told asked.now) }
    requires schemas { layouts.old ≡ (told asked.now).schemas }
    requires rules { rules.now ≡ (told asked.now).schemas }
    ensures layouts { layouts.new ≡ layouts.old }
    ensures planned { Plans (told asked.now) asked.now.caller.now request result }
{
    match request {
        Request::CreateModel { name, schema } => plan_create(alloc, asked, name, schema),
        Request::DeleteModel { name } => plan_delete(alloc, asked, name),
        Request::Put { model, file, links } => plan_put(alloc, asked, model, &file, links),
        Request::Export { model, links } => plan_export(alloc, asked, &model, links),
        Request::Names { model } => plan_names(alloc, asked, &model),
        Request::Get { model, instance } => plan_get(alloc, asked, layouts, &model, instance),
        Request::Add { model, text } => plan_add(alloc, asked, layouts, model, &text),
        Request::Set {
            model,
            instance,
            text,
        } => plan_set(alloc, asked, layouts, model, instance, &text),
        Request::DropInstance { model, instance } => plan_drop(alloc, asked, model, instance),
        Request::ListItems => plan_list(alloc, asked),
        Request::GrantModel { name, to, level } => plan_grant(alloc, asked, name, to, level),
        Request::RevokeModel { name, to } => plan_revoke(alloc, asked, name, to),
        Request::Schemas => plan_schemas(alloc, asked),
        Request::CheckSchema { text } => plan_check(alloc, asked, &text),
        on_group => plan_on_group(alloc, asked, rules, on_group),
    }
}
