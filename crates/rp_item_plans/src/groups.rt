//! Groups that are created, deleted and granted.

ghost use Rattle.rp_readers.specs.Told.{told};
ghost use Rattle.rp_plans.specs.Plans.{Plans};

use crate::grants::grant_fault;
use crate::models::{new_fault, own, own_fault};
use plain_data::Text;
use rp_access::Change;
use rp_plain::messages::{Refusal, Reply, Request};
use rp_plans::{Edit, Plan};
use rp_readers::Readers;
use std::alloc::Global;

/// A group of the caller's, without members.
pub fn plan_create_group(
    alloc: Global,
    asked: &Readers<'_, '_>,
    name: Text,
    mut schema: Text,
) -> Result<Plan, Refusal>
    ensures { Plans (told asked.now) asked.now.caller.now (Request.CreateGroup name schema) result }
{
    schema.make_ascii_uppercase();
    if let Some(refusal) = new_fault(asked, &name, &schema) {
        return Err(refusal);
    }
    let key = own(alloc, asked, name)?;
    let edit = Edit::OfRights(Change::CreateGroup(key, schema));
    Ok(Plan::of(alloc, Reply::Done, edit)?)
}

/// A group of the caller's is gone, with its grants.
pub fn plan_delete_group(
    alloc: Global,
    asked: &Readers<'_, '_>,
    name: Text,
) -> Result<Plan, Refusal>
    ensures { Plans (told asked.now) asked.now.caller.now (Request.DeleteGroup name) result }
{
    if let Some(refusal) = own_fault(&name, asked.own_group_right(&name)) {
        return Err(refusal);
    }
    let key = own(alloc, asked, name)?;
    let edit = Edit::OfRights(Change::RemoveGroup(key));
    Ok(Plan::of(alloc, Reply::Done, edit)?)
}

/// A partner may read a group of the caller's.
pub fn plan_grant_group(
    alloc: Global,
    asked: &Readers<'_, '_>,
    name: Text,
    to: Text,
) -> Result<Plan, Refusal>
    ensures { Plans (told asked.now) asked.now.caller.now (Request.GrantGroup name to) result }
{
    if let Some(refusal) = grant_fault(asked, &name, &to, asked.own_group_right(&name)) {
        return Err(refusal);
    }
    let key = own(alloc, asked, name)?;
    let edit = Edit::OfRights(Change::GrantGroup(key, to));
    Ok(Plan::of(alloc, Reply::Done, edit)?)
}

/// A partner may not read a group of the caller's.
pub fn plan_revoke_group(
    alloc: Global,
    asked: &Readers<'_, '_>,
    name: Text,
    to: Text,
) -> Result<Plan, Refusal>
    ensures { Plans (told asked.now) asked.now.caller.now (Request.RevokeGroup name to) result }
{
    if let Some(refusal) = grant_fault(asked, &name, &to, asked.own_group_right(&name)) {
        return Err(refusal);
    }
    let key = own(alloc, asked, name)?;
    let edit = Edit::OfRights(Change::RevokeGroup(key, to));
    Ok(Plan::of(alloc, Reply::Done, edit)?)
}
