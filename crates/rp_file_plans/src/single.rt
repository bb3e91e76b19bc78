//! Single instances that are added to models, set and dropped.

ghost use Rattle.std.specs.Prelude.{◌≡◌, Some};
ghost use Rattle.p21_read.specs.Single.{mapping_of};
ghost use Rattle.rp_plain.specs.Instances as of_instances;
ghost use Rattle.rp_readers.specs.Told.{told};
ghost use Rattle.rp_readers.specs.Named.{IsSearchable, TellsNamed};
ghost use Rattle.rp_readers.specs.Single.{Says};
ghost use Rattle.rp_plans.specs.Plans.{Plans};

use crate::files::cheap_fault;
use p21_read::read_instance;
use plain_data::{Failure, Text};
use rp_content::Instance;
use rp_plain::messages::{Refusal, Reply, Request};
use rp_plans::{Edit, Plan, first, is_no_partner, key_fault, lacks};
use rp_readers::{KeptLayouts, ModelNames, Readers};
use rp_rows::rows::{Key, ModelContent, Right};
use rp_store::Change;
use std::alloc::{AllocError, Global};

/// The instance of this name that the text is by the model's schema, or why it is refused.
fn said_by(
    alloc: Global,
    layouts: &mut KeptLayouts<'_>,
    model: &ModelContent,
    name: u64,
    text: &Text,
) -> Result<Instance, Refusal>
    requires { IsSearchable model.now.content }
    ensures layouts { layouts.new ≡ layouts.old }
    ensures said { Says (of_instances.said_by layouts.old model.now name (mapping_of text.now)) result }
{
    let mapping = match read_instance(alloc, text.as_bytes()) {
        Ok(mapping) => mapping,
        Err(Failure::Fault(fault)) => return Err(Refusal::FileFault(fault)),
        Err(Failure::NoMemory) => return Err(AllocError.into()),
    };
    let names = ModelNames::of(&model.content);
    layouts.bound(alloc, &model.schema, &names, name, mapping)
}

/// One instance more of a model.
pub fn plan_add(
    alloc: Global,
    asked: &Readers<'_, '_>,
    layouts: &mut KeptLayouts<'_>,
    key: Key,
    text: &Text,
) -> Result<Plan, Refusal>
    requires named { TellsNamed (told asked.now) }
    requires schemas { layouts.old ≡ (told asked.now).schemas }
    ensures layouts { layouts.new ≡ layouts.old }
    ensures planned { Plans (told asked.now) asked.now.caller.now (Request.Add key text.now) result }
{
    if let Some(refusal) = cheap_fault(asked, &key, text) {
        return Err(refusal);
    }
    let Some(model) = asked.content(&key) else {
        return Err(Refusal::NoSuchItem);
    };
    let name = model.greatest + 1;
    let instance = said_by(alloc, layouts, model, name, text)?;
    let change = Change::Add(key, instance.entities, instance.values);
    Ok(Plan::of(alloc, Reply::Added(name), Edit::OfModel(change))?)
}

/// Another instance in place of the one of its name.
pub fn plan_set(
    alloc: Global,
    asked: &Readers<'_, '_>,
    layouts: &mut KeptLayouts<'_>,
    key: Key,
    name: u64,
    text: &Text,
) -> Result<Plan, Refusal>
    requires named { TellsNamed (told asked.now) }
    requires schemas { layouts.old ≡ (told asked.now).schemas }
    ensures layouts { layouts.new ≡ layouts.old }
    ensures planned { Plans (told asked.now) asked.now.caller.now (Request.Set key name text.now) result }
{
    if let Some(refusal) = cheap_fault(asked, &key, text) {
        return Err(refusal);
    }
    let Some(model) = asked.content(&key) else {
        return Err(Refusal::NoSuchItem);
    };
    let instance = said_by(alloc, layouts, model, name, text)?;
    let change = Change::Set(key, instance);
    Ok(Plan::of(alloc, Reply::Done, Edit::OfModel(change))?)
}

/// A model without the instance of this name.
pub fn plan_drop(
    alloc: Global,
    asked: &Readers<'_, '_>,
    key: Key,
    name: u64,
) -> Result<Plan, Refusal>
    ensures { Plans (told asked.now) asked.now.caller.now (Request.DropInstance key name) result }
{
    let tests = [
        key_fault(&key),
        is_no_partner(asked, &key.owner),
        lacks(Right::Writes, asked.model_right(&key)),
    ];
    if let Some(refusal) = first(&tests) {
        return Err(refusal);
    }
    let change = Change::DropInstance(key, name);
    Ok(Plan::of(alloc, Reply::Done, Edit::OfModel(change))?)
}
