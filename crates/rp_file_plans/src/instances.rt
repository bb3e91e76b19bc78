//! Single instances of models.

ghost use Rattle.std.specs.Prelude.{◌≡◌, option_copied};
ghost use Rattle.rp_plain.specs.Instances as of_instances;
ghost use Rattle.rp_readers.specs.Told.{told};
ghost use Rattle.rp_plans.specs.Plans.{Plans};

use rp_content::Instance;
use rp_plain::messages::{Refusal, Reply, Request};
use rp_plans::{Plan, first, is_no_partner, key_fault, unseen, when};
use rp_readers::instances::{instance_in, line_of};
use rp_readers::{KeptLayouts, Readers};
use rp_rows::rows::Key;
use std::alloc::Global;

/// Of an instance that isn't there.
pub fn is_absent(found: Option<&Instance>) -> Option<Refusal>
    ensures { result ≡ of_instances.is_absent (option_copied found.entry) }
{
    when(found.is_none(), Refusal::NoSuchInstance)
}

/// One instance of a model, as canonical text has it.
pub fn plan_get(
    alloc: Global,
    asked: &Readers<'_, '_>,
    layouts: &mut KeptLayouts<'_>,
    key: &Key,
    name: u64,
) -> Result<Plan, Refusal>
    requires { layouts.old ≡ (told asked.now).schemas }
    ensures layouts { layouts.new ≡ layouts.old }
    ensures planned { Plans (told asked.now) asked.now.caller.now (Request.Get key.now name) result }
{
    let found = instance_in(asked, key, name);
    let tests = [
        key_fault(key),
        is_no_partner(asked, &key.owner),
        unseen(asked.model_right(key)),
        is_absent(found),
    ];
    if let Some(refusal) = first(&tests) {
        return Err(refusal);
    }
    Ok(Plan::told(
        alloc,
        Reply::Line(line_of(alloc, asked, layouts, key, found)?),
    ))
}
