//! EXPRESS texts that are checked.

ghost use Rattle.std.specs.Prelude.{◌≡◌, IfOk};
ghost use Rattle.ex_check.specs.Check.{schema as schema_in};
ghost use Rattle.rp_plain.specs.Meaning.{schema_name};
ghost use Rattle.rp_plain.specs.Checks as of_checks;
ghost use Rattle.rp_readers.specs.Told.{told};
ghost use Rattle.rp_plans.specs.Plans.{Plans};

use ex_check::compile_schema;
use ex_compiled::Compiled;
use plain_data::{Failure, Rows, Text};
use rp_plain::messages::{Refusal, Reply, Request};
use rp_plans::{Plan, too_large};
use rp_readers::Readers;
use std::alloc::{AllocError, Global};

/// What there is to tell of a text: its schema's name and the places of its warnings, or its first fault.
fn told_of_text(alloc: Global, text: &Text) -> Result<Reply, AllocError>
    ensures { IfOk result (λ reply. reply ≡ of_checks.told (schema_in text.now)) }
{
    match compile_schema(alloc, text.as_bytes()) {
        Ok(compiled) => told_of_schema(alloc, &compiled),
        Err(Failure::Fault(fault)) => Ok(Reply::Faulty(fault)),
        Err(Failure::NoMemory) => Err(AllocError),
    }
}

fn told_of_schema(alloc: Global, compiled: &Compiled) -> Result<Reply, AllocError>
    ensures { IfOk result (λ reply. reply ≡ Reply.Checked (schema_name compiled.now) compiled.now.warnings) }
{
    let schema = compiled.checked();
    let warnings = Vec::from_slice(alloc, schema.warnings())?;
    let schema = Text::from_str(alloc, schema.name())?;
    Ok(Reply::Checked {
        schema,
        warnings: Rows::from_vec(warnings),
    })
}

/// What there is to tell of an EXPRESS text.
pub fn plan_check(alloc: Global, asked: &Readers<'_, '_>, text: &Text) -> Result<Plan, Refusal>
    ensures { Plans (told asked.now) asked.now.caller.now (Request.CheckSchema text.now) result }
{
    if let Some(refusal) = too_large(text) {
        return Err(refusal);
    }
    Ok(Plan::told(alloc, told_of_text(alloc, text)?))
}
