//! The names of schemas.

ghost use Rattle.std.specs.Prelude.{◌≡◌, map, IfOk};
ghost use Rattle.rp_plain.specs.Meaning.{schema_name};
ghost use Rattle.rp_plain.specs.Lists.{schema_names};

use ex_loaded::LoadedSchema;
use itertools::Itertools;
use plain_data::{Rows, Text};
use std::alloc::{AllocError, Global};

/// The names of the schemas.
pub fn names_of(alloc: Global, schemas: &[LoadedSchema<'_>]) -> Result<Vec<Text>, AllocError>
    ensures { IfOk result (λ names. names.items ≡ map schema_name schemas.now) }
{
    let mut names = Vec::with_capacity(alloc, schemas.len())?;
    for schema in schemas {
        names.push(Text::from_str(alloc, schema.checked().name())?)?;
    }
    Ok(names)
}

/// The names of the schemas, in byte order.
pub fn sorted_names(alloc: Global, schemas: &[LoadedSchema<'_>]) -> Result<Rows<Text>, AllocError>
    ensures { IfOk result (λ names. names ≡ schema_names schemas.now) }
{
    let names = names_of(alloc, schemas)?.into_iter();
    let sorted = names.sorted_unstable_by(alloc, |name, other| name.order(other))?;
    Ok(Rows::from_vec(sorted.collect_vec(alloc)?))
}
