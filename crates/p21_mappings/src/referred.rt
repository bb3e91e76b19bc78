//! The names that the instances of a file refer to.

ghost use Rattle.std.specs.Prelude.{◌≡◌, ◌++◌, OnOk};
ghost use Rattle.std.specs.List.{flat_map};
ghost use Rattle.p21_instances.specs.Instances.{references};
ghost use Rattle.p21_mappings.specs.Referred.{part_references, mapping_references};

use p21_tree::{Mapping, Record, Value};
use std::alloc::AllocError;

/// Puts the names that a value refers to behind the others. What holds no other value takes no further call.
#[cycle(references)]
#[inline(always)]
fn put_references(found: &mut Vec<u64>, value: &Value<'_>) -> Result<(), AllocError>
    ensures { OnOk result (found.new.items ≡ found.old.items ++ references value.now) }
{
    match value {
        Value::Reference(name) => {
            found.push(*name)?;
            Ok(())
        }
        Value::List(values) => put_all_references(found, values.as_slice()),
        Value::Typed(_, value) => put_references_inside(found, value.get()),
        _ => Ok(()),
    }
}

/// The same of the value behind a keyword.
#[cycle(references)]
fn put_references_inside(found: &mut Vec<u64>, value: &Value<'_>) -> Result<(), AllocError>
    ensures { OnOk result (found.new.items ≡ found.old.items ++ references value.now) }
{
    put_references(found, value)
}

/// Puts the names that the values refer to behind the others.
#[cycle(references)]
fn put_all_references(found: &mut Vec<u64>, values: &[Value<'_>]) -> Result<(), AllocError>
    ensures { OnOk result (found.new.items ≡ found.old.items ++ flat_map references values.now) }
{
    for value in values {
        put_references(found, value)?;
    }
    Ok(())
}

/// Puts the names that the parts refer to behind the others.
fn put_references_of_parts(found: &mut Vec<u64>, parts: &[Record<'_>]) -> Result<(), AllocError>
    ensures { OnOk result (found.new.items ≡ found.old.items ++ flat_map part_references parts.now) }
{
    for part in parts {
        put_all_references(found, part.values.as_slice())?;
    }
    Ok(())
}

/// Puts the names that a mapping refers to behind the others.
pub fn put_references_of(found: &mut Vec<u64>, mapping: &Mapping<'_>) -> Result<(), AllocError>
    ensures { OnOk result (found.new.items ≡ found.old.items ++ mapping_references mapping.now) }
{
    match mapping {
        Mapping::Internal(part) => put_all_references(found, part.values.as_slice()),
        Mapping::External(parts) => put_references_of_parts(found, parts.as_slice()),
    }
}
