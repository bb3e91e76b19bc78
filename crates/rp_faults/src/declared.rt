//! How the attributes of an instance are declared, and read.

ghost use Rattle.std.specs.Prelude.{◌≡◌, ◌++◌, IfOk, OnOk};
ghost use Rattle.rp_faults.specs.Declarations as spec;

use crate::attributes::{explicit_at, redeclarations};
use ex_named::{AttributePlace, NamedDataType};
use rp_meaning::{ReadValue, Redeclaration, Schema};
use rp_operators::same_attribute;
use rp_value::Value;
use std::alloc::{AllocError, Global};

/// Adds the types of these redeclarations of an attribute.
fn push_types<'s>(
    found: &mut Vec<&'s NamedDataType>,
    redeclarations: &'s [Redeclaration],
    attribute: AttributePlace,
) -> Result<(), AllocError>
    ensures { OnOk result (spec.all_now found.new.items ≡ spec.all_now found.old.items ++ spec.redeclared_types attribute redeclarations.now) }
{
    for redeclaration in redeclarations {
        if same_attribute(&redeclaration.attribute, &attribute) {
            found.push(&redeclaration.declaration.data_type)?;
        }
    }
    Ok(())
}

/// The types with which an attribute is declared, and redeclared by these entities.
pub fn declared_types<'s>(
    alloc: Global,
    schema: &'s Schema,
    entities: &[usize],
    attribute: AttributePlace,
) -> Result<Vec<&'s NamedDataType>, AllocError>
    ensures { IfOk result (λ found. spec.all_now found.items ≡ spec.declared_types schema.now entities.now attribute) }
{
    let mut found = Vec::new(alloc);
    if let Some(explicit) = explicit_at(schema, attribute) {
        found.push(&explicit.declaration.data_type)?;
    }
    for entity in entities {
        push_types(&mut found, redeclarations(schema, *entity), attribute)?;
    }
    Ok(found)
}

/// The value that is read at a place where this one is written.
pub fn read_at<'d>(written: &'d Value, differing: &'d [ReadValue], place: usize) -> &'d Value
    ensures { result.now ≡ spec.last_read written.now differing.now place }
{
    let mut found = written;
    for read in differing {
        if read.place == place {
            found = &read.value;
        }
    }
    found
}
