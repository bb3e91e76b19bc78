//! The names of entities and of types in the order of their bytes.

ghost use Rattle.std.specs.Prelude.{◌≡◌, map, IfOk};
ghost use Rattle.name_tables.specs.Order.{IsOrderOf};
ghost use Rattle.ex_types.specs.Checked as spec;

use ex_named::{NamedEntity, NamedType};
use name_tables::NameOrder;
use std::alloc::{AllocError, Global};

fn entity_names(alloc: Global, entities: &[NamedEntity]) -> Result<Vec<&str>, AllocError>
    ensures { IfOk result (λ names. map (λ n. n.now) names.items ≡ spec.entity_names entities.now) }
{
    let mut names = Vec::with_capacity(alloc, entities.len())?;
    for entity in entities {
        names.push(entity.name.text.as_str())?;
    }
    Ok(names)
}

/// The names of entities in the order of their bytes.
pub(crate) fn entity_order(alloc: Global, entities: &[NamedEntity]) -> Result<NameOrder, AllocError>
    ensures { IfOk result (λ order. IsOrderOf (spec.entity_names entities.now) order) }
{
    let names = entity_names(alloc, entities)?;
    NameOrder::of(alloc, &names)
}

fn type_names(alloc: Global, types: &[NamedType]) -> Result<Vec<&str>, AllocError>
    ensures { IfOk result (λ names. map (λ n. n.now) names.items ≡ spec.type_names types.now) }
{
    let mut names = Vec::with_capacity(alloc, types.len())?;
    for declaration in types {
        names.push(declaration.name.text.as_str())?;
    }
    Ok(names)
}

/// The names of types in the order of their bytes.
pub(crate) fn type_order(alloc: Global, types: &[NamedType]) -> Result<NameOrder, AllocError>
    ensures { IfOk result (λ order. IsOrderOf (spec.type_names types.now) order) }
{
    let names = type_names(alloc, types)?;
    NameOrder::of(alloc, &names)
}
