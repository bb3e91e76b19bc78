//! The attributes that an entity declares.

ghost use Rattle.std.specs.Prelude.{◌≡◌, ◌++◌, map, IfOk, OnOk};
ghost use Rattle.std.specs.List.{filter_map, flat_map};
ghost use Rattle.ex_kinds.specs.Kinds.{of_type};
ghost use Rattle.ex_attributes.specs.Attributes as spec;
ghost use Rattle.ex_attributes.specs.Steps.{rows_of};

use crate::attribute::Attribute;
use ex_kinds::{Kinds, Sort, aggregate_of, kinds_of, kinds_of_one};
use ex_named::{
    AttributePlace, AttributeSort, NamedAttribute, NamedDataType, NamedDerived, NamedEntity,
    NamedExplicit, NamedInverse,
};
use ex_tree::{InverseAggregate, Name};
use plain_data::Rows;
use std::alloc::{AllocError, Global};

/// Puts the names that are the entity's own behind the others, each with its type.
fn push_own<'a>(
    rows: &mut Vec<(&'a Name, &'a NamedDataType)>,
    attributes: &'a [NamedAttribute],
    data_type: &'a NamedDataType,
) -> Result<(), AllocError>
    ensures { OnOk result (rows_of rows.new.items ≡ rows_of rows.old.items ++ map (λ n. (n.text, of_type data_type.now)) (filter_map spec.own attributes.now)) }
{
    for attribute in attributes {
        if let NamedAttribute::Own(name) = attribute {
            rows.push((name, data_type))?;
        }
    }
    Ok(())
}

/// The names of an entity's own explicit attributes, each with its type.
fn explicit_rows<'a>(
    alloc: Global,
    list: &'a [NamedExplicit],
) -> Result<Vec<(&'a Name, &'a NamedDataType)>, AllocError>
    ensures { IfOk result (λ rows. rows_of rows.items ≡ flat_map spec.explicit_names list.now) }
{
    let mut rows = Vec::new(alloc);
    for explicit in list {
        push_own(
            &mut rows,
            explicit.attributes.as_slice(),
            &explicit.data_type,
        )?;
    }
    Ok(rows)
}

/// The names of an entity's own derived attributes, each with its type.
fn derived_rows<'a>(
    alloc: Global,
    list: &'a [NamedDerived],
) -> Result<Vec<(&'a Name, &'a NamedDataType)>, AllocError>
    ensures { IfOk result (λ rows. rows_of rows.items ≡ filter_map spec.derived_name list.now) }
{
    let mut rows = Vec::new(alloc);
    for derived in list {
        if let NamedAttribute::Own(name) = &derived.attribute {
            rows.push((name, &derived.data_type))?;
        }
    }
    Ok(rows)
}

/// Puts the attributes that an entity declares so behind the others.
fn push_rows(
    alloc: Global,
    found: &mut Rows<Attribute>,
    entity: usize,
    sort: AttributeSort,
    rows: &[(&Name, &NamedDataType)],
) -> Result<(), AllocError>
    ensures { OnOk result (found.new ≡ found.old ++ spec.placed entity sort (rows_of rows.now)) }
{
    for (place, (name, data_type)) in rows.iter().enumerate() {
        let place = AttributePlace {
            entity,
            sort,
            place,
        };
        let name = name.text.copy(alloc)?;
        let kinds = kinds_of(alloc, data_type)?;
        found.push(Attribute { name, place, kinds })?;
    }
    Ok(())
}

/// What an inverse attribute may be: an instance of this entity, or an aggregate of them.
fn inverse_kinds(
    alloc: Global,
    aggregate: &Option<InverseAggregate>,
    entity: usize,
) -> Result<Kinds, AllocError>
    ensures { IfOk result (λ kinds. kinds ≡ spec.inverse_kinds aggregate.now entity) }
{
    let one = kinds_of_one(alloc, Sort::Entity(entity))?;
    match aggregate {
        Some(_) => aggregate_of(alloc, one.as_slice()),
        None => Ok(one),
    }
}

/// Puts an entity's inverse attributes behind the others.
fn push_inverse(
    alloc: Global,
    found: &mut Rows<Attribute>,
    entity: usize,
    list: &[NamedInverse],
) -> Result<(), AllocError>
    ensures { OnOk result (found.new ≡ found.old ++ spec.placed entity AttributeSort.Inverse (map spec.inverse_name list.now)) }
{
    for (place, inverse) in list.iter().enumerate() {
        let place = AttributePlace {
            entity,
            sort: AttributeSort::Inverse,
            place,
        };
        let name = inverse.name.text.copy(alloc)?;
        let kinds = inverse_kinds(alloc, &inverse.aggregate, inverse.entity)?;
        found.push(Attribute { name, place, kinds })?;
    }
    Ok(())
}

/// Puts the attributes that the entity of this number declares behind the others.
fn push_declared(
    alloc: Global,
    found: &mut Rows<Attribute>,
    number: usize,
    entity: &NamedEntity,
) -> Result<(), AllocError>
    ensures { OnOk result (found.new ≡ found.old ++ spec.declared_by number entity.now) }
{
    let explicit = explicit_rows(alloc, entity.explicit.as_slice())?;
    push_rows(alloc, found, number, AttributeSort::Explicit, &explicit)?;
    let derived = derived_rows(alloc, entity.derived.as_slice())?;
    push_rows(alloc, found, number, AttributeSort::Derived, &derived)?;
    push_inverse(alloc, found, number, entity.inverse.as_slice())
}

/// The attributes that entities declare, entity after entity.
pub(crate) fn declared_by_all(
    alloc: Global,
    entities: &[NamedEntity],
) -> Result<Rows<Attribute>, AllocError>
    ensures { IfOk result (λ found. found ≡ spec.of_each spec.declared_by entities.now) }
{
    let mut found = Rows::new(alloc);
    for (number, entity) in entities.iter().enumerate() {
        push_declared(alloc, &mut found, number, entity)?;
    }
    Ok(found)
}
