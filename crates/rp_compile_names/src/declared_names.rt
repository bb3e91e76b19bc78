//! The names of the attributes that entities declare.

ghost use Rattle.std.specs.Prelude.{◌≡◌, ◌++◌, map, IfOk, OnOk};
ghost use Rattle.std.specs.List.{filter_map, flat_map};
ghost use Rattle.ex_attributes.specs.Attributes.{declared_by as attributes_of};
ghost use Rattle.ex_slots.specs.Slots as slots;
ghost use Rattle.rp_meaning.specs.CompiledNames as names_spec;
ghost use Rattle.rp_compile_names.specs.Found as spec;

use ex_named::{
    AttributePlace, AttributeSort, NamedAttribute, NamedDerived, NamedEntity, NamedExplicit,
    NamedInverse,
};
use ex_tree::Name;
use name_tables::NameRows;
use std::alloc::{AllocError, Global};

/// Puts the names of attributes that are declared together behind the others, each with their declaration.
fn push_together<'s>(
    rows: &mut Vec<(&'s Name, &'s NamedExplicit)>,
    explicit: &'s NamedExplicit,
) -> Result<(), AllocError>
    ensures { OnOk result (slots.rows_of rows.new.items ≡ slots.rows_of rows.old.items ++ slots.declared_together explicit.now) }
{
    for attribute in explicit.attributes.as_slice() {
        if let NamedAttribute::Own(name) = attribute {
            rows.push((name, explicit))?;
        }
    }
    Ok(())
}

/// The explicit attributes of an entity's own, in order, each with its declaration.
pub fn explicit_of(
    alloc: Global,
    entity: &NamedEntity,
) -> Result<Vec<(&Name, &NamedExplicit)>, AllocError>
    ensures { IfOk result (λ rows. slots.rows_of rows.items ≡ slots.declared_by entity.now) }
{
    let mut rows = Vec::new(alloc);
    for explicit in entity.explicit.as_slice() {
        push_together(&mut rows, explicit)?;
    }
    Ok(rows)
}

fn explicit_names(alloc: Global, entity: &NamedEntity) -> Result<Vec<&str>, AllocError>
    ensures { IfOk result (λ names. map (λ n. n.now) names.items ≡ map (λ d. d.0.text) (slots.declared_by entity.now)) }
{
    let rows = explicit_of(alloc, entity)?;
    let mut names = Vec::new(alloc);
    for (name, _) in &rows {
        names.push(name.text.as_str())?;
    }
    Ok(names)
}

fn derived_names(alloc: Global, list: &[NamedDerived]) -> Result<Vec<&str>, AllocError>
    ensures { IfOk result (λ names. map (λ n. n.now) names.items ≡ filter_map spec.derived_text list.now) }
{
    let mut names = Vec::new(alloc);
    for derived in list {
        if let NamedAttribute::Own(name) = &derived.attribute {
            names.push(name.text.as_str())?;
        }
    }
    Ok(names)
}

fn inverse_names(alloc: Global, list: &[NamedInverse]) -> Result<Vec<&str>, AllocError>
    ensures { IfOk result (λ names. map (λ n. n.now) names.items ≡ map (λ x. x.name.text) list.now) }
{
    let mut names = Vec::new(alloc);
    for inverse in list {
        names.push(inverse.name.text.as_str())?;
    }
    Ok(names)
}

/// Puts attributes of these names, which an entity declares so, behind the others.
fn push_named<'s>(
    table: &mut NameRows<'s, AttributePlace>,
    entity: usize,
    sort: AttributeSort,
    names: &[&'s str],
) -> Result<(), AllocError>
    ensures { OnOk result (table.new ≡ table.old ++ spec.placed entity sort (map (λ n. n.now) names.now)) }
{
    for (place, name) in names.iter().enumerate() {
        let attribute = AttributePlace {
            entity,
            sort,
            place,
        };
        table.push(name.as_bytes(), attribute)?;
    }
    Ok(())
}

/// Puts the attributes that an entity declares behind the others.
fn push_declared<'s>(
    alloc: Global,
    table: &mut NameRows<'s, AttributePlace>,
    number: usize,
    entity: &'s NamedEntity,
) -> Result<(), AllocError>
    ensures { OnOk result (table.new ≡ table.old ++ map (λ a. (a.name, a.place)) (attributes_of number entity.now)) }
{
    let explicit = explicit_names(alloc, entity)?;
    push_named(table, number, AttributeSort::Explicit, &explicit)?;
    let derived = derived_names(alloc, entity.derived.as_slice())?;
    push_named(table, number, AttributeSort::Derived, &derived)?;
    let inverse = inverse_names(alloc, entity.inverse.as_slice())?;
    push_named(table, number, AttributeSort::Inverse, &inverse)
}

/// Puts the attributes that the entity of this number declares behind the others.
fn push_own<'s>(
    alloc: Global,
    table: &mut NameRows<'s, AttributePlace>,
    entities: &'s [NamedEntity],
    number: usize,
) -> Result<(), AllocError>
    ensures { OnOk result (table.new ≡ table.old ++ names_spec.own_rows entities.now number) }
{
    match entities.get(number) {
        Some(entity) => push_declared(alloc, table, number, entity),
        None => Ok(()),
    }
}

/// The attributes that these entities declare, by their names.
pub fn attributes<'s>(
    alloc: Global,
    entities: &'s [NamedEntity],
    order: &[usize],
) -> Result<NameRows<'s, AttributePlace>, AllocError>
    ensures { IfOk result (λ table. table ≡ flat_map (names_spec.own_rows entities.now) order.now) }
{
    let mut table = NameRows::new(alloc);
    for number in order {
        push_own(alloc, &mut table, entities, *number)?;
    }
    Ok(table)
}
