//! The roles of explicit attributes in the entities that declare or inherit them.

ghost use Rattle.std.specs.Prelude.{◌≡◌, ◌++◌, map, IfOk, OnOk};
ghost use Rattle.std.specs.List.{flat_map};
ghost use Rattle.plain_data.specs.Numbers.{numbered};
ghost use Rattle.ex_slots.specs.Slots as slots;
ghost use Rattle.name_tables.specs.Names.{rows_of};
ghost use Rattle.rp_meaning.specs.CompiledNames as names_spec;
ghost use Rattle.rp_compile_names.specs.Found as spec;

use crate::declared_names::explicit_of;
use crate::graph::members_of_family;
use crate::names::joined;
use ex_named::{AttributePlace, AttributeSort, NamedEntity, NamedExplicit};
use ex_tree::Name;
use name_tables::NameRows;
use plain_data::{Items, Rows};
use rp_meaning::{NamedRole, Role};
use std::alloc::{AllocError, Global};

/// Puts the explicit attributes of an entity's own behind the others.
fn push_places<'s>(
    found: &mut Vec<(&'s str, AttributePlace)>,
    entity: usize,
    rows: &[(&'s Name, &'s NamedExplicit)],
) -> Result<(), AllocError>
    ensures { OnOk result (rows_of found.new.items ≡ rows_of found.old.items ++ numbered (λ place d. (d.0.text, slots.explicit_place entity place)) (slots.rows_of rows.now)) }
{
    for (place, (name, _)) in rows.iter().enumerate() {
        let attribute = AttributePlace {
            entity,
            sort: AttributeSort::Explicit,
            place,
        };
        found.push((name.text.as_str(), attribute))?;
    }
    Ok(())
}

/// Puts the explicit attributes of the entity of this number behind the others.
fn push_explicit<'s>(
    alloc: Global,
    found: &mut Vec<(&'s str, AttributePlace)>,
    entities: &'s [NamedEntity],
    number: usize,
) -> Result<(), AllocError>
    ensures { OnOk result (rows_of found.new.items ≡ rows_of found.old.items ++ names_spec.explicit_rows entities.now number) }
{
    match entities.get(number) {
        Some(entity) => {
            let rows = explicit_of(alloc, entity)?;
            push_places(found, number, &rows)
        }
        None => Ok(()),
    }
}

/// The explicit attributes of entities.
fn explicit_of_all<'s>(
    alloc: Global,
    entities: &'s [NamedEntity],
    numbers: &[usize],
) -> Result<Vec<(&'s str, AttributePlace)>, AllocError>
    ensures { IfOk result (λ found. rows_of found.items ≡ flat_map (names_spec.explicit_rows entities.now) numbers.now) }
{
    let mut found = Vec::new(alloc);
    for number in numbers {
        push_explicit(alloc, &mut found, entities, *number)?;
    }
    Ok(found)
}

/// The explicit attributes that an entity declares or inherits.
fn inherited<'s>(
    alloc: Global,
    entities: &'s [NamedEntity],
    graph: &[Rows<usize>],
    entity: usize,
) -> Result<Vec<(&'s str, AttributePlace)>, AllocError>
    ensures { IfOk result (λ found. rows_of found.items ≡ names_spec.inherited_rows entities.now graph.now entity) }
{
    let family = members_of_family(alloc, graph, entity)?;
    explicit_of_all(alloc, entities, &family)
}

/// Attributes by their names.
fn by_names<'s>(
    alloc: Global,
    rows: &[(&'s str, AttributePlace)],
) -> Result<NameRows<'s, AttributePlace>, AllocError>
    ensures { IfOk result (λ table. table ≡ rows_of rows.now) }
{
    let mut table = NameRows::new(alloc);
    for (name, place) in rows {
        table.push(name.as_bytes(), *place)?;
    }
    Ok(table)
}

/// The role that the attributes of a name are in an entity of this name.
fn role(
    alloc: Global,
    entity: usize,
    entity_name: &str,
    name: &str,
    table: &NameRows<'_, AttributePlace>,
) -> Result<NamedRole, AllocError>
    ensures { IfOk result (λ role. role ≡ spec.role entity entity_name.now table.now name.now) }
{
    let attributes = Items::from_slice(alloc, table.get(name.as_bytes()))?;
    let name = joined(alloc, entity_name, name)?;
    Ok(NamedRole {
        name,
        role: Role::Of(entity, attributes),
    })
}

/// Puts the roles of an entity of this name and of these attributes behind the others.
fn push_roles(
    alloc: Global,
    found: &mut Items<NamedRole>,
    entity: usize,
    entity_name: &str,
    rows: &[(&str, AttributePlace)],
) -> Result<(), AllocError>
    ensures { OnOk result (found.new ≡ found.old ++ map (λ r. spec.role entity entity_name.now (rows_of rows.now) r.0) (rows_of rows.now)) }
{
    let table = by_names(alloc, rows)?;
    for (name, _) in rows {
        found.push(role(alloc, entity, entity_name, name, &table)?)?;
    }
    Ok(())
}

/// Puts the roles of an entity behind the others.
fn push_roles_of(
    alloc: Global,
    found: &mut Items<NamedRole>,
    schema_name: &str,
    entities: &[NamedEntity],
    graph: &[Rows<usize>],
    number: usize,
    entity: &NamedEntity,
) -> Result<(), AllocError>
    ensures { OnOk result (found.new ≡ found.old ++ names_spec.roles_of entities.now graph.now number (names_spec.joined schema_name.now entity.now.name.text)) }
{
    let name = joined(alloc, schema_name, entity.name.text.as_str())?;
    let rows = inherited(alloc, entities, graph, number)?;
    push_roles(alloc, found, number, name.as_str(), &rows)
}

/// The roles of all entities of a schema of this name.
pub fn roles(
    alloc: Global,
    schema_name: &str,
    entities: &[NamedEntity],
    graph: &[Rows<usize>],
) -> Result<Items<NamedRole>, AllocError>
    ensures { IfOk result (λ found. found ≡ spec.roles schema_name.now entities.now graph.now) }
{
    let mut found = Items::new(alloc);
    for (number, entity) in entities.iter().enumerate() {
        push_roles_of(
            alloc,
            &mut found,
            schema_name,
            entities,
            graph,
            number,
            entity,
        )?;
    }
    Ok(found)
}
