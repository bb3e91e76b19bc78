//! What redeclares attributes in DERIVE.

ghost use Rattle.std.specs.Prelude.{◌≡◌, ◌++◌, [], length, replicate, IfOk, OnOk};
ghost use Rattle.std.specs.List.{filter_map, flat_map};
ghost use Rattle.plain_data.specs.Numbers.{numbered};
ghost use Rattle.ex_attributes.specs.Attributes.{same_place, sort_number as number_of};
ghost use Rattle.ex_slots.specs.Slots as slots;
ghost use Rattle.graphs.specs.Graphs.{family as family_of};
ghost use Rattle.rp_meaning.specs.Compiled as compiled;
ghost use Rattle.rp_compile_names.specs.Found as spec;
ghost use Rattle.rp_compile_names.specs.Rows.{put_all, row as row_of};

use crate::rows::{concatenated, empty_rows, put};
use ex_named::{
    AttributeMeaning, AttributePlace, AttributeSort, NamedAttribute, NamedDerived, NamedEntity,
};
use graphs::family;
use plain_data::{Items, Rows};
use rp_meaning::Derivation;
use std::alloc::{AllocError, Global};

/// An inherited attribute, and what gives it its value.
pub type Rederived = (AttributePlace, Derivation);

/// The declaration that is redeclared there.
fn derived_place(derived: &NamedDerived) -> Option<AttributePlace>
    ensures { result ≡ slots.derived_place derived.now }
{
    let NamedAttribute::Redeclared(redeclaration) = &derived.attribute else {
        return None;
    };
    match redeclaration.attribute.meaning {
        AttributeMeaning::One(place) => Some(place),
        AttributeMeaning::Several => None,
    }
}

/// Puts what redeclares attributes in a DERIVE clause behind the others.
fn push_derived(
    found: &mut Vec<Rederived>,
    entity: usize,
    list: &[NamedDerived],
) -> Result<(), AllocError>
    ensures { OnOk result (found.new.items ≡ found.old.items ++ filter_map (λ d. d) (numbered (compiled.rederived entity) list.now)) }
{
    for (place, derived) in list.iter().enumerate() {
        if let Some(attribute) = derived_place(derived) {
            found.push((attribute, Derivation { entity, place }))?;
        }
    }
    Ok(())
}

/// Puts what redeclares attributes in the DERIVE clause of the entity of this number behind the others.
fn push_derived_by(
    found: &mut Vec<Rederived>,
    entities: &[NamedEntity],
    number: usize,
) -> Result<(), AllocError>
    ensures { OnOk result (found.new.items ≡ found.old.items ++ spec.rederived_by entities.now number) }
{
    match entities.get(number) {
        Some(entity) => push_derived(found, number, entity.derived.as_slice()),
        None => Ok(()),
    }
}

/// What redeclares attributes in the DERIVE clauses of these entities.
fn derived_by_all(
    alloc: Global,
    entities: &[NamedEntity],
    numbers: &[usize],
) -> Result<Vec<Rederived>, AllocError>
    ensures { IfOk result (λ found. found.items ≡ flat_map (spec.rederived_by entities.now) numbers.now) }
{
    let mut found = Vec::new(alloc);
    for number in numbers {
        push_derived_by(&mut found, entities, *number)?;
    }
    Ok(found)
}

/// How many entities stand above one, and itself.
fn depth(alloc: Global, graph: &[Rows<usize>], entity: usize) -> Result<usize, AllocError>
    ensures { IfOk result (λ depth. depth ≡ length (family_of graph.now entity)) }
{
    Ok(family(alloc, graph, entity)?.len())
}

/// These entities by how many of all don't stand above them.
fn rows_by_depth(
    alloc: Global,
    graph: &[Rows<usize>],
    order: &[usize],
) -> Result<Vec<Items<usize>>, AllocError>
    ensures { IfOk result (λ rows. rows.items ≡ put_all (replicate (length graph.now) []) (spec.by_depth graph.now order.now)) }
{
    let mut rows = empty_rows(alloc, graph.len())?;
    for entity in order {
        let depth = depth(alloc, graph, *entity)?;
        put(&mut rows, graph.len().saturating_sub(depth), *entity)?;
    }
    Ok(rows)
}

/// These entities, those with most ancestors first, and of several such in the order in which they stand here.
fn deepest_first(
    alloc: Global,
    graph: &[Rows<usize>],
    order: &[usize],
) -> Result<Items<usize>, AllocError>
    ensures { IfOk result (λ found. found ≡ spec.deepest_first graph.now order.now) }
{
    let rows = rows_by_depth(alloc, graph, order)?;
    concatenated(alloc, &rows)
}

/// What redeclares attributes in DERIVE in so many rows, each in that of the entity whose attribute it redeclares.
fn rows_by_entity(
    alloc: Global,
    count: usize,
    list: &[Rederived],
) -> Result<Vec<Items<Rederived>>, AllocError>
    ensures { IfOk result (λ rows. rows.items ≡ put_all (replicate count []) (spec.by_entity list.now)) }
{
    let mut rows = empty_rows(alloc, count)?;
    for rederived in list {
        put(&mut rows, rederived.0.entity, *rederived)?;
    }
    Ok(rows)
}

/// What redeclares attributes in DERIVE, those of each entity in its row.
pub fn rederived_rows(
    alloc: Global,
    entities: &[NamedEntity],
    graph: &[Rows<usize>],
    order: &[usize],
) -> Result<Vec<Items<Rederived>>, AllocError>
    ensures { IfOk result (λ rows. rows.items ≡ put_all (replicate (length entities.now) []) (spec.by_entity (flat_map (spec.rederived_by entities.now) (spec.deepest_first graph.now order.now)))) }
{
    let numbers = deepest_first(alloc, graph, order)?;
    let all = derived_by_all(alloc, entities, numbers.as_slice())?;
    rows_by_entity(alloc, entities.len(), &all)
}

fn sort_number(sort: AttributeSort) -> usize
    ensures { result ≡ number_of sort }
{
    match sort {
        AttributeSort::Explicit => 0,
        AttributeSort::Derived => 1,
        AttributeSort::Inverse => 2,
    }
}

fn is_same_place(a: AttributePlace, b: AttributePlace) -> bool
    ensures { result ≡ same_place a b }
{
    a.entity == b.entity && sort_number(a.sort) == sort_number(b.sort) && a.place == b.place
}

/// What redeclares this attribute.
pub fn derivations(
    alloc: Global,
    rederived: &[Rederived],
    attribute: AttributePlace,
) -> Result<Items<Derivation>, AllocError>
    ensures { IfOk result (λ found. found ≡ spec.derivations rederived.now attribute) }
{
    let mut found = Items::new(alloc);
    for (place, derivation) in rederived {
        if is_same_place(*place, attribute) {
            found.push(*derivation)?;
        }
    }
    Ok(found)
}

/// Those of the entity of this number.
pub fn rederived_of(rows: &[Items<Rederived>], number: usize) -> &[Rederived]
    ensures { result.now ≡ row_of rows.now number }
{
    match rows.get(number) {
        Some(row) => row.as_slice(),
        None => &[],
    }
}
