//! What SELECTs choose from.

ghost use Rattle.std.specs.Prelude.{◌≡◌, ◌++◌, not, map, filter, IfOk, OnOk};
ghost use Rattle.std.specs.List.{filter_map, flat_map};
ghost use Rattle.ex_named.specs.declared.reference.TypeName.TheVariants as names;
ghost use Rattle.ex_renamings.specs.Renamings.{is_select};
ghost use Rattle.graphs.specs.Graphs as graphs;
ghost use Rattle.rp_meaning.specs.CompiledTypes as spec;

use crate::graph::members_of_family;
use ex_named::{NamedDataType, NamedUnderlying, TypeName};
use ex_renamings::Renamings;
use graphs::is_in;
use plain_data::{Items, Rows};
use std::alloc::{AllocError, Global};
use std::collections::BTreeSet;
use std::slice;

/// What a type lists, or the one that it renames.
fn named_by(underlying: &NamedUnderlying) -> &[TypeName]
    ensures { result.now ≡ spec.named_by underlying.now }
{
    match underlying {
        NamedUnderlying::Select(members) => members.as_slice(),
        NamedUnderlying::Data(NamedDataType::Named(name)) => slice::from_ref(name),
        NamedUnderlying::Data(_) | NamedUnderlying::Enumeration(_) => &[],
    }
}

/// The members of a SELECT: one that renames another has it as its one member.
fn members<'s>(types: &Renamings<'s>, number: usize) -> &'s [TypeName]
    ensures { result.now ≡ spec.members types.now number }
{
    if !types.is_select(number) {
        return &[];
    }
    match types.types().get(number) {
        Some(declared) => named_by(&declared.underlying),
        None => &[],
    }
}

/// The defined types among members.
fn defined_among(alloc: Global, members: &[TypeName]) -> Result<Rows<usize>, AllocError>
    ensures { IfOk result (λ found. found ≡ filter_map spec.defined_in members.now) }
{
    let mut found = Rows::new(alloc);
    for member in members {
        if let TypeName::Defined(number) = member {
            found.push(*number)?;
        }
    }
    Ok(found)
}

/// The entities among members.
fn entities_among(alloc: Global, members: &[TypeName]) -> Result<Rows<usize>, AllocError>
    ensures { IfOk result (λ found. found ≡ filter_map spec.entity_in members.now) }
{
    let mut found = Rows::new(alloc);
    for member in members {
        if let TypeName::Entity(number) = member {
            found.push(*number)?;
        }
    }
    Ok(found)
}

/// Of each type the defined types among its members.
pub fn selection(alloc: Global, types: &Renamings<'_>) -> Result<Vec<Rows<usize>>, AllocError>
    ensures { IfOk result (λ graph. graph.items ≡ spec.selection types.now) }
{
    let mut graph = Vec::new(alloc);
    for (number, _) in types.types().iter().enumerate() {
        graph.push(defined_among(alloc, members(types, number))?)?;
    }
    Ok(graph)
}

/// Those of the types that are SELECTs.
fn selects_among(
    alloc: Global,
    types: &Renamings<'_>,
    numbers: &[usize],
) -> Result<Items<usize>, AllocError>
    ensures { IfOk result (λ found. found ≡ filter (is_select types.now) numbers.now) }
{
    let mut found = Items::new(alloc);
    for number in numbers {
        if types.is_select(*number) {
            found.push(*number)?;
        }
    }
    Ok(found)
}

/// Those of the types that are no SELECTs.
fn without_selects(
    alloc: Global,
    types: &Renamings<'_>,
    numbers: &[usize],
) -> Result<Vec<usize>, AllocError>
    ensures { IfOk result (λ found. found.items ≡ filter (λ k. not (is_select types.now k)) numbers.now) }
{
    let mut found = Vec::new(alloc);
    for number in numbers {
        if !types.is_select(*number) {
            found.push(*number)?;
        }
    }
    Ok(found)
}

/// A SELECT, and those among its members, at any depth.
pub fn selects(
    alloc: Global,
    types: &Renamings<'_>,
    graph: &[Rows<usize>],
    number: usize,
) -> Result<Items<usize>, AllocError>
    requires { graph.now ≡ spec.selection types.now }
    ensures { IfOk result (λ found. found ≡ spec.selects types.now number) }
{
    let family = members_of_family(alloc, graph, number)?;
    selects_among(alloc, types, &family)
}

/// The members of SELECTs.
fn all_members(
    alloc: Global,
    types: &Renamings<'_>,
    selects: &[usize],
) -> Result<Vec<TypeName>, AllocError>
    ensures { IfOk result (λ found. found.items ≡ flat_map (spec.members types.now) selects.now) }
{
    let mut found = Vec::new(alloc);
    for number in selects {
        found.extend_from_slice(members(types, *number))?;
    }
    Ok(found)
}

/// Each number once.
fn each_once(alloc: Global, numbers: &[usize]) -> Result<Vec<usize>, AllocError>
    ensures { IfOk result (λ found. found.items ≡ graphs.each_once numbers.now) }
{
    let mut found = Vec::new(alloc);
    let mut seen = BTreeSet::new(alloc);
    for number in numbers {
        if !is_in(&seen, *number) {
            seen.insert(*number)?;
            found.push(*number)?;
        }
    }
    Ok(found)
}

/// Puts entities behind the others.
fn push_entities(found: &mut Items<TypeName>, numbers: &[usize]) -> Result<(), AllocError>
    ensures { OnOk result (found.new ≡ found.old ++ map names.Entity numbers.now) }
{
    for number in numbers {
        found.push(TypeName::Entity(*number))?;
    }
    Ok(())
}

/// Puts defined types behind the others.
fn push_types(found: &mut Items<TypeName>, numbers: &[usize]) -> Result<(), AllocError>
    ensures { OnOk result (found.new ≡ found.old ++ map names.Defined numbers.now) }
{
    for number in numbers {
        found.push(TypeName::Defined(*number))?;
    }
    Ok(())
}

/// Puts the entities among members, each once, behind the others.
fn push_chosen_entities(
    alloc: Global,
    found: &mut Items<TypeName>,
    members: &[TypeName],
) -> Result<(), AllocError>
    ensures { OnOk result (found.new ≡ found.old ++ map names.Entity (graphs.each_once (filter_map spec.entity_in members.now))) }
{
    let entities = entities_among(alloc, members)?;
    let once = each_once(alloc, entities.as_slice())?;
    push_entities(found, &once)
}

/// Puts the defined types among members that are no SELECTs, each once, behind the others.
fn push_chosen_types(
    alloc: Global,
    types: &Renamings<'_>,
    found: &mut Items<TypeName>,
    members: &[TypeName],
) -> Result<(), AllocError>
    ensures { OnOk result (found.new ≡ found.old ++ map names.Defined (graphs.each_once (filter (λ k. not (is_select types.now k)) (filter_map spec.defined_in members.now)))) }
{
    let defined = defined_among(alloc, members)?;
    let others = without_selects(alloc, types, defined.as_slice())?;
    let once = each_once(alloc, &others)?;
    push_types(found, &once)
}

/// What a SELECT chooses from, by the SELECTs that it and its members are.
pub fn choices(
    alloc: Global,
    types: &Renamings<'_>,
    selects: &[usize],
) -> Result<Items<TypeName>, AllocError>
    ensures { IfOk result (λ found. found ≡ map names.Entity (graphs.each_once (filter_map spec.entity_in (flat_map (spec.members types.now) selects.now))) ++ map names.Defined (graphs.each_once (filter (λ k. not (is_select types.now k)) (filter_map spec.defined_in (flat_map (spec.members types.now) selects.now))))) }
{
    let members = all_members(alloc, types, selects)?;
    let mut found = Items::new(alloc);
    push_chosen_entities(alloc, &mut found, &members)?;
    push_chosen_types(alloc, types, &mut found, &members)?;
    Ok(found)
}
