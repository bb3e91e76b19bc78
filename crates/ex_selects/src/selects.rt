//! What SELECTs choose from.

ghost use Rattle.std.specs.Prelude.{◌≡◌, ◌++◌, map, not, filter, length, IfOk, OnOk};
ghost use Rattle.std.specs.List.{filter_map, list_any};
ghost use Rattle.ex_renamings.specs.Renamings.{is_select};
ghost use Rattle.graphs.specs.Graphs as graphs;
ghost use Rattle.ex_selects.specs.Ends as spec;
ghost use Rattle.ex_selects.specs.Shared as shared;

use ex_named::{NamedUnderlying, TypeName};
use ex_renamings::{Renamings, Turned};
use graphs::family;
use plain_data::Rows;
use std::alloc::{AllocError, Global};

fn members_by(underlying: &NamedUnderlying) -> &[TypeName]
    ensures { result.now ≡ spec.members_by underlying.now }
{
    match underlying {
        NamedUnderlying::Select(members) => members.as_slice(),
        NamedUnderlying::Enumeration(_) | NamedUnderlying::Data(_) => &[],
    }
}

/// The members of the SELECT that a type is.
pub fn members<'s>(types: &Renamings<'s>, number: usize) -> &'s [TypeName]
    ensures { result.now ≡ spec.members types.now number }
{
    match types.types().get(types.end(number)) {
        Some(declared) => members_by(&declared.underlying),
        None => &[],
    }
}

fn defined(name: TypeName) -> Option<usize>
    ensures { result ≡ spec.defined name }
{
    match name {
        TypeName::Defined(number) => Some(number),
        TypeName::Entity(_) => None,
    }
}

/// The SELECT that a type renames, through any number of renamings; itself, where it is none or renames none.
pub fn unrenamed(types: &Renamings<'_>, number: usize) -> usize
    ensures { result ≡ shared.unrenamed types.now number }
{
    if types.is_select(number) {
        types.end(number)
    } else {
        number
    }
}

/// The defined types among members; for one that renames a SELECT, this SELECT.
fn defined_among(
    alloc: Global,
    types: &Renamings<'_>,
    members: &[TypeName],
) -> Result<Rows<usize>, AllocError>
    ensures { IfOk result (λ found. found ≡ map (shared.unrenamed types.now) (filter_map spec.defined members.now)) }
{
    let mut found = Rows::new(alloc);
    for name in members {
        if let Some(number) = defined(*name) {
            found.push(unrenamed(types, number))?;
        }
    }
    Ok(found)
}

/// What a type chooses from at once. One that renames a SELECT has nothing: that SELECT is asked in its place.
fn chosen_at_once(
    alloc: Global,
    types: &Renamings<'_>,
    number: usize,
) -> Result<Rows<usize>, AllocError>
    ensures { IfOk result (λ found. found ≡ shared.chosen_at_once types.now number) }
{
    if unrenamed(types, number) == number {
        defined_among(alloc, types, members(types, number))
    } else {
        Ok(Rows::new(alloc))
    }
}

fn is_entity(name: TypeName) -> bool
    ensures { result ≡ spec.is_entity name }
{
    match name {
        TypeName::Entity(_) => true,
        TypeName::Defined(_) => false,
    }
}

fn has_entity(members: &[TypeName]) -> bool
    ensures { result ≡ list_any spec.is_entity members.now }
{
    members.iter().any(|name| is_entity(*name))
}

/// Whether a type lists an entity. One that renames a SELECT doesn't: that SELECT is asked in its place.
fn lists_entity(types: &Renamings<'_>, number: usize) -> bool
    ensures { result ≡ shared.lists_entity types.now number }
{
    unrenamed(types, number) == number && has_entity(members(types, number))
}

/// Of each type what it chooses from at once.
#[tactic(auto, unfolding(crate::specs::Shared::shared))]
pub fn shared_selection(
    alloc: Global,
    types: &Renamings<'_>,
) -> Result<Vec<Rows<usize>>, AllocError>
    ensures { IfOk result (λ graph. graph.items ≡ shared.shared types.now) }
{
    let mut graph = Vec::with_capacity(alloc, types.types().len())?;
    for (number, _) in types.types().iter().enumerate() {
        graph.push(chosen_at_once(alloc, types, number)?)?;
    }
    Ok(graph)
}

/// A type and those that it chooses from.
fn family_of(alloc: Global, graph: &[Rows<usize>], number: usize) -> Result<Vec<usize>, AllocError>
    ensures { IfOk result (λ found. found.items ≡ graphs.family graph.now number) }
{
    family(alloc, graph, number)?.into_iter().collect(alloc)
}

/// Those of the types that are no SELECTs.
fn without_selects(
    alloc: Global,
    types: &Renamings<'_>,
    numbers: &[usize],
) -> Result<Vec<usize>, AllocError>
    ensures { IfOk result (λ found. found.items ≡ filter (λ k. not (is_select types.now k)) numbers.now) }
{
    let mut found = Vec::new(alloc);
    for number in numbers {
        if !types.is_select(*number) {
            found.push(*number)?;
        }
    }
    Ok(found)
}

/// The defined types that a value of a SELECT may be of, by a walk.
#[tactic(auto, using(crate::proofs::Renamed::choices_shared))]
pub fn walked_choices(
    alloc: Global,
    types: &Renamings<'_>,
    graph: &[Rows<usize>],
    number: usize,
) -> Result<Vec<usize>, AllocError>
    requires { graph.now ≡ shared.shared types.now }
    ensures { IfOk result (λ found. found.items ≡ spec.choices types.now number) }
{
    let family = family_of(alloc, graph, unrenamed(types, number))?;
    without_selects(alloc, types, &family)
}

/// Of each type whether it lists an entity.
#[tactic(auto, unfolding(crate::specs::Shared::listing))]
fn listing(alloc: Global, types: &Renamings<'_>) -> Result<Vec<bool>, AllocError>
    ensures { IfOk result (λ marks. marks.items ≡ shared.listing types.now) }
{
    let mut marks = Vec::with_capacity(alloc, types.types().len())?;
    for (number, _) in types.types().iter().enumerate() {
        marks.push(lists_entity(types, number))?;
    }
    Ok(marks)
}

/// Of each type whether it, or one that it chooses from, lists an entity.
#[tactic(auto, unfolding(crate::specs::Shared::with_instances))]
pub fn with_instances(
    alloc: Global,
    types: &Renamings<'_>,
    graph: &[Rows<usize>],
) -> Result<Vec<bool>, AllocError>
    requires { graph.now ≡ shared.shared types.now }
    ensures { IfOk result (λ marks. marks.items ≡ shared.with_instances types.now) }
{
    let marks = listing(alloc, types)?;
    Turned::of(alloc, graph)?.leading(alloc, &marks)
}
