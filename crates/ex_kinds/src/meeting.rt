//! What is found of all types once: of which of them values may be in the end.

ghost use Rattle.std.specs.Prelude.{◌≡◌, map, slice_get, Some, IfOk};
ghost use Rattle.std.specs.List.{list_any};
ghost use Rattle.ex_kinds.specs.Types as spec;

use crate::kind::{PlainSort, Sort, ValueKind};
use crate::kinds::Kinds;
use crate::list::shallower;
use crate::types::{alternative, held, is_instance, mentioned};
use ex_renamings::{Turned, is_marked};
use plain_data::Rows;
use std::alloc::{AllocError, Global};

/// The place of a sort in their order.
pub(crate) fn place_of(sort: PlainSort) -> usize
    ensures { slice_get spec.all_sorts result ≡ Some sort }
{
    match sort {
        PlainSort::Integer => 0,
        PlainSort::Real => 1,
        PlainSort::String => 2,
        PlainSort::Binary => 3,
        PlainSort::Logical => 4,
        PlainSort::Enumeration => 5,
        PlainSort::Instance => 6,
        PlainSort::Aggregate => 7,
        PlainSort::Generic => 8,
    }
}

fn is_sort(plain: PlainSort, sort: Sort) -> bool
    ensures { result ≡ spec.is_sort plain sort }
{
    match sort {
        Sort::Integer => matches!(plain, PlainSort::Integer),
        Sort::Real => matches!(plain, PlainSort::Real),
        Sort::String => matches!(plain, PlainSort::String),
        Sort::Binary => matches!(plain, PlainSort::Binary),
        Sort::Logical => matches!(plain, PlainSort::Logical),
        Sort::Enumeration(_) => matches!(plain, PlainSort::Enumeration),
        Sort::Defined(_) => false,
        Sort::Entity(_) | Sort::Instance => matches!(plain, PlainSort::Instance),
        Sort::Aggregate => matches!(plain, PlainSort::Aggregate),
        Sort::Generic => matches!(plain, PlainSort::Generic),
    }
}

/// Whether the value itself is of the sort.
pub(crate) fn is_value(sort: PlainSort, kind: ValueKind) -> bool
    ensures { result ≡ spec.is_value sort kind }
{
    kind.depth == 0 && is_sort(sort, kind.sort)
}

/// Whether it has elements.
pub(crate) fn has_elements(kind: ValueKind) -> bool
    ensures { result ≡ spec.has_elements kind }
{
    shallower(kind).is_some()
}

/// Whether a value of the kind may hold an instance of an entity at any depth, given the types that do.
pub(crate) fn holds_instance(holding: &[bool], kind: ValueKind) -> bool
    ensures { result ≡ spec.holds_by holding.now kind }
{
    match mentioned(kind) {
        Some(number) => is_marked(holding, number),
        None => is_instance(kind.sort),
    }
}

pub(crate) fn any_holds_instance(holding: &[bool], kinds: &[ValueKind]) -> bool
    ensures { result ≡ list_any (spec.holds_by holding.now) kinds.now }
{
    kinds.iter().any(|kind| holds_instance(holding, *kind))
}

/// Whether one of these is an instance of an entity.
fn has_instance(kinds: &[ValueKind]) -> bool
    ensures { result ≡ spec.has_instance kinds.now }
{
    kinds.iter().any(|kind| is_instance(kind.sort))
}

/// Of which types a value may hold an instance of an entity at any depth.
#[tactic(auto, unfolding(crate::specs::Types::holding))]
pub(crate) fn all_holding(alloc: Global, types: &[Kinds]) -> Result<Vec<bool>, AllocError>
    ensures { IfOk result (λ found. found.items ≡ spec.holding types.now) }
{
    let held = held(alloc, types)?;
    let marks = declared_instances(alloc, types)?;
    Turned::of(alloc, &held)?.leading(alloc, &marks)
}

fn declares_sort(kinds: &[ValueKind], sort: PlainSort) -> bool
    ensures { result ≡ spec.declares (spec.is_value sort) kinds.now }
{
    kinds.iter().any(|kind| alternative(*kind).is_none() && is_value(sort, *kind))
}

fn declares_elements(kinds: &[ValueKind]) -> bool
    ensures { result ≡ spec.declares spec.has_elements kinds.now }
{
    kinds
        .iter()
        .any(|kind| alternative(*kind).is_none() && has_elements(*kind))
}

fn declares_instances(holding: &[bool], kinds: &[ValueKind]) -> bool
    ensures { result ≡ spec.declares (spec.holds_by holding.now) kinds.now }
{
    kinds.iter().any(|kind| alternative(*kind).is_none() && holds_instance(holding, *kind))
}

/// Of which types a value may be of this sort. `graph` has of each type the types that it is.
#[tactic(auto, unfolding(crate::specs::Types::meeting))]
fn of_sort(
    alloc: Global,
    types: &[Kinds],
    graph: &Turned<'_>,
    sort: PlainSort,
) -> Result<Rows<bool>, AllocError>
    requires { graph.now ≡ spec.alternatives types.now }
    ensures { IfOk result (λ found. found ≡ spec.meeting types.now (spec.is_value sort)) }
{
    let marks = declared_of_sort(alloc, types, sort)?;
    Ok(Rows::from_vec(graph.leading(alloc, &marks)?))
}

/// The sorts, in their order.
static SORTS: [PlainSort; 9] = [
    PlainSort::Integer,
    PlainSort::Real,
    PlainSort::String,
    PlainSort::Binary,
    PlainSort::Logical,
    PlainSort::Enumeration,
    PlainSort::Instance,
    PlainSort::Aggregate,
    PlainSort::Generic,
];

/// Of each of these sorts, of which types a value may be of it.
fn of_sorts(
    alloc: Global,
    types: &[Kinds],
    graph: &Turned<'_>,
    sorts: &[PlainSort],
) -> Result<Vec<Rows<bool>>, AllocError>
    requires { graph.now ≡ spec.alternatives types.now }
    ensures { IfOk result (λ found. found.items ≡ map (λ sort. spec.meeting types.now (spec.is_value sort)) sorts.now) }
{
    let mut found = Vec::with_capacity(alloc, sorts.len())?;
    for sort in sorts {
        found.push(of_sort(alloc, types, graph, *sort)?)?;
    }
    Ok(found)
}

/// Of which types a value may have elements.
#[tactic(auto, unfolding(crate::specs::Types::meeting))]
fn all_with_elements(
    alloc: Global,
    types: &[Kinds],
    graph: &Turned<'_>,
) -> Result<Vec<bool>, AllocError>
    requires { graph.now ≡ spec.alternatives types.now }
    ensures { IfOk result (λ found. found.items ≡ spec.meeting types.now spec.has_elements) }
{
    let marks = declared_with_elements(alloc, types)?;
    graph.leading(alloc, &marks)
}

/// Of which types a value may hold an instance of an entity, where it is of no defined type itself.
#[tactic(auto, unfolding(crate::specs::Types::meeting))]
fn all_with_instances(
    alloc: Global,
    types: &[Kinds],
    graph: &Turned<'_>,
    holding: &[bool],
) -> Result<Vec<bool>, AllocError>
    requires { graph.now ≡ spec.alternatives types.now }
    ensures { IfOk result (λ found. found.items ≡ spec.meeting types.now (spec.holds_by holding.now)) }
{
    let marks = declared_with_instances(alloc, types, holding)?;
    graph.leading(alloc, &marks)
}

/// What is found of all types.
pub(crate) fn met(
    alloc: Global,
    types: &[Kinds],
    alternatives: &[Rows<usize>],
    holding: &[bool],
) -> Result<(Vec<Rows<bool>>, Vec<bool>, Vec<bool>), AllocError>
    requires alternatives { alternatives.now ≡ spec.alternatives types.now }
    ensures sorts { IfOk result (λ found. found.0.items ≡ map (λ sort. spec.meeting types.now (spec.is_value sort)) spec.all_sorts) }
    ensures elements { IfOk result (λ found. found.1.items ≡ spec.meeting types.now spec.has_elements) }
    ensures instances { IfOk result (λ found. found.2.items ≡ spec.meeting types.now (spec.holds_by holding.now)) }
{
    let graph = Turned::of(alloc, alternatives)?;
    let sorts = of_sorts(alloc, types, &graph, &SORTS)?;
    let with_elements = all_with_elements(alloc, types, &graph)?;
    let with_instances = all_with_instances(alloc, types, &graph, holding)?;
    Ok((sorts, with_elements, with_instances))
}

/// Which types declare such a kind that is of no defined type.
fn declared_of_sort(
    alloc: Global,
    types: &[Kinds],
    sort: PlainSort,
) -> Result<Vec<bool>, AllocError>
    ensures { IfOk result (λ found. found.items ≡ map (spec.declares (spec.is_value sort)) types.now) }
{
    types
        .iter()
        .map(|kinds| declares_sort(kinds.as_slice(), sort))
        .collect(alloc)
}

/// Which types declare such a kind that is of no defined type.
fn declared_with_elements(alloc: Global, types: &[Kinds]) -> Result<Vec<bool>, AllocError>
    ensures { IfOk result (λ found. found.items ≡ map (spec.declares spec.has_elements) types.now) }
{
    let mut found = Vec::with_capacity(alloc, types.len())?;
    for kinds in types {
        found.push(declares_elements(kinds.as_slice()))?;
    }
    Ok(found)
}

/// Which types declare such a kind that is of no defined type.
fn declared_with_instances(
    alloc: Global,
    types: &[Kinds],
    holding: &[bool],
) -> Result<Vec<bool>, AllocError>
    ensures { IfOk result (λ found. found.items ≡ map (spec.declares (spec.holds_by holding.now)) types.now) }
{
    types
        .iter()
        .map(|kinds| declares_instances(holding, kinds.as_slice()))
        .collect(alloc)
}

/// Which types declare such a kind that is of no defined type.
fn declared_instances(alloc: Global, types: &[Kinds]) -> Result<Vec<bool>, AllocError>
    ensures { IfOk result (λ found. found.items ≡ map (spec.has_instance) types.now) }
{
    let mut found = Vec::with_capacity(alloc, types.len())?;
    for kinds in types {
        found.push(has_instance(kinds.as_slice()))?;
    }
    Ok(found)
}
