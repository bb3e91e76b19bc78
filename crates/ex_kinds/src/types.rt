//! The defined types of a schema.

ghost use Rattle.std.specs.Prelude.{◌≡◌, ◌++◌, length, map, IfOk, OnOk};
ghost use Rattle.std.specs.List.{filter_map, flat_map, list_any};
ghost use Rattle.graphs.specs.Graphs as graphs;
ghost use Rattle.ex_kinds.specs.Kinds.{of_name};
ghost use Rattle.ex_renamings.specs.Leading as leads;
ghost use Rattle.ex_kinds.specs.Types as spec;

use crate::data_type::{kind_of_name, kinds_of, kinds_of_one};
use crate::kind::{PlainSort, Sort, ValueKind};
use crate::kinds::Kinds;
use crate::meeting::{
    all_holding, any_holds_instance, has_elements, holds_instance, is_value, met, place_of,
};
use ex_named::{NamedType, NamedUnderlying, TypeName};
use ex_renamings::{Turned, is_marked};
use graphs::family;
use plain_data::Rows;
use std::alloc::{AllocError, Global};
use std::marker::Model;

/// The defined types of a schema: of each what a value of it may be by its declaration.
pub struct Types {
    kinds: Vec<Kinds>,
    /// Of each type the types that it is, by renaming or by selection.
    alternatives: Vec<Rows<usize>>,
    /// Of each sort, in their order, of which types a value may be of it in the end.
    sorts: Vec<Rows<bool>>,
    /// Of which types a value may have elements.
    with_elements: Vec<bool>,
    /// Of which types a value may hold an instance of an entity, where it is of no defined type itself.
    with_instances: Vec<bool>,
    /// Of which types a value may hold an instance of an entity at any depth.
    holding: Vec<bool>,
}

impl Drop for Types {
    fn drop(self) {
        let Types {
            kinds,
            alternatives,
            sorts,
            with_elements,
            with_instances,
            holding,
        } = self;
        drop(kinds);
        drop(alternatives);
        drop(sorts);
        drop(with_elements);
        drop(with_instances);
        drop(holding);
    }
}

impl Model for Types {
    ghost use Rattle.std.specs.Prelude.{◌≡◌, List, map};
    ghost use Rattle.ex_kinds.specs.Kinds.{Kinds};
    ghost use Rattle.ex_kinds.specs.Types as spec;

    ghost Value = { List Kinds };

    ghost view = { λ t. t.kinds.items };

    ghost invariant = { λ t. (t.alternatives.items ≡ spec.alternatives t.kinds.items)
        × ((t.sorts.items ≡ map (λ sort. spec.meeting t.kinds.items (spec.is_value sort)) spec.all_sorts)
        × ((t.with_elements.items ≡ spec.meeting t.kinds.items spec.has_elements)
        × ((t.with_instances.items ≡ spec.meeting t.kinds.items (spec.holds_by (spec.holding t.kinds.items)))
        × (t.holding.items ≡ spec.holding t.kinds.items)))) };
}

impl Types {
    /// The types of a schema.
    pub fn of(alloc: Global, types: &[NamedType]) -> Result<Types, AllocError>
        ensures { IfOk result (λ found. found ≡ spec.of_types types.now) }
    {
        let kinds = declared_kinds(alloc, types)?;
        let holding = all_holding(alloc, kinds.as_slice())?;
        let alternatives = alternatives(alloc, kinds.as_slice())?;
        let (sorts, with_elements, with_instances) = met(
            alloc,
            kinds.as_slice(),
            &alternatives,
            &holding,
        )?;
        Ok(Types {
            kinds,
            alternatives,
            sorts,
            with_elements,
            with_instances,
            holding,
        })
    }

    /// Of which types a value may be of this sort.
    fn of_sort(&self, sort: PlainSort) -> &[bool]
        ensures { result.now ≡ spec.meeting self.now (spec.is_value sort) }
    {
        match self.sorts.get(place_of(sort)) {
            Some(marks) => marks.as_slice(),
            None => &[],
        }
    }

    /// Whether a value of the kind may be of this sort in the end.
    fn can_be_of(&self, kind: ValueKind, sort: PlainSort) -> bool
        ensures { result ≡ spec.some_meaning self.now (spec.is_value sort) kind }
    {
        match alternative(kind) {
            Some(number) => is_marked(self.of_sort(sort), number),
            None => is_value(sort, kind),
        }
    }

    /// Whether a value of these kinds may be of this sort in the end.
    pub fn can_be(&self, kinds: &[ValueKind], sort: PlainSort) -> bool
        ensures { result ≡ spec.some_plain self.now (spec.is_value sort) kinds.now }
    {
        any_of_sort(self, kinds, sort)
    }

    fn has_elements_of(&self, kind: ValueKind) -> bool
        ensures { result ≡ spec.some_meaning self.now spec.has_elements kind }
    {
        match alternative(kind) {
            Some(number) => is_marked(&self.with_elements, number),
            None => has_elements(kind),
        }
    }

    /// Whether a value of these kinds may have elements.
    pub fn can_have_elements(&self, kinds: &[ValueKind]) -> bool
        ensures { result ≡ spec.some_plain self.now spec.has_elements kinds.now }
    {
        any_with_elements(self, kinds)
    }

    fn holds_instance_plainly(&self, kind: ValueKind) -> bool
        ensures { result ≡ spec.some_meaning self.now (spec.holds_by (spec.holding self.now)) kind }
    {
        match alternative(kind) {
            Some(number) => is_marked(&self.with_instances, number),
            None => holds_instance(&self.holding, kind),
        }
    }

    /// Whether a value of what these kinds stand for may hold an instance of an entity at any depth.
    pub fn may_hold_instance_plainly(&self, kinds: &[ValueKind]) -> bool
        ensures { result ≡ spec.may_hold_instance self.now (spec.plain self.now kinds.now) }
    {
        any_with_instances(self, kinds)
    }

    /// Whether a value may hold an instance of an entity at any depth.
    pub fn may_hold_instance(&self, kinds: &[ValueKind]) -> bool
        ensures { result ≡ spec.may_hold_instance self.now kinds.now }
    {
        any_holds_instance(&self.holding, kinds)
    }

    /// What a value of a type may be by its declaration.
    fn declared(&self, number: usize) -> &[ValueKind]
        ensures { result.now ≡ spec.declared self.now number }
    {
        match self.kinds.get(number) {
            Some(kinds) => kinds.as_slice(),
            None => &[],
        }
    }

    /// How many there are.
    pub fn len(&self) -> usize
        ensures { result ≡ length self.now }
    {
        self.kinds.len()
    }

    /// What a type is declared to be that is of no defined type itself.
    pub fn own(&self, alloc: Global, number: usize) -> Result<Kinds, AllocError>
        ensures { IfOk result (λ found. found ≡ spec.own (spec.declared self.now number)) }
    {
        let mut found = Kinds::new(alloc);
        push_own(&mut found, self.declared(number))?;
        Ok(found)
    }

    /// Of each type, whether it is marked or one of those that it is, by renaming or by selection.
    pub fn leading(&self, alloc: Global, marks: &[bool]) -> Result<Vec<bool>, AllocError>
        ensures { IfOk result (λ found. found.items ≡ leads.leading (spec.alternatives self.now) marks.now) }
    {
        Turned::of(alloc, &self.alternatives)?.leading(alloc, marks)
    }

    /// Puts what the type stands for behind the others.
    fn push_plain(&self, alloc: Global, found: &mut Kinds, number: usize) -> Result<(), AllocError>
        ensures { OnOk result (found.new ≡ found.old ++ flat_map (λ m. spec.own (spec.declared self.now m)) (graphs.family (spec.alternatives self.now) number)) }
    {
        let members = members(alloc, self.alternatives.as_slice(), number)?;
        for member in &members {
            push_own(found, self.declared(*member))?;
        }
        Ok(())
    }

    /// The kinds, where each defined type that the value itself may be of stands for what it is.
    #[tactic(auto, unfolding(crate::specs::Types::plain))]
    pub fn plain(&self, alloc: Global, kinds: &[ValueKind]) -> Result<Kinds, AllocError>
        ensures { IfOk result (λ found. found ≡ spec.plain self.now kinds.now) }
    {
        let mut found = Kinds::new(alloc);
        for kind in kinds {
            match alternative(*kind) {
                Some(number) => self.push_plain(alloc, &mut found, number)?,
                None => found.push(*kind)?,
            }
        }
        Ok(found)
    }
}

/// Whether a value of one of the kinds may be of this sort in the end.
fn any_of_sort(types: &Types, kinds: &[ValueKind], sort: PlainSort) -> bool
    ensures { result ≡ list_any (spec.some_meaning types.now (spec.is_value sort)) kinds.now }
{
    kinds.iter().any(|kind| types.can_be_of(*kind, sort))
}

/// Whether a value of one of the kinds may have elements.
fn any_with_elements(types: &Types, kinds: &[ValueKind]) -> bool
    ensures { result ≡ list_any (spec.some_meaning types.now spec.has_elements) kinds.now }
{
    kinds.iter().any(|kind| types.has_elements_of(*kind))
}

/// Whether a value of what one of the kinds stands for may hold an instance of an entity.
fn any_with_instances(types: &Types, kinds: &[ValueKind]) -> bool
    ensures { result ≡ list_any (spec.some_meaning types.now (spec.holds_by (spec.holding types.now))) kinds.now }
{
    kinds.iter().any(|kind| types.holds_instance_plainly(*kind))
}

/// A type and those that are reached from it, in ascending order.
fn members(alloc: Global, graph: &[Rows<usize>], number: usize) -> Result<Vec<usize>, AllocError>
    ensures { IfOk result (λ found. found.items ≡ graphs.family graph.now number) }
{
    family(alloc, graph, number)?.into_iter().collect(alloc)
}

/// What a value may be that is of one of the types of these names.
fn kinds_of_names(alloc: Global, names: &[TypeName]) -> Result<Kinds, AllocError>
    ensures { IfOk result (λ kinds. kinds ≡ map of_name names.now) }
{
    let mut kinds = Kinds::new(alloc);
    for name in names {
        kinds.push(kind_of_name(*name))?;
    }
    Ok(kinds)
}

/// What a value of a type may be by its declaration.
fn kinds_of_underlying(
    alloc: Global,
    number: usize,
    underlying: &NamedUnderlying,
) -> Result<Kinds, AllocError>
    ensures { IfOk result (λ kinds. kinds ≡ spec.of_underlying number underlying.now) }
{
    match underlying {
        NamedUnderlying::Enumeration(_) => kinds_of_one(alloc, Sort::Enumeration(number)),
        NamedUnderlying::Select(members) => { kinds_of_names(alloc, members.as_slice()) }
        NamedUnderlying::Data(data_type) => kinds_of(alloc, data_type),
    }
}

/// Of each type what a value of it may be by its declaration.
#[tactic(auto, unfolding(crate::specs::Types::of_types))]
fn declared_kinds(alloc: Global, types: &[NamedType]) -> Result<Vec<Kinds>, AllocError>
    ensures { IfOk result (λ found. found.items ≡ spec.of_types types.now) }
{
    let mut found = Vec::with_capacity(alloc, types.len())?;
    for (number, declared) in types.iter().enumerate() {
        found.push(kinds_of_underlying(alloc, number, &declared.underlying)?)?;
    }
    Ok(found)
}

/// The type that the value or its elements, at any depth, are of.
pub(crate) fn mentioned(kind: ValueKind) -> Option<usize>
    ensures { result ≡ spec.mentioned kind }
{
    match kind.sort {
        Sort::Defined(number) => Some(number),
        _ => None,
    }
}

/// The type that the value itself is of.
pub fn alternative(kind: ValueKind) -> Option<usize>
    ensures { result ≡ spec.alternative kind }
{
    if kind.depth == 0 {
        mentioned(kind)
    } else {
        None
    }
}

/// The types that the value itself is of.
fn alternatives_of(alloc: Global, kinds: &[ValueKind]) -> Result<Rows<usize>, AllocError>
    ensures { IfOk result (λ found. found ≡ filter_map spec.alternative kinds.now) }
{
    let found = kinds
        .iter()
        .copied()
        .filter_map(alternative)
        .collect(alloc)?;
    Ok(Rows::from_vec(found))
}

/// Of each type the types that it is, by renaming or by selection.
fn alternatives(alloc: Global, types: &[Kinds]) -> Result<Vec<Rows<usize>>, AllocError>
    ensures { IfOk result (λ graph. graph.items ≡ spec.alternatives types.now) }
{
    let mut graph = Vec::with_capacity(alloc, types.len())?;
    for kinds in types {
        graph.push(alternatives_of(alloc, kinds.as_slice())?)?;
    }
    Ok(graph)
}

/// The types that the value or its elements, at any depth, are of.
fn held_of(alloc: Global, kinds: &[ValueKind]) -> Result<Rows<usize>, AllocError>
    ensures { IfOk result (λ found. found ≡ filter_map spec.mentioned kinds.now) }
{
    let found = kinds.iter().copied().filter_map(mentioned).collect(alloc)?;
    Ok(Rows::from_vec(found))
}

/// Of each type the types that it is or that its elements are, at any depth.
pub(crate) fn held(alloc: Global, types: &[Kinds]) -> Result<Vec<Rows<usize>>, AllocError>
    ensures { IfOk result (λ graph. graph.items ≡ spec.held types.now) }
{
    let mut graph = Vec::with_capacity(alloc, types.len())?;
    for kinds in types {
        graph.push(held_of(alloc, kinds.as_slice())?)?;
    }
    Ok(graph)
}

/// Puts the kinds behind the others that are of no defined type themselves.
fn push_own(found: &mut Kinds, kinds: &[ValueKind]) -> Result<(), AllocError>
    ensures { OnOk result (found.new ≡ found.old ++ spec.own kinds.now) }
{
    for kind in kinds {
        if alternative(*kind).is_none() {
            found.push(*kind)?;
        }
    }
    Ok(())
}

/// Whether this is an instance of an entity, or may be one.
pub(crate) fn is_instance(sort: Sort) -> bool
    ensures { result ≡ spec.is_instance sort }
{
    match sort {
        Sort::Entity(_) | Sort::Instance | Sort::Generic => true,
        _ => false,
    }
}
