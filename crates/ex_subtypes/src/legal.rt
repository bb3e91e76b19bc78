//! Which sets of entities are legal.

ghost use Rattle.std.specs.Prelude.{◌≡◌, ℕ, ◌&&◌, not, IfOk};
ghost use Rattle.std.specs.Cmp.Lexicographic.{slice_cmp};
ghost use Rattle.std.specs.Ordering.{is_lt, nat_cmp};
ghost use Rattle.plain_data.specs.Numbers.{is_among};
ghost use Rattle.ex_subtypes.specs.Edges as edges;
ghost use Rattle.ex_subtypes.specs.Legal as spec;
ghost use Rattle.ex_subtypes.specs.Nodes as nodes;

use crate::choices::is_neither;
use crate::constraints::{Constraint, constraint_at};
use crate::entity_set::EntitySet;
use crate::family::all_supertypes;
use crate::graph::{connected_below, is_closed};
use crate::places::touched;
use crate::walks::taken_at;
use ex_named::NamedEntity;
use graphs::{is_in, supertypes};
use plain_data::Rows;
use std::alloc::{AllocError, Global};
use std::cmp::Ordering;
use std::collections::BTreeSet;

/// Why no instance may have a set of entities.
#[derive(Clone, Copy, PartialEq, Eq)]
pub enum Illegal {
    /// A supertype of a member isn't there.
    NotClosed,
    /// The set has no members, or falls apart.
    NotConnected,
    /// The named subtypes of this entity that are there are no combination that it allows.
    Violates(usize),
    /// This entity is abstract, and no direct subtype of it is there.
    Abstract(usize),
}

/// Whether the set breaks the expression of the entity of this number, where these are the places of the members below it.
fn breaks(
    alloc: Global,
    entities: &[NamedEntity],
    constraints: &[Option<Constraint>],
    set: &EntitySet,
    number: usize,
    below: &[usize],
) -> Result<bool, AllocError>
    requires readable { spec.AreReadable entities.now }
    requires kept { constraints.now ≡ nodes.all_kept entities.now }
    requires below { (n : ℕ) → is_among below.now n ≡ edges.is_below (spec.graph entities.now) set.now number n }
    ensures { IfOk result (λ found. found ≡ spec.breaks entities.now set.now number) }
{
    match constraint_at(constraints, number) {
        Some(constraint) => {
            let places = touched(alloc, &constraint.places, set.as_slice(), below)?;
            Ok(is_neither(taken_at(&constraint.node, &places)))
        }
        None => Ok(false),
    }
}

/// Whether the entity of this number is abstract.
pub(crate) fn is_abstract(entities: &[NamedEntity], number: usize) -> bool
    ensures { result ≡ spec.is_abstract entities.now number }
{
    match entities.get(number) {
        Some(entity) => entity.is_abstract,
        None => false,
    }
}

fn name(entities: &[NamedEntity], number: usize) -> &str
    ensures { result.now ≡ spec.name entities.now number }
{
    match entities.get(number) {
        Some(entity) => entity.name.text.as_str(),
        None => "",
    }
}

/// Whether the name of one entity comes before that of another.
fn is_before(entities: &[NamedEntity], one: usize, other: usize) -> bool
    ensures { result ≡ is_lt (slice_cmp nat_cmp (spec.name entities.now one) (spec.name entities.now other)) }
{
    match name(entities, one).cmp(name(entities, other)) {
        Ordering::Less => true,
        _ => false,
    }
}

/// The one whose name comes first in byte order.
fn earlier(entities: &[NamedEntity], best: Option<usize>, number: usize) -> Option<usize>
    ensures { result ≡ spec.earlier entities.now best number }
{
    match best {
        Some(best) if !is_before(entities, number, best) => Some(best),
        _ => Some(number),
    }
}

/// Of the members of which an expression is broken, the one whose name comes first. Of each these are the places of the
/// members directly below it.
fn first_broken(
    alloc: Global,
    entities: &[NamedEntity],
    constraints: &[Option<Constraint>],
    set: &EntitySet,
    below: &[Rows<usize>],
) -> Result<Option<usize>, AllocError>
    requires readable { spec.AreReadable entities.now }
    requires kept { constraints.now ≡ nodes.all_kept entities.now }
    requires below { edges.AreBelow (spec.graph entities.now) set.now below.now }
    ensures { IfOk result (λ found. found ≡ spec.first_of entities.now (spec.breaks entities.now set.now) set.now) }
{
    let members = set.as_slice();
    let mut best = None;
    for place in 0..members.len() {
        let member = members[place];
        if breaks(
            alloc,
            entities,
            constraints,
            set,
            member,
            supertypes(below, place),
        )? {
            best = earlier(entities, best, member);
        }
    }
    Ok(best)
}

/// Of the members that are abstract and not above another, the one whose name comes first.
fn first_below(entities: &[NamedEntity], above: &BTreeSet<usize>, set: &EntitySet) -> Option<usize>
    ensures { result ≡ spec.first_of entities.now (λ e. spec.is_abstract entities.now e && not (is_among above.now.keys e)) set.now }
{
    let mut best = None;
    for member in set.as_slice() {
        if is_abstract(entities, *member) && !is_in(above, *member) {
            best = earlier(entities, best, *member);
        }
    }
    best
}

/// Of the abstract members without a direct subtype, the one whose name comes first.
fn first_bare(
    alloc: Global,
    entities: &[NamedEntity],
    set: &EntitySet,
) -> Result<Option<usize>, AllocError>
    ensures { IfOk result (λ found. found ≡ spec.first_of entities.now (spec.is_bare entities.now set.now) set.now) }
{
    let above = all_supertypes(alloc, entities, set.as_slice())?;
    Ok(first_below(entities, &above, set))
}

/// Why the set is not legal.
#[tactic(auto, unfolding(crate::specs::Legal::refusal))]
pub fn refusal(
    alloc: Global,
    entities: &[NamedEntity],
    constraints: &[Option<Constraint>],
    set: &EntitySet,
) -> Result<Option<Illegal>, AllocError>
    requires readable { spec.AreReadable entities.now }
    requires kept { constraints.now ≡ nodes.all_kept entities.now }
    ensures { IfOk result (λ found. found ≡ spec.refusal entities.now set.now) }
{
    if !is_closed(entities, set) {
        return Ok(Some(Illegal::NotClosed));
    }
    let Some(below) = connected_below(alloc, entities, set)? else {
        return Ok(Some(Illegal::NotConnected));
    };
    if let Some(entity) = first_broken(alloc, entities, constraints, set, &below)? {
        return Ok(Some(Illegal::Violates(entity)));
    }
    match first_bare(alloc, entities, set)? {
        Some(entity) => Ok(Some(Illegal::Abstract(entity))),
        None => Ok(None),
    }
}
