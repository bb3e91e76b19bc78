//! The steps between the members of a set, which are numbered by their places in it.

ghost use Rattle.std.specs.Prelude.{◌≡◌, ℕ, ◌&&◌, ◌||◌, ◌==◌, nat_lt, length, zero, is_some, IfOk, IfSome};
ghost use Rattle.std.specs.List.{list_all};
ghost use Rattle.plain_data.specs.Numbers.{is_among};
ghost use Rattle.graphs.specs.Graphs as graphs;
ghost use Rattle.ex_subtypes.specs.Edges as edges;
ghost use Rattle.ex_subtypes.specs.Legal as spec;

use crate::entity_set::EntitySet;
use crate::family::supertypes_of;
use ex_named::NamedEntity;
use graphs::{all_above, is_in, subtypes, supertypes};
use plain_data::Rows;
use std::alloc::{AllocError, Global};
use std::collections::BTreeSet;

/// Whether all supertypes of the members are there.
pub fn is_closed(entities: &[NamedEntity], set: &EntitySet) -> bool
    ensures { result ≡ spec.is_closed (spec.graph entities.now) set.now }
{
    for member in set.as_slice() {
        if !all_there(set, supertypes_of(entities, *member)) {
            return false;
        }
    }
    true
}

fn all_there(set: &EntitySet, numbers: &[usize]) -> bool
    ensures { result ≡ list_all (is_among set.now) numbers.now }
{
    numbers.iter().all(|number| set.has(*number))
}

/// The places of those of the numbers that are there.
fn places_of(alloc: Global, set: &EntitySet, numbers: &[usize]) -> Result<Rows<usize>, AllocError>
    ensures { IfOk result (λ places. (n : ℕ) → is_among places n ≡ edges.one_stands_at set.now numbers.now n) }
{
    let mut places = Vec::new(alloc);
    for number in numbers {
        if let Some(place) = set.place(*number) {
            places.push(place)?;
        }
    }
    Ok(Rows::from_vec(places))
}

/// The steps from each member up to its supertypes.
fn steps_up(
    alloc: Global,
    entities: &[NamedEntity],
    set: &EntitySet,
) -> Result<Vec<Rows<usize>>, AllocError>
    ensures length { IfOk result (λ up. length up.items ≡ length set.now) }
    ensures up { IfOk result (λ up. (e n : ℕ) → is_among (graphs.supertypes up.items e) n ≡ edges.goes_up (spec.graph entities.now) set.now e n) }
{
    let members = set.as_slice();
    let mut up = Vec::with_capacity(alloc, members.len())?;
    for place in 0..members.len() {
        up.push(places_of(alloc, set, supertypes_of(entities, members[place]))?)?;
    }
    Ok(up)
}

/// The first numbers, and then the second.
fn joined(alloc: Global, first: &[usize], second: &[usize]) -> Result<Rows<usize>, AllocError>
    ensures { IfOk result (λ both. (n : ℕ) → is_among both n ≡ (is_among first.now n || is_among second.now n)) }
{
    let mut both = Vec::from_slice(alloc, first)?;
    both.extend_from_slice(second)?;
    Ok(Rows::from_vec(both))
}

/// The steps of both graphs, which have as many members.
fn all_joined(
    alloc: Global,
    one: &[Rows<usize>],
    other: &[Rows<usize>],
) -> Result<Vec<Rows<usize>>, AllocError>
    requires { length other.now ≡ length one.now }
    ensures { IfOk result (λ both. (e n : ℕ) → is_among (graphs.supertypes both.items e) n ≡ (is_among (graphs.supertypes one.now e) n || is_among (graphs.supertypes other.now e) n)) }
{
    let mut both = Vec::with_capacity(alloc, one.len())?;
    for place in 0..one.len() {
        both.push(joined(alloc, supertypes(one, place), supertypes(other, place))?)?;
    }
    Ok(both)
}

fn is_reached(reached: &BTreeSet<usize>, place: usize) -> bool
    ensures { result ≡ (place == zero || is_among reached.now.keys place) }
{
    place == 0 || is_in(reached, place)
}

/// Whether each of so many places is 0 or was reached, and there is one.
fn are_reached(reached: &BTreeSet<usize>, count: usize) -> bool
    ensures { result ≡ (nat_lt zero count && list_all (λ place. place == zero || is_among reached.now.keys place) (graphs.numbers_from zero count)) }
{
    for place in 0..count {
        if !is_reached(reached, place) {
            return false;
        }
    }
    0 < count
}

/// For each member the places of those directly below it, if every member is reached from the first.
pub fn connected_below(
    alloc: Global,
    entities: &[NamedEntity],
    set: &EntitySet,
) -> Result<Option<Vec<Rows<usize>>>, AllocError>
    ensures connected { IfOk result (λ below. is_some below ≡ spec.is_connected (spec.graph entities.now) set.now) }
    ensures below { IfOk result (λ below. IfSome below (λ rows. edges.AreBelow (spec.graph entities.now) set.now rows.items)) }
{
    let up = steps_up(alloc, entities, set)?;
    let down = subtypes(alloc, &up)?;
    let both = all_joined(alloc, &up, &down)?;
    let reached = all_above(alloc, &both, 0)?;
    if are_reached(&reached, set.as_slice().len()) {
        Ok(Some(down))
    } else {
        Ok(None)
    }
}
