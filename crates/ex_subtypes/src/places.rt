//! The places of entities among those that an expression names.

ghost use Rattle.std.specs.Prelude.{◌≡◌, ℕ, true, IfOk};
ghost use Rattle.std.specs.List.{list_any};
ghost use Rattle.std.specs.List.Sorted.{IsNonDecreasing};
ghost use Rattle.plain_data.specs.Numbers.{is_among};
ghost use Rattle.ex_subtypes.specs.Combinations.{is_distinct};
ghost use Rattle.ex_subtypes.specs.Edges.{is_that, stands_at};
ghost use Rattle.ex_subtypes.specs.Places as spec;

use crate::sets::{ascending, set_of};
use std::alloc::{AllocError, Global};
use std::collections::BTreeMap;
use std::marker::Model;

/// The entities that an expression names, in order, each once, and the place of each.
#[derive(Drop)]
pub struct Places {
    named: Vec<usize>,
    by_entity: BTreeMap<usize, usize>,
}

impl Model for Places {
    ghost use Rattle.std.specs.Prelude.{List, ℕ};
    ghost use Rattle.ex_subtypes.specs.Places as spec;

    ghost Value = { List ℕ };

    ghost view = { λ p. p.named.items };

    ghost invariant = { λ p. spec.HasPlaces p.by_entity p.named.items };
}

/// The place of each of the entities.
fn table_of(alloc: Global, named: &[usize]) -> Result<BTreeMap<usize, usize>, AllocError>
    requires { is_distinct named.now ≡ true }
    ensures { IfOk result (λ table. spec.HasPlaces table named.now) }
{
    let mut table = BTreeMap::new(alloc);
    for place in 0..named.len() {
        table.insert(named[place], place)?;
    }
    Ok(table)
}

impl Places {
    pub fn new(alloc: Global, named: Vec<usize>) -> Result<Places, AllocError>
        requires { is_distinct named.items ≡ true }
        ensures { IfOk result (λ places. places ≡ named.items) }
    {
        let by_entity = table_of(alloc, &named)?;
        Ok(Places { named, by_entity })
    }

    /// The place of this entity, if it is named.
    fn place(&self, entity: usize) -> Option<usize>
        ensures { (place : ℕ) → is_that result place ≡ stands_at self.now entity place }
    {
        self.by_entity.get(&entity).copied()
    }
}

/// The place of the member of this number, if it is named.
fn place_of(places: &Places, members: &[usize], number: usize) -> Option<usize>
    ensures { (place : ℕ) → is_that result place ≡ spec.is_place_of places.now members.now number place }
{
    match members.get(number) {
        Some(member) => places.place(*member),
        None => None,
    }
}

/// The places of those of the members that are named, in the order of their numbers.
fn places_of(
    alloc: Global,
    places: &Places,
    members: &[usize],
    numbers: &[usize],
) -> Result<Vec<usize>, AllocError>
    ensures { IfOk result (λ found. (place : ℕ) → is_among found.items place ≡ list_any (λ n. spec.is_place_of places.now members.now n place) numbers.now) }
{
    let mut found = Vec::new(alloc);
    for number in numbers {
        if let Some(place) = place_of(places, members, *number) {
            found.push(place)?;
        }
    }
    Ok(found)
}

/// The places of those of the members that are named, in ascending order.
pub fn touched(
    alloc: Global,
    places: &Places,
    members: &[usize],
    numbers: &[usize],
) -> Result<Vec<usize>, AllocError>
    ensures rising { IfOk result (λ found. IsNonDecreasing found.items) }
    ensures same { IfOk result (λ found. (place : ℕ) → is_among found.items place ≡ list_any (λ n. spec.is_place_of places.now members.now n place) numbers.now) }
{
    let found = places_of(alloc, places, members, numbers)?;
    let set = set_of(alloc, &found)?;
    let sorted = ascending(alloc, set)?;
    Ok(sorted)
}
