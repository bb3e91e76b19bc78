//! Values that stand twice among others.

ghost use Rattle.std.specs.Prelude.{◌≡◌, ◌==◌, ◌&&◌, ◌∷◌, ◌++◌, [], IfOk, OnOk, map, nat_lt, if◌then◌else◌};
ghost use Rattle.std.specs.List.{list_any};
ghost use Rattle.std.specs.Option.{option_map};
ghost use Rattle.rp_meaning.specs.Faults as spec;
ghost use Rattle.rp_meaning.specs.Reading.{present};
ghost use Rattle.rp_operations.specs.Operations.{is_same};
ghost use Rattle.rp_faults.specs.Buckets.{all_now};
ghost use Rattle.rp_faults.specs.Twice.{places_in, repeats};

use crate::buckets::Buckets;
use crate::keys::key_of;
use rp_operations::same;
use rp_operators::all_present;
use rp_value::Value;
use std::alloc::{AllocError, Global};
use std::collections::HashSet;

/// So few are compared with each other, more by what they share.
const FEW: usize = 8;

// ---- instances alone

/// Adds the place of an instance, unless it leaves a population of so many.
fn push_place(found: &mut Vec<u64>, place: u64, count: usize) -> Result<(), AllocError>
    ensures { OnOk result (found.new.items ≡ (if nat_lt place count then found.old.items ++ place ∷ [] else found.old.items)) }
{
    if place < count as u64 {
        found.push(place)?;
    }
    Ok(())
}

/// The places of instances, without those that leave a population of so many; nothing, where another value is among them.
fn places_in(alloc: Global, items: &[Value], count: usize) -> Result<Option<Vec<u64>>, AllocError>
    ensures { IfOk result (λ found. option_map (λ places. places.items) found ≡ places_in count items.now) }
{
    let mut found = Vec::new(alloc);
    for item in items {
        let Value::Inst(place) = item else {
            return Ok(None);
        };
        push_place(&mut found, *place, count)?;
    }
    Ok(Some(found))
}

fn is_place_among(place: u64, places: &[u64]) -> bool
    ensures { result ≡ list_any (λ other. place == other) places.now }
{
    places.iter().any(|other| place == *other)
}

fn repeats_in_few(places: &[u64]) -> bool
    ensures { result ≡ repeats [] places.now }
{
    for (at, place) in places.iter().enumerate() {
        if is_place_among(*place, &places[..at]) {
            return true;
        }
    }
    false
}

fn repeats_in_many(alloc: Global, places: &[u64]) -> Result<bool, AllocError>
    ensures { IfOk result (λ b. b ≡ repeats [] places.now) }
{
    let mut before = HashSet::new(alloc);
    for place in places {
        if !before.insert(*place)? {
            return Ok(true);
        }
    }
    Ok(false)
}

/// Whether a place is there twice.
fn repeats(alloc: Global, places: &[u64]) -> Result<bool, AllocError>
    ensures { IfOk result (λ b. b ≡ repeats [] places.now) }
{
    if places.len() <= FEW {
        Ok(repeats_in_few(places))
    } else {
        repeats_in_many(alloc, places)
    }
}

// ---- all values

fn is_among(item: &Value, items: &[Value]) -> bool
    ensures { result ≡ list_any (is_same item.now) items.now }
{
    items.iter().any(|other| same(item, other).is_true())
}

fn has_twice_in_few(items: &[Value]) -> bool
    ensures { result ≡ spec.has_twice items.now }
{
    for (place, item) in items.iter().enumerate() {
        if is_among(item, &items[..place]) {
            return true;
        }
    }
    false
}

/// Whether a value is among those of its bucket.
fn is_sharing(item: &Value, others: &[&Value]) -> bool
    ensures { result ≡ list_any (is_same item.now) (all_now others.now) }
{
    for other in others {
        if same(item, *other).is_true() {
            return true;
        }
    }
    false
}

fn has_twice_in_many(alloc: Global, items: &[Value]) -> Result<bool, AllocError>
    ensures { IfOk result (λ b. b ≡ spec.has_twice items.now) }
{
    let mut before = Buckets::new(alloc, items.len())?;
    for item in items {
        let key = key_of(item);
        if is_sharing(item, before.sharing(key)) {
            return Ok(true);
        }
        before.put(key, item)?;
    }
    Ok(false)
}

/// Whether a value is there twice.
fn has_twice(alloc: Global, items: &[Value]) -> Result<bool, AllocError>
    ensures { IfOk result (λ b. b ≡ spec.has_twice items.now) }
{
    if items.len() <= FEW {
        Ok(has_twice_in_few(items))
    } else {
        has_twice_in_many(alloc, items)
    }
}

/// Whether one of some values of a population of so many instances is there twice. References that leave it equal nothing.
#[tactic(auto, using(crate::proofs::Places::places))]
fn stands_twice(alloc: Global, items: &[Value], count: usize) -> Result<bool, AllocError>
    ensures { IfOk result (λ b. b ≡ spec.has_twice (map (present count) items.now)) }
{
    if items.len() < 2 {
        return Ok(false);
    }
    match places_in(alloc, items, count)? {
        Some(places) => repeats(alloc, &places),
        None => {
            let items = all_present(items, alloc, count)?;
            has_twice(alloc, items.as_slice())
        }
    }
}

/// Whether a value is there twice where none may.
pub(crate) fn breaks_unique(
    alloc: Global,
    is_unique: bool,
    items: &[Value],
    count: usize,
) -> Result<bool, AllocError>
    ensures { IfOk result (λ b. b ≡ (is_unique && spec.has_twice (map (present count) items.now))) }
{
    if is_unique {
        stands_twice(alloc, items, count)
    } else {
        Ok(false)
    }
}
