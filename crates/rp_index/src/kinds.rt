//! The names of instances under the entities that are written with them.

ghost use Rattle.std.specs.Prelude.{◌≡◌, ◌≢◌, ◌≤◌, ◌==◌, ◌||◌, ℕ, true, length, map, IfOk, OnOk};
ghost use Rattle.std.specs.List.{flat_map};
ghost use Rattle.plain_data.specs.Numbers.{is_among};
ghost use Rattle.rp_index.specs.Pairs.{HasAll, Grows, KeepsOthers};
ghost use Rattle.rp_index.specs.Index as spec;

use rp_content::{Entities, Instance};
use std::alloc::{AllocError, Global};

/// An entity, and the names of instances that it is written with, ascending as far as nobody need rely on it.
#[derive(Drop)]
pub struct Kind {
    pub entity: usize,
    pub names: Vec<u64>,
}

/// Where the name is to stand. Most come in ascending order, and stand behind the last.
fn place_in(names: &[u64], name: u64) -> usize
    ensures { result ≤ length names.now }
{
    match names.last() {
        Some(last) if *last >= name => names.partition_point(|other| *other < name),
        _ => names.len(),
    }
}

/// The name is among them from now on.
fn enter_name(names: &mut Vec<u64>, name: u64) -> Result<(), AllocError>
    ensures { OnOk result ((n : ℕ) → is_among names.new.items n ≡ (is_among names.old.items n || name == n)) }
{
    let place = place_in(names, name);
    if place < names.len() && names[place] == name {
        return Ok(());
    }
    names.insert(place, name)?;
    Ok(())
}

/// Takes out the name. It takes no memory.
fn remove_name(names: &mut Vec<u64>, name: u64)
    ensures { (n : ℕ) → n ≢ name → is_among names.old.items n ≡ true → is_among names.new.items n ≡ true }
{
    let place = place_in(names, name);
    if place < names.len() && names[place] == name {
        let _ = names.remove(place);
    }
}

/// Where the entity is to stand.
fn place_of(kinds: &[Kind], entity: usize) -> usize
    ensures { result ≤ length kinds.now }
{
    kinds.partition_point(|kind| kind.entity < entity)
}

/// The name is under the entity from now on.
fn enter(alloc: Global, kinds: &mut Vec<Kind>, entity: usize, name: u64) -> Result<(), AllocError>
    ensures grows { OnOk result (Grows (spec.is_under kinds.old.items) (spec.is_under kinds.new.items)) }
    ensures has { OnOk result (spec.is_under kinds.new.items (entity, name) ≡ true) }
{
    let place = place_of(kinds, entity);
    if place < kinds.len() && kinds[place].entity == entity {
        return enter_name(&mut kinds[place].names, name);
    }
    let mut names = Vec::new(alloc);
    names.push(name)?;
    kinds.insert(place, Kind { entity, names })?;
    Ok(())
}

/// Takes the name from under the entity. It takes no memory.
fn remove(kinds: &mut Vec<Kind>, entity: usize, name: u64)
    ensures { KeepsOthers name (spec.is_under kinds.old.items) (spec.is_under kinds.new.items) }
{
    let place = place_of(kinds, entity);
    if place < kinds.len() && kinds[place].entity == entity {
        remove_name(&mut kinds[place].names, name);
    }
}

/// The name is under each of the entities from now on.
fn enter_each(
    alloc: Global,
    kinds: &mut Vec<Kind>,
    entities: &[usize],
    name: u64,
) -> Result<(), AllocError>
    ensures grows { OnOk result (Grows (spec.is_under kinds.old.items) (spec.is_under kinds.new.items)) }
    ensures has { OnOk result (HasAll (spec.is_under kinds.new.items) (map (λ (e : ℕ). (e, name)) entities.now)) }
{
    for entity in entities {
        enter(alloc, kinds, *entity, name)?;
    }
    Ok(())
}

/// Enters an instance.
pub fn enter_kinds(
    alloc: Global,
    kinds: &mut Vec<Kind>,
    instance: &Instance,
) -> Result<(), AllocError>
    ensures grows { OnOk result (Grows (spec.is_under kinds.old.items) (spec.is_under kinds.new.items)) }
    ensures has { OnOk result (HasAll (spec.is_under kinds.new.items) (spec.kinds_of instance.now)) }
{
    match &instance.entities {
        Entities::Leaf(entity) => enter(alloc, kinds, *entity, instance.name),
        Entities::Several(entities) => {
            enter_each(alloc, kinds, entities.as_slice(), instance.name)
        }
    }
}

/// All instances under their entities.
pub fn kinds_of(alloc: Global, instances: &[Instance]) -> Result<Vec<Kind>, AllocError>
    ensures { IfOk result (λ kinds. HasAll (spec.is_under kinds.items) (flat_map spec.kinds_of instances.now)) }
{
    let mut kinds = Vec::new(alloc);
    for instance in instances {
        enter_kinds(alloc, &mut kinds, instance)?;
    }
    Ok(kinds)
}

/// Takes the name from under each of the entities. It takes no memory.
fn remove_each(kinds: &mut Vec<Kind>, entities: &[usize], name: u64)
    ensures { KeepsOthers name (spec.is_under kinds.old.items) (spec.is_under kinds.new.items) }
{
    for entity in entities {
        remove(kinds, *entity, name);
    }
}

/// Takes out an instance. It takes no memory.
pub fn remove_kinds(kinds: &mut Vec<Kind>, instance: &Instance)
    ensures { KeepsOthers instance.now.name (spec.is_under kinds.old.items) (spec.is_under kinds.new.items) }
{
    match &instance.entities {
        Entities::Leaf(entity) => remove(kinds, *entity, instance.name),
        Entities::Several(entities) => remove_each(kinds, entities.as_slice(), instance.name),
    }
}
