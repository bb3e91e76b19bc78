//! The explicit attributes of an instance.

ghost use Rattle.std.specs.Prelude.{◌≡◌, ◌++◌, ◌||◌, ℕ, map, IfOk, OnOk};
ghost use Rattle.std.specs.List.{filter_map, flat_map};
ghost use Rattle.plain_data.specs.Numbers.{numbered};
ghost use Rattle.ex_slots.specs.Slots as spec;

use crate::slot::Slot;
use ex_named::{
    AttributeMeaning, AttributePlace, AttributeSort, NamedAttribute, NamedDerived, NamedEntity,
    NamedExplicit,
};
use ex_tree::Name;
use plain_data::Rows;
use std::alloc::{AllocError, Global};
use std::collections::BTreeSet;

/// Places of explicit attributes: the entity, and the place there.
type Places = BTreeSet<(usize, usize)>;

/// The declaration that is redeclared there.
fn derived_place(derived: &NamedDerived) -> Option<AttributePlace>
    ensures { result ≡ spec.derived_place derived.now }
{
    let NamedAttribute::Redeclared(redeclaration) = &derived.attribute else {
        return None;
    };
    match redeclaration.attribute.meaning {
        AttributeMeaning::One(place) => Some(place),
        AttributeMeaning::Several => None,
    }
}

/// Puts a place of an explicit attribute into the set.
fn insert_explicit(found: &mut Places, place: AttributePlace) -> Result<(), AllocError>
    ensures { OnOk result ((e p : ℕ) → spec.has found.new.keys e p ≡ (spec.has found.old.keys e p || spec.is_explicit_at e p place)) }
{
    if place.sort == AttributeSort::Explicit {
        found.insert((place.entity, place.place))?;
    }
    Ok(())
}

/// Puts the explicit attributes that are redeclared in DERIVE into the set.
fn insert_derived(found: &mut Places, list: &[NamedDerived]) -> Result<(), AllocError>
    ensures { OnOk result ((e p : ℕ) → spec.has found.new.keys e p ≡ (spec.has found.old.keys e p || spec.is_derived (filter_map spec.derived_place list.now) e p)) }
{
    for derived in list {
        if let Some(place) = derived_place(derived) {
            insert_explicit(found, place)?;
        }
    }
    Ok(())
}

/// Puts the explicit attributes that the entity of this number redeclares in DERIVE into the set.
fn insert_derived_of(
    found: &mut Places,
    entities: &[NamedEntity],
    number: usize,
) -> Result<(), AllocError>
    ensures { OnOk result ((e p : ℕ) → spec.has found.new.keys e p ≡ (spec.has found.old.keys e p || spec.is_derived (spec.derived_by entities.now number) e p)) }
{
    match entities.get(number) {
        Some(entity) => insert_derived(found, entity.derived.as_slice()),
        None => Ok(()),
    }
}

/// The explicit attributes that an instance's entities redeclare in DERIVE.
#[tactic(auto, using(crate::proofs::Pairs::told_of_both))]
fn derived_among(
    alloc: Global,
    entities: &[NamedEntity],
    numbers: &[usize],
) -> Result<Places, AllocError>
    ensures { IfOk result (λ found. spec.AreExplicit found.keys (flat_map (spec.derived_by entities.now) numbers.now)) }
{
    let mut found = BTreeSet::new(alloc);
    for number in numbers {
        insert_derived_of(&mut found, entities, *number)?;
    }
    Ok(found)
}

/// Whether the set has a place.
fn is_in(places: &Places, entity: usize, place: usize) -> bool
    ensures { result ≡ spec.has places.now.keys entity place }
{
    places.contains(&(entity, place))
}

/// Puts the names of attributes that are declared together behind the others, each with their declaration.
fn push_together<'s>(
    rows: &mut Vec<(&'s Name, &'s NamedExplicit)>,
    explicit: &'s NamedExplicit,
) -> Result<(), AllocError>
    ensures { OnOk result (spec.rows_of rows.new.items ≡ spec.rows_of rows.old.items ++ spec.declared_together explicit.now) }
{
    for attribute in explicit.attributes.as_slice() {
        if let NamedAttribute::Own(name) = attribute {
            rows.push((name, explicit))?;
        }
    }
    Ok(())
}

/// The explicit attributes of an entity's own, in order, each with its declaration.
fn declared_by(
    alloc: Global,
    entity: &NamedEntity,
) -> Result<Vec<(&Name, &NamedExplicit)>, AllocError>
    ensures { IfOk result (λ rows. spec.rows_of rows.items ≡ spec.declared_by entity.now) }
{
    let mut rows = Vec::new(alloc);
    for explicit in entity.explicit.as_slice() {
        push_together(&mut rows, explicit)?;
    }
    Ok(rows)
}

/// Puts the slots of an entity of these attributes behind the others.
fn push_slots<'s>(
    found: &mut Vec<Slot<'s>>,
    entity: usize,
    rows: &[(&'s Name, &'s NamedExplicit)],
    derived: &Places,
) -> Result<(), AllocError>
    ensures { OnOk result (found.new.items ≡ found.old.items ++ numbered (spec.slot (spec.has derived.now.keys) entity) (spec.rows_of rows.now)) }
{
    for (place, (name, explicit)) in rows.iter().enumerate() {
        let is_derived = is_in(derived, entity, place);
        let place = AttributePlace {
            entity,
            sort: AttributeSort::Explicit,
            place,
        };
        found.push(Slot::new(
            place,
            name,
            &explicit.data_type,
            explicit.optional,
            is_derived,
        ))?;
    }
    Ok(())
}

/// Puts the slots of the entity of this number behind the others.
fn push_slots_of<'s>(
    alloc: Global,
    found: &mut Vec<Slot<'s>>,
    entities: &'s [NamedEntity],
    number: usize,
    derived: &Places,
) -> Result<(), AllocError>
    ensures { OnOk result (found.new.items ≡ found.old.items ++ spec.slots_of entities.now (spec.has derived.now.keys) number) }
{
    match entities.get(number) {
        Some(entity) => {
            let rows = declared_by(alloc, entity)?;
            push_slots(found, number, &rows, derived)
        }
        None => Ok(()),
    }
}

/// The slots of entities, given what they redeclare in DERIVE.
fn slots_given<'s>(
    alloc: Global,
    entities: &'s [NamedEntity],
    numbers: &[usize],
    derived: &Places,
) -> Result<Vec<Slot<'s>>, AllocError>
    ensures { IfOk result (λ found. found.items ≡ flat_map (spec.slots_of entities.now (spec.has derived.now.keys)) numbers.now) }
{
    let mut found = Vec::new(alloc);
    for number in numbers {
        push_slots_of(alloc, &mut found, entities, *number, derived)?;
    }
    Ok(found)
}

/// The slots of an instance of these entities: one after the other in this order, each one's own explicit attributes in theirs.
/// In the order of an entity's line they are what files write in one list of values. An entity twice has its slots twice.
#[tactic(auto, unfolding(crate::specs::Slots::slots), using(crate::proofs::Pairs::given_again))]
pub fn slots<'s>(
    alloc: Global,
    entities: &'s [NamedEntity],
    numbers: &[usize],
) -> Result<Vec<Slot<'s>>, AllocError>
    ensures { IfOk result (λ found. found.items ≡ spec.slots entities.now numbers.now) }
{
    let derived = derived_among(alloc, entities, numbers)?;
    slots_given(alloc, entities, numbers, &derived)
}

/// The slots of one entity, given what the instance's entities redeclare in DERIVE.
fn slots_of_one<'s>(
    alloc: Global,
    entities: &'s [NamedEntity],
    number: usize,
    derived: &Places,
) -> Result<Rows<Slot<'s>>, AllocError>
    ensures { IfOk result (λ found. found ≡ spec.slots_of entities.now (spec.has derived.now.keys) number) }
{
    let mut found = Vec::new(alloc);
    push_slots_of(alloc, &mut found, entities, number, derived)?;
    Ok(Rows::from_vec(found))
}

/// The slots of each entity, given what they redeclare in DERIVE.
fn each_given<'s>(
    alloc: Global,
    entities: &'s [NamedEntity],
    numbers: &[usize],
    derived: &Places,
) -> Result<Vec<Rows<Slot<'s>>>, AllocError>
    ensures { IfOk result (λ found. found.items ≡ map (spec.slots_of entities.now (spec.has derived.now.keys)) numbers.now) }
{
    let mut found = Vec::with_capacity(alloc, numbers.len())?;
    for number in numbers {
        found.push(slots_of_one(alloc, entities, *number, derived)?)?;
    }
    Ok(found)
}

/// The slots of an instance of these entities, those of each by themselves, as files write them in the list of values of each.
#[tactic(auto, using(crate::proofs::Pairs::each_again))]
pub fn slots_of_each<'s>(
    alloc: Global,
    entities: &'s [NamedEntity],
    numbers: &[usize],
) -> Result<Vec<Rows<Slot<'s>>>, AllocError>
    ensures { IfOk result (λ found. found.items ≡ map (spec.slots_of entities.now (spec.is_derived (flat_map (spec.derived_by entities.now) numbers.now))) numbers.now) }
{
    let derived = derived_among(alloc, entities, numbers)?;
    each_given(alloc, entities, numbers, &derived)
}
