//! What an instance has values of: its entities, and the explicit attributes of each of its records.

ghost use Rattle.std.specs.Prelude.{◌≡◌, ◌∷◌, [], ℕ, ◌==◌, if◌then◌else◌, length, map, slice_index_or, IfOk, IfSome, OnOk, Some, None};
ghost use Rattle.std.specs.BTreeMap.{get};
ghost use Rattle.std.specs.List.{flat_map, list_all, find};
ghost use Rattle.std.specs.Option.{option_or, unwrap_or};
ghost use Rattle.std.specs.Ordering.{nat_cmp};
ghost use Rattle.plain_data.specs.Numbers.{is_among};
ghost use Rattle.ex_layouts.specs.Entities as entities_spec;
ghost use Rattle.ex_layouts.specs.Entities.{line_of};
ghost use Rattle.ex_layouts.specs.Layouts as spec;

use crate::dictionary::Dictionary;
use crate::read_slot::{ReadSlot, all_read, read_slots};
use ex_slots::{Slot, slots, slots_of_each};
use ex_subtypes::EntitySet;
use plain_data::{Items, Rows};
use rp_content::Entities;
use std::alloc::{AllocError, Global};
use std::collections::BTreeMap;

/// What the instances of some entities have values of, by the records that a file writes of them: one of an entity with all
/// above it, or one of each entity.
pub struct Layout<'s> {
    /// The entities as an instance keeps them.
    pub instance_entities: Entities,
    /// The entities, in the order in which the records have their attributes.
    pub entities: Rows<usize>,
    /// The attributes of each record.
    pub slots: Rows<Rows<Slot<'s>>>,
    /// The same, as their values are read.
    pub read_slots: Rows<Rows<ReadSlot<'s>>>,
    /// Where the records stand, in the order in which an instance keeps their values.
    pub places: Rows<usize>,
    /// Whether an instance may have exactly these entities.
    pub is_legal: bool,
}

/// The list in this place of a list; none beyond its end.
fn row_at<T>(rows: &[Rows<T>], place: usize) -> &[T]
    ensures { result.now ≡ slice_index_or rows.now place [] }
{
    match rows.get(place) {
        Some(row) => row.as_slice(),
        None => &[],
    }
}

impl<'s> Layout<'s> {
    ghost use Rattle.std.specs.Prelude.{◌≡◌, [], slice_index_or};

    /// The attributes of the record in this place; none beyond the last.
    pub fn slots_of(&self, place: usize) -> &[Slot<'s>]
        ensures { result.now ≡ slice_index_or self.now.slots place [] }
    {
        row_at(self.slots.as_slice(), place)
    }

    /// The same, as their values are read.
    pub fn read_slots_of(&self, place: usize) -> &[ReadSlot<'s>]
        ensures { result.now ≡ slice_index_or self.now.read_slots place [] }
    {
        row_at(self.read_slots.as_slice(), place)
    }
}

impl<'s> Drop for Layout<'s> {
    fn drop(self) {
        let Layout {
            instance_entities,
            entities,
            slots,
            read_slots,
            places,
            is_legal: _,
        } = self;
        drop(instance_entities);
        drop(entities);
        drop(slots);
        drop(read_slots);
        drop(places);
    }
}

/// What an instance of the entity has values of, of which this is the line.
fn of_line<'s>(
    alloc: Global,
    schema: &Dictionary<'s>,
    entity: usize,
    line: Rows<usize>,
    is_legal: bool,
) -> Result<Layout<'s>, AllocError>
    requires line { line ≡ line_of schema.now entity }
    requires legal { is_legal ≡ entities_spec.is_legal schema.now (line_of schema.now entity) }
    ensures { IfOk result (λ layout. layout ≡ spec.of_leaf schema.now entity) }
{
    let slots = slots(alloc, schema.entities(), line.as_slice())?;
    let read_slots = read_slots(alloc, schema, &slots)?;
    Ok(Layout {
        instance_entities: Entities::Leaf(entity),
        entities: line,
        slots: only(alloc, Rows::from_vec(slots))?,
        read_slots: only(alloc, read_slots)?,
        places: only(alloc, 0)?,
        is_legal,
    })
}

/// What an instance of this entity and all above it has values of, which files write in one record; nothing where there can be
/// none.
pub fn legal_leaf<'s>(
    alloc: Global,
    schema: &Dictionary<'s>,
    entity: usize,
) -> Result<Option<Layout<'s>>, AllocError>
    ensures legal { IfOk result (λ found. found ≡ spec.legal (spec.of_leaf schema.now entity)) }
    ensures layout { IfOk result (λ found. IfSome found (λ layout. layout ≡ spec.of_leaf schema.now entity)) }
{
    let line = schema.line_of(alloc, entity)?;
    if !schema.is_legal_line(alloc, entity, line.as_slice())? {
        return Ok(None);
    }
    Ok(Some(of_line(alloc, schema, entity, line, true)?))
}

/// A list of one.
fn only<T: Drop>(alloc: Global, row: T) -> Result<Rows<T>, AllocError>
    ensures { IfOk result (λ rows. rows ≡ row ∷ []) }
{
    let mut rows = Rows::new(alloc);
    rows.push(row)?;
    Ok(rows)
}

/// The entities in the order of their names.
fn in_name_order(
    alloc: Global,
    schema: &Dictionary<'_>,
    numbers: &[usize],
) -> Result<Items<usize>, AllocError>
    ensures { IfOk result (λ order. order ≡ spec.in_name_order schema.now numbers.now) }
{
    let mut order = Vec::from_slice(alloc, numbers)?;
    order.sort_by_key(|number| schema.name_rank(*number))?;
    Ok(Items::from_vec(order))
}

/// Whether all of the entities are one or above it.
fn is_leaf(
    alloc: Global,
    schema: &Dictionary<'_>,
    entity: usize,
    numbers: &[usize],
) -> Result<bool, AllocError>
    ensures { IfOk result (λ found. found ≡ list_all (is_among (line_of schema.now entity)) numbers.now) }
{
    let line = schema.line_of(alloc, entity)?;
    let line = EntitySet::of(alloc, line.as_slice())?;
    Ok(numbers.iter().all(|number| line.has(*number)))
}

/// The one of which all others are supertypes.
#[tactic(auto, unfolding(crate::specs::Layouts::leaf))]
fn leaf_of(
    alloc: Global,
    schema: &Dictionary<'_>,
    numbers: &[usize],
) -> Result<Option<usize>, AllocError>
    ensures { IfOk result (λ found. found ≡ spec.leaf schema.now numbers.now) }
{
    for number in numbers {
        if is_leaf(alloc, schema, *number, numbers)? {
            return Ok(Some(*number));
        }
    }
    Ok(None)
}

/// Puts the place of an entity into the table, unless it stood before.
fn put_first(
    table: &mut BTreeMap<usize, usize>,
    entity: usize,
    place: usize,
) -> Result<(), AllocError>
    ensures { OnOk result ((n : ℕ) → get nat_cmp table.new n ≡ option_or (get nat_cmp table.old n) (if entity == n then Some place else None)) }
{
    if !table.contains_key(&entity) {
        table.insert(entity, place)?;
    }
    Ok(())
}

/// Where the entities stand first.
#[tactic(auto, unfolding(crate::specs::Layouts::place_in))]
fn first_places(alloc: Global, numbers: &[usize]) -> Result<BTreeMap<usize, usize>, AllocError>
    ensures { IfOk result (λ table. (n : ℕ) → unwrap_or (get nat_cmp table n) (length numbers.now) ≡ spec.place_in numbers.now n) }
{
    let mut table = BTreeMap::new(alloc);
    let mut place = 0;
    for number in numbers {
        put_first(&mut table, *number, place)?;
        place += 1;
    }
    Ok(table)
}

/// Where the entity stands first, by the table of all; behind the last where it is none of them.
fn place_in(table: &BTreeMap<usize, usize>, numbers: &[usize], entity: usize) -> usize
    requires { (n : ℕ) → unwrap_or (get nat_cmp table.now n) (length numbers.now) ≡ spec.place_in numbers.now n }
    ensures { result ≡ spec.place_in numbers.now entity }
{
    match table.get(&entity) {
        Some(place) => *place,
        None => numbers.len(),
    }
}

/// Where the entities of the order stand.
fn places_in(alloc: Global, numbers: &[usize], order: &[usize]) -> Result<Rows<usize>, AllocError>
    ensures { IfOk result (λ places. places ≡ map (spec.place_in numbers.now) order.now) }
{
    let table = first_places(alloc, numbers)?;
    let mut places = Vec::with_capacity(alloc, order.len())?;
    for entity in order {
        places.push(place_in(&table, numbers, *entity))?;
    }
    Ok(Rows::from_vec(places))
}

/// These entities as an instance keeps them, and where their parts stand in the order in which values are kept.
fn arranged(
    alloc: Global,
    schema: &Dictionary<'_>,
    numbers: &[usize],
) -> Result<(Entities, Rows<usize>), AllocError>
    ensures entities { IfOk result (λ found. found.0 ≡ spec.entities_by schema.now numbers.now (spec.leaf schema.now numbers.now)) }
    ensures places { IfOk result (λ found. found.1 ≡ map (spec.place_in numbers.now) (spec.order_by schema.now numbers.now (spec.leaf schema.now numbers.now))) }
{
    match leaf_of(alloc, schema, numbers)? {
        Some(entity) => {
            let line = schema.line_of(alloc, entity)?;
            let places = places_in(alloc, numbers, line.as_slice())?;
            Ok((Entities::Leaf(entity), places))
        }
        None => {
            let order = in_name_order(alloc, schema, numbers)?;
            let places = places_in(alloc, numbers, order.as_slice())?;
            Ok((Entities::Several(order), places))
        }
    }
}

/// The slots of each part.
fn slots_in<'s>(
    alloc: Global,
    schema: &Dictionary<'s>,
    numbers: &[usize],
) -> Result<Rows<Rows<Slot<'s>>>, AllocError>
    ensures { IfOk result (λ slots. slots ≡ spec.slots_in schema.now numbers.now) }
{
    let slots = slots_of_each(alloc, schema.entities(), numbers)?;
    Ok(Rows::from_vec(slots))
}

/// What an instance of these entities has values of.
fn of_list<'s>(
    alloc: Global,
    schema: &Dictionary<'s>,
    numbers: &[usize],
    is_legal: bool,
) -> Result<Layout<'s>, AllocError>
    requires { is_legal ≡ entities_spec.is_legal schema.now numbers.now }
    ensures { IfOk result (λ layout. layout ≡ spec.of_several schema.now numbers.now) }
{
    let slots = slots_in(alloc, schema, numbers)?;
    let read_slots = all_read(alloc, schema, slots.as_slice())?;
    let (instance_entities, places) = arranged(alloc, schema, numbers)?;
    Ok(Layout {
        instance_entities,
        entities: Rows::from_vec(Vec::from_slice(alloc, numbers)?),
        slots,
        read_slots,
        places,
        is_legal,
    })
}

/// What an instance of these entities has values of, which files write in a record of each, in this order; nothing where there
/// can be none.
pub fn legal_several<'s>(
    alloc: Global,
    schema: &Dictionary<'s>,
    numbers: &[usize],
) -> Result<Option<Layout<'s>>, AllocError>
    ensures legal { IfOk result (λ found. found ≡ spec.legal (spec.of_several schema.now numbers.now)) }
    ensures layout { IfOk result (λ found. IfSome found (λ layout. layout ≡ spec.of_several schema.now numbers.now)) }
    ensures read { IfOk result (λ found. IfSome found (λ layout. spec.AreRead schema.now layout)) }
{
    if !schema.is_legal(alloc, numbers)? {
        return Ok(None);
    }
    Ok(Some(of_list(alloc, schema, numbers, true)?))
}

/// What an instance of these entities has values of, whether there can be one or not.
pub fn layout_of<'s>(
    alloc: Global,
    schema: &Dictionary<'s>,
    entities: &Entities,
) -> Result<Layout<'s>, AllocError>
    ensures { IfOk result (λ layout. layout ≡ spec.layout schema.now entities.now) }
{
    match entities {
        Entities::Leaf(entity) => {
            let line = schema.line_of(alloc, *entity)?;
            let is_legal = schema.is_legal_line(alloc, *entity, line.as_slice())?;
            of_line(alloc, schema, *entity, line, is_legal)
        }
        Entities::Several(all) => {
            let is_legal = schema.is_legal(alloc, all.as_slice())?;
            of_list(alloc, schema, all.as_slice(), is_legal)
        }
    }
}
