//! An instance, from the parts of an external mapping, and the values of the only part of an internal one.

ghost use Rattle.std.specs.Prelude.{◌≡◌, ◌&&◌, ◌++◌, ◌∷◌, [], true, if◌then◌else◌, length, map, slice_index_or, Some, Err, IfOk, OnOk};
ghost use Rattle.std.specs.List.{flat_map, zip};
ghost use Rattle.std.specs.Str.{str_to_ascii_uppercase};
ghost use Rattle.plain_data.specs.Numbers.{is_among};
ghost use Rattle.ex_layouts.specs.Entities.{entity_spelled};
ghost use Rattle.ex_layouts.specs.Layouts.{legal, leaf_slots, read_slot, AreRead};
ghost use Rattle.name_tables.specs.Names.{place_of};
ghost use Rattle.p21_tree.specs.declared.fault.InstanceFaultKind.TheVariants.{Twice};
ghost use Rattle.plain_data.specs.Gives.{Gives};
ghost use Rattle.p21_values.specs.Taking.{all_there};
ghost use Rattle.p21_mappings.specs.Layouts.{external};
ghost use Rattle.p21_mappings.specs.Instances as spec;
ghost use Rattle.p21_mappings.specs.ReadSlots as read_spec;

use crate::names::DefinedNames;
use crate::value::{Mapped, part_values};
use ex_layouts::{Dictionary, Layout, Layouts, ReadSlot, legal_several};
use ex_slots::Slot;
use name_tables::NameTable;
use p21_tree::{InstanceFaultKind, Keyword, Record};
use plain_data::{Failure, Items, Rows, Text};
use rp_content::Instance;
use rp_value::Value;
use std::alloc::{AllocError, Global};

/// A keyword in upper case.
fn in_upper_case(alloc: Global, keyword: &Keyword<'_>) -> Result<Text, AllocError>
    ensures { IfOk result (λ upper. upper ≡ str_to_ascii_uppercase keyword.now) }
{
    let mut upper = Text::from_str(alloc, keyword.as_str())?;
    upper.make_ascii_uppercase();
    Ok(upper)
}

/// The keywords of parts in upper case.
fn keywords(alloc: Global, parts: &[Record<'_>]) -> Result<Vec<Text>, AllocError>
    ensures { IfOk result (λ keywords. keywords.items ≡ spec.keywords parts.now) }
{
    let mut keywords = Vec::with_capacity(alloc, parts.len())?;
    for part in parts {
        keywords.push(in_upper_case(alloc, &part.keyword)?)?;
    }
    Ok(keywords)
}

/// Whether one of the keywords stood before.
fn repeats(alloc: Global, keywords: &[Text]) -> Result<bool, AllocError>
    ensures { IfOk result (λ found. found ≡ spec.repeats [] keywords.now) }
{
    let mut before = NameTable::new(alloc);
    for keyword in keywords {
        if before.place(keyword.as_bytes()).is_some() {
            return Ok(true);
        }
        before.push(keyword.as_bytes())?;
    }
    Ok(false)
}

/// Whether an entity stands twice among the parts of an external mapping.
fn has_twice(alloc: Global, parts: &[Record<'_>]) -> Result<bool, AllocError>
    ensures { IfOk result (λ found. found ≡ spec.repeats [] (spec.keywords parts.now)) }
{
    let keywords = keywords(alloc, parts)?;
    repeats(alloc, &keywords)
}

/// The entity that the keyword names, in either case.
#[inline(always)]
pub fn entity_named(
    alloc: Global,
    layouts: &mut Layouts<'_>,
    keyword: &Keyword<'_>,
) -> Result<Option<usize>, AllocError>
    ensures same { layouts.new ≡ layouts.old }
    ensures entity { IfOk result (λ entity. entity ≡ entity_spelled layouts.old keyword.now) }
{
    match layouts.known_entity(keyword.as_bytes()) {
        Some(entity) => Ok(Some(entity)),
        None => layouts.entity_spelled(alloc, keyword.as_str()),
    }
}

/// The entities of parts, where each keyword is the name of one.
fn entities_of(
    alloc: Global,
    layouts: &mut Layouts<'_>,
    parts: &[Record<'_>],
) -> Result<Option<Vec<usize>>, AllocError>
    ensures same { layouts.new ≡ layouts.old }
    ensures found { IfOk result (λ found. spec.numbers_in found ≡ all_there (map (λ r. entity_spelled layouts.old r.keyword) parts.now)) }
{
    let mut entities = Vec::with_capacity(alloc, parts.len())?;
    for part in parts {
        match entity_named(alloc, layouts, &part.keyword)? {
            Some(entity) => entities.push(entity)?,
            None => return Ok(None),
        }
    }
    Ok(Some(entities))
}

/// Whether each part has as many values as it has attributes.
fn same_counts(mut slots: &[Rows<Slot<'_>>], mut parts: &[Record<'_>]) -> bool
    ensures { result ≡ spec.same_counts slots.entry.now parts.entry.now }
{
    'parts: while let [first, more_slots @ ..] = slots {
        let [part, more_parts @ ..] = parts else {
            return true;
        };
        if first.len() != part.values.len() {
            return false;
        }
        slots = more_slots;
        parts = more_parts;
    }
    true
}

/// The values of all parts, or what is wrong with the first that is faulty.
fn all_values<N: DefinedNames>(
    alloc: Global,
    schema: &Dictionary<'_>,
    names: &N,
    mut slots: &[Rows<ReadSlot<'_>>],
    mut parts: &[Record<'_>],
) -> Mapped<Rows<Items<Value>>>
    ensures { Gives (λ lists. lists) result (spec.each (read_spec.record_values schema.now (N.is_defined names.now)) (zip slots.entry.now parts.entry.now)) }
{
    let mut lists = Rows::new(alloc);
    'parts: while let [first, more_slots @ ..] = slots {
        let [part, more_parts @ ..] = parts else {
            break;
        };
        let values = part.values.as_slice();
        lists.push(part_values(alloc, schema, names, first.as_slice(), values)?)?;
        slots = more_slots;
        parts = more_parts;
    }
    Ok(lists)
}

/// The same, by what the instances of these entities have values of.
fn values_by<N: DefinedNames>(
    alloc: Global,
    schema: &Dictionary<'_>,
    names: &N,
    layout: &Layout<'_>,
    parts: &[Record<'_>],
) -> Mapped<Rows<Items<Value>>>
    requires { AreRead schema.now layout.now }
    ensures { Gives (λ lists. lists) result (spec.each (spec.part schema.now (N.is_defined names.now)) (zip layout.now.slots parts.now)) }
{
    all_values(alloc, schema, names, layout.read_slots.as_slice(), parts)
}

fn list_at(lists: &[Items<Value>], place: usize) -> &[Value]
    ensures { result.now ≡ slice_index_or lists.now place [] }
{
    match lists.get(place) {
        Some(list) => list.as_slice(),
        None => &[],
    }
}

/// Puts the values behind the others.
fn append(found: &mut Items<Value>, values: &[Value]) -> Result<(), AllocError>
    ensures { OnOk result (found.new ≡ found.old ++ values.now) }
{
    for value in values {
        found.push(value.copy()?)?;
    }
    Ok(())
}

/// The lists one after the other, as the places have them.
fn in_places(
    alloc: Global,
    places: &[usize],
    lists: &[Items<Value>],
) -> Result<Items<Value>, AllocError>
    ensures { IfOk result (λ values. values ≡ spec.in_places places.now lists.now) }
{
    let mut found = Items::new(alloc);
    for place in places {
        append(&mut found, list_at(lists, *place))?;
    }
    Ok(found)
}

fn made(
    alloc: Global,
    name: u64,
    layout: &Layout<'_>,
    lists: &[Items<Value>],
) -> Result<Instance, AllocError>
    ensures { IfOk result (λ instance. instance ≡ spec.made name layout.now lists.now) }
{
    let entities = layout.instance_entities.copy(alloc)?;
    let values = in_places(alloc, layout.places.as_slice(), lists)?;
    Ok(Instance {
        name,
        entities,
        values,
    })
}

/// The instance of these parts, by what the instances of their entities have values of.
fn by_layout<N: DefinedNames>(
    alloc: Global,
    schema: &Dictionary<'_>,
    names: &N,
    name: u64,
    parts: &[Record<'_>],
    layout: &Layout<'_>,
) -> Mapped<Instance>
    requires { AreRead schema.now layout.now }
    ensures { Gives (λ x. x) result (spec.by_layout schema.now (N.is_defined names.now) name parts.now (legal layout.now)) }
{
    if !layout.is_legal {
        return Err(Failure::Fault(InstanceFaultKind::IllegalCombination));
    }
    if !same_counts(layout.slots.as_slice(), parts) {
        return Err(Failure::Fault(InstanceFaultKind::WrongCount));
    }
    let lists = values_by(alloc, schema, names, layout, parts)?;
    Ok(made(alloc, name, layout, lists.as_slice())?)
}

/// The instance of these parts, where there can be one of their entities. What instances of them have values of is kept.
#[tactic(auto, unfolding(crate::specs::Layouts::external))]
fn by_new_layout<N: DefinedNames>(
    alloc: Global,
    layouts: &mut Layouts<'_>,
    names: &N,
    name: u64,
    parts: &[Record<'_>],
    entities: &[usize],
) -> Mapped<Instance>
    ensures same { layouts.new ≡ layouts.old }
    ensures made { Gives (λ x. x) result (spec.by_layout layouts.old (N.is_defined names.now) name parts.now (external layouts.old entities.now)) }
{
    let schema = layouts.dictionary();
    let Some(layout) = legal_several(alloc, schema, entities)? else {
        return Err(Failure::Fault(InstanceFaultKind::IllegalCombination));
    };
    let instance = by_layout(alloc, schema, names, name, parts, &layout)?;
    layouts.keep_several(layout)?;
    Ok(instance)
}

#[tactic(auto, unfolding(crate::specs::Instances::by_several, crate::specs::Layouts::external))]
fn by_entities<N: DefinedNames>(
    alloc: Global,
    layouts: &mut Layouts<'_>,
    names: &N,
    name: u64,
    parts: &[Record<'_>],
) -> Mapped<Instance>
    ensures same { layouts.new ≡ layouts.old }
    ensures made { Gives (λ x. x) result (spec.by_several layouts.old (N.is_defined names.now) name parts.now) }
{
    let Some(entities) = entities_of(alloc, layouts, parts)? else {
        return Err(Failure::Fault(InstanceFaultKind::UnknownEntity));
    };
    match layouts.several(&entities) {
        Some(layout) => by_layout(alloc, layouts.dictionary(), names, name, parts, layout),
        None => by_new_layout(alloc, layouts, names, name, parts, &entities),
    }
}

/// The instance of these parts, of which no two may be of one type, or the first that holds of what is wrong with them.
pub fn by_parts<N: DefinedNames>(
    alloc: Global,
    layouts: &mut Layouts<'_>,
    names: &N,
    name: u64,
    parts: &[Record<'_>],
) -> Mapped<Instance>
    ensures same { layouts.new ≡ layouts.old }
    ensures made { Gives (λ x. x) result (if spec.repeats [] (spec.keywords parts.now) then Err Twice else spec.by_several layouts.old (N.is_defined names.now) name parts.now) }
{
    if has_twice(alloc, parts)? {
        return Err(Failure::Fault(InstanceFaultKind::Twice));
    }
    by_entities(alloc, layouts, names, name, parts)
}

/// The values of a part that is of an entity and all above it, whose slots as they are read these are, or what is wrong with the
/// first that is faulty.
pub fn values_of_leaf<N: DefinedNames>(
    alloc: Global,
    schema: &Dictionary<'_>,
    names: &N,
    entity: usize,
    slots: &[ReadSlot<'_>],
    part: &Record<'_>,
) -> Mapped<Items<Value>>
    requires { slots.now ≡ map (read_slot schema.now) (leaf_slots schema.now entity) }
    ensures { Gives (λ xs. xs) result (spec.part schema.now (N.is_defined names.now) (leaf_slots schema.now entity, part.now)) }
{
    part_values(alloc, schema, names, slots, part.values.as_slice())
}
