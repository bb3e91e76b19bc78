//! Slots as their values are read.

ghost use Rattle.std.specs.Prelude.{◌≡◌, map, IfOk};
ghost use Rattle.ex_layouts.specs.Layouts as spec;

use crate::dictionary::Dictionary;
use ex_selects::Expected;
use ex_slots::Slot;
use plain_data::Rows;
use std::alloc::{AllocError, Global};

/// What has to be known of a slot to read a value, found once for all values.
#[derive(Drop)]
pub struct ReadSlot<'s> {
    /// Whether an entity of the instance redeclares it in DERIVE.
    pub is_derived: bool,
    pub expected: Expected<'s>,
}

fn read_slot<'s>(schema: &Dictionary<'s>, slot: &Slot<'s>) -> ReadSlot<'s>
    ensures { result ≡ spec.read_slot schema.now slot.now }
{
    ReadSlot {
        is_derived: slot.is_derived(),
        expected: Expected::of(schema.defined_types(), slot.data_type()),
    }
}

/// The slots as their values are read.
pub fn read_slots<'s>(
    alloc: Global,
    schema: &Dictionary<'s>,
    slots: &[Slot<'s>],
) -> Result<Rows<ReadSlot<'s>>, AllocError>
    ensures { IfOk result (λ found. found ≡ map (spec.read_slot schema.now) slots.now) }
{
    let mut found = Vec::with_capacity(alloc, slots.len())?;
    for slot in slots {
        found.push(read_slot(schema, slot))?;
    }
    Ok(Rows::from_vec(found))
}

/// The slots of each record as their values are read.
pub fn all_read<'s>(
    alloc: Global,
    schema: &Dictionary<'s>,
    slots: &[Rows<Slot<'s>>],
) -> Result<Rows<Rows<ReadSlot<'s>>>, AllocError>
    ensures { IfOk result (λ found. found ≡ map (map (spec.read_slot schema.now)) slots.now) }
{
    let mut found = Vec::with_capacity(alloc, slots.len())?;
    for list in slots {
        found.push(read_slots(alloc, schema, list.as_slice())?)?;
    }
    Ok(Rows::from_vec(found))
}
