//! The values of an attribute in an instance, by what the instances of its entities have values of.

ghost use Rattle.std.specs.Prelude.{◌≡◌, ◌&&◌, ◌++◌, OnOk, drop};
ghost use Rattle.std.specs.List.{flat_map};
ghost use Rattle.std.specs.Str.{bytes_eq};
ghost use Rattle.plain_data.specs.Numbers.{is_among};
ghost use Rattle.ex_layouts.specs.Layouts.{layout as LayoutOf};
ghost use Rattle.rp_rows.specs.Contents.{references};
ghost use Rattle.rp_population.specs.Found as spec;
ghost use Rattle.rp_population.specs.Uses as uses_spec;

use crate::place::Place;
use crate::uses::{User, push_value};
use ex_layouts::{Layout, Layouts, layout_of};
use ex_slots::Slot;
use plain_data::{Rows, Text};
use rp_content::Instance;
use rp_value::Value;
use std::alloc::{AllocError, Global};
use std::marker::Model;

/// The attributes of a name that an entity declares or inherits.
#[derive(Drop)]
pub struct Attribute<'a> {
    pub entity: usize,
    /// The entities above it and itself.
    pub line: &'a [usize],
    pub name: &'a Text,
}

impl<'a> Model for Attribute<'a> {
    ghost use Rattle.rp_population.specs.Found as spec;

    ghost Value = { spec.Attribute };

    ghost view = { λ a. record { entity = a.entity; line = a.line.now; name = a.name.now } };
}

/// Whether a number is among those.
pub(crate) fn has_number(numbers: &[usize], number: usize) -> bool
    ensures { result ≡ is_among numbers.now number }
{
    numbers.iter().any(|found| *found == number)
}

/// Whether it is one of the attributes.
fn is_slot_of(slot: &Slot<'_>, attribute: &Attribute<'_>) -> bool
    ensures { result ≡ uses_spec.is_slot_of attribute.now.line attribute.now.name slot.now }
{
    slot.name().text.as_str() == attribute.name.as_str()
        && has_number(attribute.line, slot.place().entity)
}

/// Tells the instance once for each of the names that the values of the attributes refer to.
fn push_slots(
    found: &mut Vec<Place>,
    user: &User<'_>,
    attribute: &Attribute<'_>,
    slots: &[Slot<'_>],
    values: &[Value],
) -> Result<(), AllocError>
    ensures { OnOk result (found.new.items ≡ found.old.items ++ flat_map (spec.told_at user.now) (flat_map references (spec.values_of attribute.now.line attribute.now.name slots.now values.now))) }
{
    let mut left = values;
    for slot in slots {
        let [value, others @ ..] = left else {
            return Ok(());
        };
        if is_slot_of(slot, attribute) {
            push_value(found, user, value)?;
        }
        left = others;
    }
    Ok(())
}

/// The values behind so many.
fn behind(values: &[Value], count: usize) -> &[Value]
    ensures { result.now ≡ drop count values.now }
{
    if count <= values.len() {
        &values[count..]
    } else {
        &[]
    }
}

/// Tells the instance once for each of the names that the values of the attributes in all these records refer to.
fn push_records(
    found: &mut Vec<Place>,
    user: &User<'_>,
    attribute: &Attribute<'_>,
    records: &[Rows<Slot<'_>>],
    values: &[Value],
) -> Result<(), AllocError>
    ensures { OnOk result (found.new.items ≡ found.old.items ++ flat_map (spec.told_at user.now) (flat_map references (spec.values_of attribute.now.line attribute.now.name (spec.all_slots records.now) values.now))) }
{
    let mut left = values;
    for slots in records {
        push_slots(found, user, attribute, slots.as_slice(), left)?;
        left = behind(left, slots.len());
    }
    Ok(())
}

/// Tells the instance once for each of the names that its values of the attributes refer to. One that isn't of the
/// entity has none.
fn push_by_layout(
    found: &mut Vec<Place>,
    user: &User<'_>,
    attribute: &Attribute<'_>,
    layout: &Layout<'_>,
    values: &[Value],
) -> Result<(), AllocError>
    ensures { OnOk result (found.new.items ≡ found.old.items ++ flat_map (spec.told_at user.now) (flat_map references (spec.values_by attribute.now layout.now values.now))) }
{
    if !has_number(layout.entities.as_slice(), attribute.entity) {
        return Ok(());
    }
    push_records(found, user, attribute, layout.slots.as_slice(), values)
}

/// Tells an instance once for each of its uses in the attributes. What instances of its entities have values of is kept.
pub fn push_in_attribute(
    alloc: Global,
    found: &mut Vec<Place>,
    layouts: &mut Layouts<'_>,
    attribute: &Attribute<'_>,
    user: &User<'_>,
    instance: &Instance,
) -> Result<(), AllocError>
    ensures layouts { layouts.new ≡ layouts.old }
    ensures places { OnOk result (found.new.items ≡ found.old.items ++ flat_map (spec.told_at user.now) (flat_map references (spec.values_by attribute.now (LayoutOf layouts.old instance.now.entities) instance.now.values))) }
{
    let values = instance.values.as_slice();
    if let Some(layout) = layouts.known(&instance.entities) {
        return push_by_layout(found, user, attribute, layout, values);
    }
    let layout = layout_of(alloc, layouts.dictionary(), &instance.entities)?;
    push_by_layout(found, user, attribute, &layout, values)?;
    layouts.keep(&instance.entities, layout)
}
