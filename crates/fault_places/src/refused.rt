//! The first value that its attribute doesn't take.
use ex_layouts::{Dictionary, Layout};
use ex_named::NamedDataType;
use ex_selects::{Base, DefinedTypes, Expected, target_of};
use ex_slots::Slot;
use p21_tree::{Record, Value};
use p21_values::bound_by;
use std::alloc::{AllocError, Global};

/// Whether a type takes a value.
fn takes<'s>(
    alloc: Global,
    types: &DefinedTypes<'s>,
    data_type: &'s NamedDataType,
    value: &Value<'_>,
) -> Result<bool, AllocError> {
    let expected = Expected::of(types, data_type);
    Ok(bound_by(alloc, types, &expected, value)?.is_some())
}

/// The first value of a part that its attribute doesn't take.
fn refused_in<'s>(
    alloc: Global,
    types: &DefinedTypes<'s>,
    slots: &[Slot<'s>],
    values: &[Value<'_>],
) -> Result<Option<usize>, AllocError> {
    for (place, (slot, value)) in slots.iter().zip(values).enumerate() {
        let is_taken = if slot.is_derived() {
            matches!(value, Value::Unset | Value::Derived)
        } else {
            takes(alloc, types, slot.data_type(), value)?
        };
        if !is_taken {
            return Ok(Some(place));
        }
    }
    Ok(None)
}

/// The first value that its attribute doesn't take: the part, and its place there.
pub(crate) fn first_refused<'s>(
    alloc: Global,
    schema: &Dictionary<'s>,
    layout: &Layout<'s>,
    parts: &[Record<'_>],
) -> Result<Option<(usize, usize)>, AllocError> {
    let types = schema.defined_types();
    for (part, record) in parts.iter().enumerate() {
        let values = record.values.as_slice();
        if let Some(place) = refused_in(alloc, types, layout.slots_of(part), values)? {
            return Ok(Some((part, place)));
        }
    }
    Ok(None)
}

/// From a list to an element of it.
#[derive(Clone, Copy)]
pub(crate) struct Step {
    /// From 0.
    pub place: usize,
    /// As the schema counts.
    pub index: i64,
}

/// The step to the first element that isn't taken of a list, where the first element has this index.
fn step_to<'s>(
    alloc: Global,
    types: &DefinedTypes<'s>,
    element: &'s NamedDataType,
    low: i64,
    values: &[Value<'_>],
) -> Result<Option<Step>, AllocError> {
    let mut index = low;
    for (place, value) in values.iter().enumerate() {
        if !takes(alloc, types, element, value)? {
            return Ok(Some(Step { place, index }));
        }
        index = index.saturating_add(1);
    }
    Ok(None)
}

/// Goes from a value that this type doesn't take to the first element of it that isn't taken, and so on, as long as they are lists of
/// a type that is an aggregate. Answers the type of the last.
pub(crate) fn descend<'s>(
    value: &Value<'_>,
    alloc: Global,
    types: &DefinedTypes<'s>,
    data_type: &'s NamedDataType,
    steps: &mut Vec<Step>,
) -> Result<&'s NamedDataType, AllocError> {
    let Value::List(values) = value else {
        return Ok(data_type);
    };
    let Base::Aggregate(_, low, element) = target_of(types.types(), data_type).base else {
        return Ok(data_type);
    };
    let values = values.as_slice();
    let Some(step) = step_to(alloc, types, element, low, values)? else {
        return Ok(data_type);
    };
    steps.push(step)?;
    match values.get(step.place) {
        Some(value) => descend(value, alloc, types, element, steps),
        None => Ok(element),
    }
}
