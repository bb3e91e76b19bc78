//! The values of an instance's attributes.

ghost use Rattle.std.specs.Prelude.{◌≡◌, ◌++◌, ℕ, length, map, IfOk, OnOk};
ghost use Rattle.std.specs.List.{flat_map, list_all, list_any, zip};
ghost use Rattle.plain_data.specs.Numbers.{is_among};
ghost use Rattle.ex_schemas.specs.Schemas.{Checked};
ghost use Rattle.p21_instances.specs.Instances.{references};
ghost use Rattle.plain_data.specs.Gives.{Gives};
ghost use Rattle.p21_mappings.specs.Instances as spec;
ghost use Rattle.p21_mappings.specs.ReadSlots as read_spec;

use crate::names::DefinedNames;
use ex_layouts::{Dictionary, ReadSlot};
use p21_tree::{InstanceFaultKind, Value as SpelledValue};
use p21_values::bound_by;
use plain_data::{Failure, Items};
use rp_value::Value;
use std::alloc::{AllocError, Global};

/// What is mapped of an instance, or what is wrong with it.
pub type Mapped<T> = Result<T, Failure<InstanceFaultKind>>;

/// Whether the value has a `*`, at any depth.
#[cycle(stars)]
fn has_star(value: &SpelledValue<'_>) -> bool
    ensures { result ≡ spec.has_star value.now }
{
    match value {
        SpelledValue::Derived => true,
        SpelledValue::List(values) => have_star(values.as_slice()),
        SpelledValue::Typed(_, value) => has_star(value.get()),
        _ => false,
    }
}

/// Whether one of the values has a `*`, at any depth.
#[cycle(stars)]
fn have_star(values: &[SpelledValue<'_>]) -> bool
    ensures { result ≡ list_any spec.has_star values.now }
{
    for value in values {
        if has_star(value) {
            return true;
        }
    }
    false
}

/// Whether it is `*` or `$`.
fn is_left_out(value: &SpelledValue<'_>) -> bool
    ensures { result ≡ spec.is_left_out value.now }
{
    match value {
        SpelledValue::Unset | SpelledValue::Derived => true,
        _ => false,
    }
}

/// Whether each name that the value refers to is defined. What holds no other value is told without a further call.
#[cycle(references)]
#[inline(always)]
fn is_defined<N: DefinedNames>(names: &N, value: &SpelledValue<'_>) -> bool
    ensures { result ≡ list_all (N.is_defined names.now) (references value.now) }
{
    match value {
        SpelledValue::Reference(name) => names.has(*name),
        SpelledValue::List(values) => are_defined(names, values.as_slice()),
        SpelledValue::Typed(_, value) => is_defined_inside(names, value.get()),
        _ => true,
    }
}

/// The same of the value behind a keyword.
#[cycle(references)]
fn is_defined_inside<N: DefinedNames>(names: &N, value: &SpelledValue<'_>) -> bool
    ensures { result ≡ list_all (N.is_defined names.now) (references value.now) }
{
    is_defined(names, value)
}

/// Whether each name that the values refer to is defined.
#[cycle(references)]
fn are_defined<N: DefinedNames>(names: &N, values: &[SpelledValue<'_>]) -> bool
    ensures { result ≡ list_all (N.is_defined names.now) (flat_map references values.now) }
{
    for value in values {
        if !is_defined(names, value) {
            return false;
        }
    }
    true
}

/// The fault of a value that no attribute takes.
fn misplaced(value: &SpelledValue<'_>) -> InstanceFaultKind
    ensures { result ≡ spec.misplaced value.now }
{
    if has_star(value) {
        InstanceFaultKind::NotDerived
    } else {
        InstanceFaultKind::WrongKind
    }
}

/// What an attribute has that an entity of the instance derives.
fn derived_value(value: &SpelledValue<'_>) -> Mapped<Value>
    ensures { Gives (λ x. x) result (spec.derived_value value.now) }
{
    if is_left_out(value) {
        Ok(Value::Indet)
    } else {
        Err(Failure::Fault(misplaced(value)))
    }
}

/// The value of a slot, or the first that holds of what is wrong with it.
fn slot_value<N: DefinedNames>(
    alloc: Global,
    schema: &Dictionary<'_>,
    names: &N,
    slot: &ReadSlot<'_>,
    value: &SpelledValue<'_>,
) -> Mapped<Value>
    ensures { Gives (λ x. x) result (read_spec.slot_value schema.now (N.is_defined names.now) (slot.now, value.now)) }
{
    if slot.is_derived {
        return derived_value(value);
    }
    // No type takes a value with a `*`.
    let Some(found) = bound_by(alloc, schema.defined_types(), &slot.expected, value)? else {
        return Err(Failure::Fault(misplaced(value)));
    };
    if is_defined(names, value) {
        Ok(found)
    } else {
        Err(Failure::Fault(InstanceFaultKind::Undefined))
    }
}

/// The values of a part of a mapping, or what is wrong with the first that is faulty.
pub fn part_values<N: DefinedNames>(
    alloc: Global,
    schema: &Dictionary<'_>,
    names: &N,
    mut slots: &[ReadSlot<'_>],
    mut values: &[SpelledValue<'_>],
) -> Mapped<Items<Value>>
    ensures { Gives (λ xs. xs) result (spec.each (read_spec.slot_value schema.now (N.is_defined names.now)) (zip slots.entry.now values.entry.now)) }
{
    let mut found = Vec::with_capacity(alloc, slots.len())?;
    'values: while let [slot, more_slots @ ..] = slots {
        let [value, more_values @ ..] = values else {
            break;
        };
        found.push(slot_value(alloc, schema, names, slot, value)?)?;
        slots = more_slots;
        values = more_values;
    }
    Ok(Items::from_vec(found))
}
