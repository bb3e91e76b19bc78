//! Instances whose references are positions in a population.

ghost use Rattle.std.specs.Prelude.{◌≡◌, ℕ, map, IfOk, IsFalse};
ghost use Rattle.rp_positions.specs.Positions as positions;
ghost use Rattle.rp_value.specs.declared.value.Value.TheVariants as v;
ghost use Rattle.rp_group_domain.specs.Models as spec;

use crate::lines::Lines;
use crate::names::Names;
use plain_data::Items;
use rp_content::Instance;
use rp_domain::WrittenInstance;
use rp_value::{AggregateKind, Elements, Value};
use std::alloc::{AllocError, Global};

/// Whether there is a reference in the value.
#[cycle(referring)]
#[tactic(auto, unfolding(rp_positions::specs::Positions::positioned))]
fn has_reference(value: &Value) -> bool
    ensures { IsFalse result → (position : ℕ → ℕ) → positions.positioned position value.now ≡ value.now }
{
    match value {
        Value::Inst(_) => true,
        Value::Agg { kind: _, elements } => one_has_reference(elements.as_slice()),
        Value::Named {
            defined_type: _,
            value,
        } => has_reference(value.get()),
        _ => false,
    }
}

/// Whether there is a reference in one of the values.
#[cycle(referring)]
fn one_has_reference(values: &[Value]) -> bool
    ensures { IsFalse result → (position : ℕ → ℕ) → map (positions.positioned position) values.now ≡ values.now }
{
    for value in values {
        if has_reference(value) {
            return true;
        }
    }
    false
}

/// A value, in which each reference is a position. It shares what it holds with the value where there is no reference in that. Names
/// are looked for near a place among the model's instances.
#[cycle(positioned)]
#[tactic(auto, unfolding(rp_positions::specs::Positions::positioned))]
fn positioned(
    value: &Value,
    alloc: Global,
    names: &Names<'_>,
    near: usize,
) -> Result<Value, AllocError>
    ensures { IfOk result (λ x. x ≡ positions.positioned (spec.named_at names.now) value.now) }
{
    if !has_reference(value) {
        return value.copy();
    }
    match value {
        Value::Inst(name) => Ok(Value::Inst(names.position(near, *name))),
        Value::Agg { kind, elements } => positioned_aggregate(elements, *kind, alloc, names, near),
        Value::Named {
            defined_type,
            value,
        } => Value::named(
            alloc,
            *defined_type,
            positioned(value.get(), alloc, names, near)?,
        ),
        _ => value.copy(),
    }
}

/// The aggregate of the elements, in which references are positions.
#[cycle(positioned)]
fn positioned_aggregate(
    elements: &Elements<Value>,
    kind: AggregateKind,
    alloc: Global,
    names: &Names<'_>,
    near: usize,
) -> Result<Value, AllocError>
    ensures { IfOk result (λ x. x ≡ v.Agg kind (record { low = elements.now.low; items = map (positions.positioned (spec.named_at names.now)) elements.now.items })) }
{
    let items = all_positioned(elements.as_slice(), alloc, names, near)?;
    Value::aggregate(alloc, kind, elements.low(), items)
}

/// Values, in which references are positions.
#[cycle(positioned)]
fn all_positioned(
    values: &[Value],
    alloc: Global,
    names: &Names<'_>,
    near: usize,
) -> Result<Items<Value>, AllocError>
    ensures { IfOk result (λ found. found ≡ map (positions.positioned (spec.named_at names.now)) values.now) }
{
    let mut found = Items::from_vec(Vec::with_capacity(alloc, values.len())?);
    for value in values {
        found.push(positioned(value, alloc, names, near)?)?;
    }
    Ok(found)
}

/// The instance at a place of a model, as a population has it.
pub(crate) fn written(
    alloc: Global,
    lines: &mut Lines<'_, '_>,
    names: &Names<'_>,
    place: usize,
    instance: &Instance,
) -> Result<WrittenInstance, AllocError>
    ensures same { lines.new ≡ lines.old }
    ensures written { IfOk result (λ i. i ≡ spec.written lines.old names.now instance.now) }
{
    let entities = lines.entities(alloc, &instance.entities)?;
    let values = all_positioned(instance.values.as_slice(), alloc, names, place)?;
    Ok(WrittenInstance { entities, values })
}
