//! References that leave a population, which are read as `?`.

ghost use Rattle.std.specs.Prelude.{◌≡◌, IfOk, map, nat_lt, if◌then◌else◌};
ghost use Rattle.rp_meaning.specs.Reading as spec;
ghost use Rattle.rp_value.specs.declared.value.Value.TheVariants as v;

use plain_data::Items;
use rp_value::{AggregateKind, Elements, Value};
use std::alloc::{AllocError, Global};

/// The value, in which each reference that leaves a population of so many instances is `?`.
#[cycle(present)]
#[tactic(auto, unfolding(rp_meaning::specs::Reading::present))]
pub fn present(value: &Value, alloc: Global, count: usize) -> Result<Value, AllocError>
    ensures { IfOk result (λ x. x ≡ spec.present count value.now) }
{
    match value {
        Value::Inst(place) => Ok(present_reference(*place, count)),
        Value::Agg { kind, elements } => present_aggregate(elements, *kind, alloc, count),
        Value::Named {
            defined_type,
            value,
        } => Value::named(alloc, *defined_type, present(value.get(), alloc, count)?),
        _ => value.copy(),
    }
}

/// A reference, or `?` where it leaves the population.
fn present_reference(place: u64, count: usize) -> Value
    ensures { result ≡ (if nat_lt place count then v.Inst place else v.Indet) }
{
    if place < count as u64 {
        Value::Inst(place)
    } else {
        Value::Indet
    }
}

/// The aggregate of the elements, in which each reference that leaves the population is `?`.
#[cycle(present)]
fn present_aggregate(
    elements: &Elements<Value>,
    kind: AggregateKind,
    alloc: Global,
    count: usize,
) -> Result<Value, AllocError>
    ensures { IfOk result (λ x. x ≡ v.Agg kind (record { low = elements.now.low; items = map (spec.present count) elements.now.items })) }
{
    let items = all_present(elements.as_slice(), alloc, count)?;
    Value::aggregate(alloc, kind, elements.low(), items)
}

/// The values, in which each reference that leaves a population of so many instances is `?`.
#[cycle(present)]
pub fn all_present(
    values: &[Value],
    alloc: Global,
    count: usize,
) -> Result<Items<Value>, AllocError>
    ensures { IfOk result (λ found. found ≡ map (spec.present count) values.now) }
{
    let mut found = Items::new(alloc);
    for value in values {
        found.push(present(value, alloc, count)?)?;
    }
    Ok(found)
}
