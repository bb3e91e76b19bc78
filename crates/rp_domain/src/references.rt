//! References that leave a population.

ghost use Rattle.std.specs.Prelude.{◌≡◌, IsFalse, map};
ghost use Rattle.rp_meaning.specs.Reading as spec;

use rp_value::Value;

/// Whether a reference of the value leaves a population of so many instances.
#[cycle(leaving)]
#[tactic(auto, unfolding(rp_meaning::specs::Reading::present))]
pub(crate) fn leaves(value: &Value, count: usize) -> bool
    ensures { IsFalse result → spec.present count value.now ≡ value.now }
{
    match value {
        Value::Inst(place) => *place >= count as u64,
        Value::Agg { kind: _, elements } => one_leaves(elements.as_slice(), count),
        Value::Named {
            defined_type: _,
            value,
        } => leaves(value.get(), count),
        _ => false,
    }
}

/// Whether a reference of one of the values leaves the population.
#[cycle(leaving)]
fn one_leaves(values: &[Value], count: usize) -> bool
    ensures { IsFalse result → map (spec.present count) values.now ≡ values.now }
{
    for value in values {
        if leaves(value, count) {
            return true;
        }
    }
    false
}
