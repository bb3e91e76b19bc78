//! Values without the names of defined types.

ghost use Rattle.std.specs.Prelude.{◌≡◌};
ghost use Rattle.std.specs.List.{list_any};
ghost use Rattle.rp_operations.specs.Seen as spec;
ghost use Rattle.rp_operations.specs.Seen.{seen};
ghost use Rattle.rp_operations.specs.Bare.{seen_by};

use rp_value::{AggregateKind, Elements, HeldDecimal, Logical, Value};

/// What is beneath the names of a value.
#[derive(Clone, Copy)]
pub(crate) enum Bare<'v> {
    Indeterminate,
    Integer(i64),
    Real(&'v HeldDecimal),
    /// As UTF-8.
    Text(&'v [u8]),
    Bits(&'v [bool]),
    Truth(Logical),
    Item(usize, usize),
    Instance(u64),
    Aggregate(AggregateKind, &'v Elements<Value>),
}

/// What is beneath the names of a value.
#[tactic(auto, using(crate::proofs::Sights::sees))]
pub(crate) fn beneath(value: &Value) -> Bare<'_>
    ensures { seen_by result ≡ seen value.now }
{
    match value {
        Value::Indet => Bare::Indeterminate,
        Value::Int(number) => Bare::Integer(*number),
        Value::Dec(decimal) => Bare::Real(decimal),
        Value::Str(text) => Bare::Text(text.as_bytes()),
        Value::Bin(bits) => Bare::Bits(bits.as_slice()),
        Value::Log(logical) => Bare::Truth(*logical),
        Value::Item { enumeration, place } => Bare::Item(*enumeration, *place),
        Value::Inst(name) => Bare::Instance(*name),
        Value::Agg { kind, elements } => Bare::Aggregate(*kind, elements),
        Value::Named {
            defined_type: _,
            value,
        } => beneath(value.get()),
    }
}

/// Whether it is `?`, under names or not.
pub fn is_indeterminate(value: &Value) -> bool
    ensures { result ≡ spec.is_indeterminate (seen value.now) }
{
    match beneath(value) {
        Bare::Indeterminate => true,
        _ => false,
    }
}

/// Whether the two are of one kind.
pub(crate) fn are_of_one_kind(s: Bare<'_>, t: Bare<'_>) -> bool
    ensures { result ≡ spec.same_kind (seen_by s.entry) (seen_by t.entry) }
{
    match (s, t) {
        (Bare::Integer(_) | Bare::Real(_), Bare::Integer(_) | Bare::Real(_)) => true,
        (Bare::Text(_), Bare::Text(_)) => true,
        (Bare::Bits(_), Bare::Bits(_)) => true,
        (Bare::Truth(_), Bare::Truth(_)) => true,
        (Bare::Item(enumeration, _), Bare::Item(other, _)) => enumeration == other,
        (Bare::Instance(_), Bare::Instance(_)) => true,
        (Bare::Aggregate(_, _), Bare::Aggregate(_, _)) => true,
        _ => false,
    }
}

/// Whether the value is an instance, or holds one at any depth.
#[cycle(instances)]
#[tactic(auto, using(crate::proofs::Sights::held_by_elements), unfolding(crate::specs::Seen::holds_instance))]
pub fn holds_instance(value: &Value) -> bool
    ensures { result ≡ spec.holds_instance value.now }
{
    match value {
        Value::Inst(_) => true,
        Value::Agg { kind: _, elements } => hold_instance(elements.as_slice()),
        Value::Named {
            defined_type: _,
            value,
        } => holds_instance(value.get()),
        _ => false,
    }
}

/// Whether one of the values is an instance, or holds one.
#[cycle(instances)]
fn hold_instance(values: &[Value]) -> bool
    ensures { result ≡ list_any spec.holds_instance values.now }
{
    for value in values {
        if holds_instance(value) {
            return true;
        }
    }
    false
}
