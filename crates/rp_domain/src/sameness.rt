//! Values that are the same in all that they hold.

ghost use Rattle.std.specs.Prelude.{◌≡◌, IsTrue};
ghost use Rattle.rp_value.specs.declared.value.Value.TheVariants as v;

use rp_value::{AggregateKind, Elements, HeldDecimal, Value};

fn is_same_kind(kind: AggregateKind, other: AggregateKind) -> bool
    ensures { IsTrue result → kind ≡ other }
{
    kind == other
}

fn are_same_bits(bits: &[bool], others: &[bool]) -> bool
    ensures { IsTrue result → bits.now ≡ others.now }
{
    if bits.len() != others.len() {
        return false;
    }
    for (at, bit) in bits.iter().enumerate() {
        if *bit != others[at] {
            return false;
        }
    }
    true
}

fn is_same_decimal(decimal: &HeldDecimal, other: &HeldDecimal) -> bool
    ensures { IsTrue result → decimal.now ≡ other.now }
{
    decimal.coefficient() == other.coefficient() && decimal.exponent() == other.exponent()
}

/// Whether a value that holds no others is the same as another one.
fn is_same_scalar(value: &Value, other: &Value) -> bool
    ensures { IsTrue result → value.now ≡ other.now }
{
    match (value, other) {
        (Value::Indet, Value::Indet) => true,
        (Value::Int(number), Value::Int(other)) => *number == *other,
        (Value::Dec(decimal), Value::Dec(other)) => is_same_decimal(decimal, other),
        (Value::Str(text), Value::Str(other)) => text.as_bytes() == other.as_bytes(),
        (Value::Bin(bits), Value::Bin(other)) => are_same_bits(bits.as_slice(), other.as_slice()),
        (Value::Log(logical), Value::Log(other)) => *logical == *other,
        (Value::Inst(place), Value::Inst(other)) => *place == *other,
        (
            Value::Item { enumeration, place },
            Value::Item {
                enumeration: other_enumeration,
                place: other_place,
            },
        ) => *enumeration == *other_enumeration && *place == *other_place,
        _ => false,
    }
}

/// Whether a value is the same as another one in all that it holds.
#[cycle(sameness)]
pub(crate) fn is_same(value: &Value, other: &Value) -> bool
    ensures { IsTrue result → value.now ≡ other.now }
{
    match value {
        Value::Agg { kind, elements } => is_same_aggregate(elements, *kind, other),
        Value::Named {
            defined_type,
            value,
        } => match other {
            Value::Named {
                defined_type: other_type,
                value: other,
            } => *defined_type == *other_type && is_same(value.get(), other.get()),
            _ => false,
        },
        _ => is_same_scalar(value, other),
    }
}

#[cycle(sameness)]
fn is_same_aggregate(elements: &Elements<Value>, kind: AggregateKind, other: &Value) -> bool
    ensures { IsTrue result → v.Agg kind elements.now ≡ other.now }
{
    let Value::Agg {
        kind: other_kind,
        elements: others,
    } = other
    else {
        return false;
    };
    if !is_same_kind(kind, *other_kind) {
        return false;
    }
    if elements.low() != others.low() {
        return false;
    }
    are_same(elements.as_slice(), others.as_slice())
}

#[cycle(sameness)]
fn are_same(values: &[Value], others: &[Value]) -> bool
    ensures { IsTrue result → values.now ≡ others.now }
{
    if values.len() != others.len() {
        return false;
    }
    for (at, value) in values.iter().enumerate() {
        if !is_same(value, &others[at]) {
            return false;
        }
    }
    true
}
