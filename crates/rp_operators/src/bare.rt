//! Values without the names of defined types.

ghost use Rattle.std.specs.Prelude.{◌≡◌, IfOk, None, true};
ghost use Rattle.std.specs.Option.{option_copied, option_map};
ghost use Rattle.rp_meaning.specs.Bare as spec;
ghost use Rattle.rp_meaning.specs.Operators.{truth_in};
ghost use Rattle.rp_operations.specs.Seen.{seen};
ghost use Rattle.rp_operators.specs.Sights.{aggregate_behind, opened, seen_by};
ghost use Rattle.rp_value.specs.declared.value.Value.{out-Value};

use rp_value::{AggregateKind, Bits, Characters, Elements, HeldDecimal, Logical, Value};
use std::alloc::AllocError;

/// What is beneath the names of a value.
#[derive(Clone, Copy)]
pub(crate) enum Bare<'v> {
    Indeterminate,
    Integer(i64),
    Real(&'v HeldDecimal),
    Text(&'v Characters),
    Bits(&'v Bits),
    Truth(Logical),
    Item(usize, usize),
    Instance(u64),
    Aggregate(AggregateKind, &'v Elements<Value>),
}

/// The value beneath the names of a value.
#[inline]
#[tactic(auto, using(crate::proofs::Sights::bare_values))]
pub(crate) fn beneath(value: &Value) -> &Value
    ensures { result.now ≡ spec.bare value.now }
{
    match value {
        Value::Named {
            defined_type: _,
            value,
        } => beneath(value.get()),
        _ => value,
    }
}

/// What a value without a name is.
#[inline]
#[tactic(auto, using(crate::proofs::Sights::bares))]
fn unnamed(value: &Value) -> Bare<'_>
    requires { spec.carried value.now ≡ None }
    ensures value { opened result ≡ out-Value (spec.bare value.now) }
    ensures sight { seen_by result ≡ seen value.now }
{
    match value {
        Value::Indet => Bare::Indeterminate,
        Value::Int(number) => Bare::Integer(*number),
        Value::Dec(decimal) => Bare::Real(decimal),
        Value::Str(text) => Bare::Text(text),
        Value::Bin(bits) => Bare::Bits(bits),
        Value::Log(logical) => Bare::Truth(*logical),
        Value::Item { enumeration, place } => Bare::Item(*enumeration, *place),
        Value::Inst(place) => Bare::Instance(*place),
        Value::Agg { kind, elements } => Bare::Aggregate(*kind, elements),
        Value::Named {
            defined_type: _,
            value: _,
        } => unreachable!(),
    }
}

/// What is beneath the names of a value.
#[inline]
pub(crate) fn beneath_names(value: &Value) -> Bare<'_>
    ensures value { opened result ≡ out-Value (spec.bare value.now) }
    ensures sight { seen_by result ≡ seen value.now }
{
    unnamed(beneath(value))
}

/// A value without the names that stand around it.
pub(crate) fn without_names(value: &Value) -> Result<Value, AllocError>
    ensures { IfOk result (λ x. x ≡ spec.bare value.now) }
{
    beneath(value).copy()
}

/// The defined type that a value carries.
pub fn carried(value: &Value) -> Option<usize>
    ensures { result ≡ spec.carried value.now }
{
    match value {
        Value::Named {
            defined_type,
            value: _,
        } => Some(*defined_type),
        _ => None,
    }
}

/// Whether a value is neither an aggregate nor under a name.
#[inline(always)]
pub(crate) fn is_scalar(value: &Value) -> bool
    ensures { result ≡ true → spec.aggregate_of value.now ≡ None }
{
    match value {
        Value::Agg {
            kind: _,
            elements: _,
        } => false,
        Value::Named {
            defined_type: _,
            value: _,
        } => false,
        _ => true,
    }
}

/// Whether there is nothing beneath the names of a value.
#[inline]
pub fn is_indeterminate(value: &Value) -> bool
    ensures { result ≡ spec.is_indeterminate value.now }
{
    match beneath_names(value) {
        Bare::Indeterminate => true,
        _ => false,
    }
}

/// Of a value of INTEGER.
#[inline]
pub fn integer_of(value: &Value) -> Option<i64>
    ensures { result ≡ spec.integer_of value.now }
{
    match beneath_names(value) {
        Bare::Integer(number) => Some(number),
        _ => None,
    }
}

/// Of a value of LOGICAL, and UNKNOWN of `?`.
#[inline]
pub(crate) fn truth_of(value: &Value) -> Option<Logical>
    ensures { result ≡ truth_in (seen value.now) }
{
    match beneath_names(value) {
        Bare::Truth(logical) => Some(logical),
        Bare::Indeterminate => Some(Logical::Unknown),
        _ => None,
    }
}

/// Of a value of STRING.
#[inline]
pub fn text_of(value: &Value) -> Option<&Characters>
    ensures { option_copied result ≡ spec.text_of value.now }
{
    match beneath_names(value) {
        Bare::Text(text) => Some(text),
        _ => None,
    }
}

/// Of a value of BINARY.
pub(crate) fn bits_of(value: &Value) -> Option<&Bits>
    ensures { option_copied result ≡ spec.bits_of value.now }
{
    match beneath_names(value) {
        Bare::Bits(bits) => Some(bits),
        _ => None,
    }
}

/// Where an instance stands in its population.
#[inline]
pub fn place_of(value: &Value) -> Option<u64>
    ensures { result ≡ spec.place_of value.now }
{
    match beneath_names(value) {
        Bare::Instance(place) => Some(place),
        _ => None,
    }
}

/// The kind and the elements of an aggregate.
#[inline]
pub fn aggregate_of(value: &Value) -> Option<(AggregateKind, &Elements<Value>)>
    ensures { option_map aggregate_behind result ≡ spec.aggregate_of value.now }
{
    match beneath_names(value) {
        Bare::Aggregate(kind, elements) => Some((kind, elements)),
        _ => None,
    }
}

/// Whether a condition holds: for TRUE alone.
#[inline]
pub fn is_true(value: &Value) -> bool
    ensures { result ≡ spec.is_true value.now }
{
    match beneath_names(value) {
        Bare::Truth(logical) => logical.is_true(),
        _ => false,
    }
}
