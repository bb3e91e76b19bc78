//! The functions of the language.

ghost use Rattle.std.specs.Prelude.{◌≡◌, IfOk};
ghost use Rattle.rp_meaning.specs.BuiltIns as spec;

use crate::bare::{aggregate_of, bits_of, integer_of, is_indeterminate, text_of};
use crate::numbers::{integer, natural};
use plain_data::Items;
use rp_operations::is_value_in;
use rp_value::{AggregateKind, Logical, Value};
use std::alloc::{AllocError, Global};

/// ABS
pub fn absolute(value: &Value) -> Value
    ensures { result ≡ spec.absolute value.now }
{
    match integer_of(value) {
        Some(number) => natural(number.unsigned_abs() as usize),
        None => Value::Indet,
    }
}

/// ODD
pub fn odd(value: &Value) -> Value
    ensures { result ≡ spec.odd value.now }
{
    match integer_of(value) {
        Some(number) => Value::Log(Logical::of(number.unsigned_abs() % 2 == 1)),
        None => Value::Indet,
    }
}

/// LENGTH, in characters.
#[tactic(auto, using(crate::proofs::Characters::counts))]
pub fn text_length(value: &Value) -> Value
    ensures { result ≡ spec.text_length value.now }
{
    match text_of(value) {
        Some(text) => natural(text.count()),
        None => Value::Indet,
    }
}

/// BLENGTH, in bits.
pub fn binary_length(value: &Value) -> Value
    ensures { result ≡ spec.binary_length value.now }
{
    match bits_of(value) {
        Some(bits) => natural(bits.as_slice().len()),
        None => Value::Indet,
    }
}

/// EXISTS
pub fn exists(value: &Value) -> Value
    ensures { result ≡ spec.exists value.now }
{
    Value::Log(Logical::of(!is_indeterminate(value)))
}

/// NVL
pub fn null_value(value: &Value, substitute: &Value) -> Result<Value, AllocError>
    ensures { IfOk result (λ x. x ≡ spec.null_value value.now substitute.now) }
{
    if is_indeterminate(value) {
        substitute.copy()
    } else {
        value.copy()
    }
}

/// SIZEOF
pub fn size_of(value: &Value) -> Value
    ensures { result ≡ spec.size_of value.now }
{
    match aggregate_of(value) {
        Some((_, elements)) => natural(elements.as_slice().len()),
        None => Value::Indet,
    }
}

/// LOINDEX
pub fn low_index(value: &Value) -> Value
    ensures { result ≡ spec.low_index value.now }
{
    match aggregate_of(value) {
        Some((_, elements)) => integer(i128::from(elements.low())),
        None => Value::Indet,
    }
}

/// HIINDEX
pub fn high_index(value: &Value) -> Value
    ensures { result ≡ spec.high_index value.now }
{
    match aggregate_of(value) {
        Some((_, elements)) => {
            let count = elements.as_slice().len() as i128;
            integer(i128::from(elements.low()) + count - 1)
        }
        None => Value::Indet,
    }
}

/// VALUE_IN
pub fn value_in(aggregate: &Value, value: &Value) -> Value
    ensures { result ≡ spec.value_in aggregate.now value.now }
{
    is_value_in(value, aggregate)
}

/// `[ .. ]`
pub fn initializer(alloc: Global, items: Items<Value>) -> Result<Value, AllocError>
    ensures { IfOk result (λ x. x ≡ spec.initializer items) }
{
    Value::aggregate(alloc, AggregateKind::Initializer, 1, items)
}
