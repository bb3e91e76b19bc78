//! Copies of values, and what values weigh that are kept. Of weights nothing is proved: they bound what is held.

ghost use Rattle.std.specs.Prelude.{◌≡◌, IfOk};

use rp_value::Value;
use std::alloc::AllocError;

/// So many bytes of text or bits weigh 1.
const BYTES: usize = 16;

/// The same value. One that holds no block is made anew, and so are a decimal and what has a name, mostly without a call.
#[inline(always)]
pub fn copied(value: &Value) -> Result<Value, AllocError>
    ensures { IfOk result (λ x. x ≡ value.now) }
{
    match value {
        Value::Indet => Ok(Value::Indet),
        Value::Int(number) => Ok(Value::Int(*number)),
        Value::Dec(decimal) => Ok(Value::Dec(decimal.share()?)),
        Value::Inst(name) => Ok(Value::Inst(*name)),
        Value::Log(logical) => Ok(Value::Log(*logical)),
        Value::Item { enumeration, place } => Ok(Value::Item {
            enumeration: *enumeration,
            place: *place,
        }),
        Value::Named {
            defined_type,
            value,
        } => Ok(Value::Named {
            defined_type: *defined_type,
            value: value.share()?,
        }),
        _ => value.copy(),
    }
}

/// What is left of a weight after a value, if it is enough: each element at any depth takes 1, and so do 16 bytes of text or bits.
#[cycle(weights)]
pub(crate) fn left_after(value: &Value, left: usize) -> Option<usize> {
    match value {
        Value::Agg { kind: _, elements } => left_after_all(elements.as_slice(), left),
        Value::Named {
            defined_type: _,
            value,
        } => left_after(value.get(), left),
        Value::Str(text) => left.checked_sub(text.as_bytes().len() / BYTES),
        Value::Bin(bits) => left.checked_sub(bits.as_slice().len() / BYTES),
        _ => Some(left),
    }
}

#[cycle(weights)]
fn left_after_all(values: &[Value], left: usize) -> Option<usize> {
    let mut left = left.checked_sub(values.len())?;
    for value in values {
        left = left_after(value, left)?;
    }
    Some(left)
}
