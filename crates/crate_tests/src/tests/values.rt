//! Values and their copies, where there is memory for them. What they are is their contracts' to say.

use plain_data::{Items, Text};
use rp_content::{Entities, Instance};
use rp_value::{AggregateKind, Decimal, Logical, Value};
use std::alloc::{AllocError, Global};
use std::test::*;

/// Of more digits than are held in place.
const THIRTY_DIGITS: &[u8] = b"123456789012345678901234567890.5";

fn push_text(alloc: Global, values: &mut Items<Value>, text: &str) -> Result<(), AllocError> {
    let text = Text::from_str(alloc, text)?;
    values.push(Value::text(alloc, text)?)
}

fn push_decimal(alloc: Global, values: &mut Items<Value>, text: &[u8]) -> Result<(), AllocError> {
    match Decimal::parse(text) {
        Ok(decimal) => values.push(Value::decimal(alloc, decimal)?),
        Err(_) => Ok(()),
    }
}

fn push_set(alloc: Global, values: &mut Items<Value>) -> Result<(), AllocError> {
    let mut items = Items::new(alloc);
    items.push(Value::Int(7))?;
    values.push(Value::aggregate(alloc, AggregateKind::Set, 1, items)?)
}

/// Adds a text, a decimal, a set and a logical value under the name of a type.
fn push_samples(alloc: Global, values: &mut Items<Value>) -> Result<(), AllocError> {
    push_text(alloc, values, "\u{c4}1")?;
    push_decimal(alloc, values, THIRTY_DIGITS)?;
    push_set(alloc, values)?;
    values.push(Value::named(alloc, 3, Value::Log(Logical::True))?)
}

fn sample(alloc: Global) -> Result<Instance, AllocError> {
    let mut values = Items::new(alloc);
    push_samples(alloc, &mut values)?;
    Ok(Instance {
        name: 12,
        entities: Entities::Leaf(5),
        values,
    })
}

/// Whether an instance's copy stays when it goes.
fn is_copied(alloc: Global) -> Result<bool, AllocError> {
    let copy = sample(alloc)?.copy(alloc)?;
    Ok(matches!(
        copy.values.as_slice(),
        [
            Value::Str(..),
            Value::Dec(..),
            Value::Agg { .. },
            Value::Named { .. }
        ],
    ))
}

#[test]
fn instances_are_copied(rt: HostRuntime) -> Result<(), Fail> {
    assert!(rt; is_copied(rt.alloc())?);
    Ok(())
}
