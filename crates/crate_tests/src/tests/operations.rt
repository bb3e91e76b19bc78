//! What is said of values that no expression has: a name around `?`, around an instance and around another name, and two whole
//! numbers where one has to be an aggregate, since operators do arithmetic with these. All else is in `tests/operations.py`.

use plain_data::{Items, Text};
use rp_operations::{
    Compared, aggregate_union, compare, intersect, is_in, is_indeterminate, minus, same,
};
use rp_value::{AggregateKind, Logical, Value};
use std::alloc::{AllocError, Global};
use std::test::*;

fn named(alloc: Global, value: Value) -> Result<Value, AllocError> {
    Value::named(alloc, 7, value)
}

fn text(alloc: Global, characters: &str) -> Result<Value, AllocError> {
    Value::text(alloc, Text::from_str(alloc, characters)?)
}

/// The aggregate of one element.
fn of_one(alloc: Global, kind: AggregateKind, value: Value) -> Result<Value, AllocError> {
    let mut items = Items::new(alloc);
    items.push(value)?;
    Value::aggregate(alloc, kind, 1, items)
}

/// Whether this is said of two values by `=` and `<` and by `:=:`.
fn stand_so(x: &Value, compared: Compared, logical: Logical, y: &Value) -> bool {
    compare(x, y) == compared && same(x, y) == logical
}

/// Whether nothing is known by `=` and `<`, and this by `:=:`, also with the sides exchanged.
fn are_unknown(x: &Value, logical: Logical, y: &Value) -> bool {
    stand_so(x, Compared::Unknown, logical, y) && stand_so(y, Compared::Unknown, logical, x)
}

fn names_in_names_are_looked_through(alloc: Global) -> Result<bool, AllocError> {
    let x = named(alloc, Value::named(alloc, 8, text(alloc, "a")?)?)?;
    let y = text(alloc, "b")?;
    let forth = stand_so(&x, Compared::Less, Logical::False, &y);
    Ok(forth && stand_so(&y, Compared::Greater, Logical::False, &x))
}

fn names_of_instances_are_looked_through(alloc: Global) -> Result<bool, AllocError> {
    let x = named(alloc, Value::Inst(1))?;
    let xs = of_one(
        alloc,
        AggregateKind::List,
        Value::named(alloc, 8, Value::Inst(1))?,
    )?;
    let ys = named(alloc, of_one(alloc, AggregateKind::List, Value::Inst(1))?)?;
    let alone = are_unknown(&x, Logical::True, &Value::Inst(1));
    Ok(alone && are_unknown(&ys, Logical::True, &xs))
}

fn nothing_is_known_of_named_indeterminates(alloc: Global) -> Result<bool, AllocError> {
    let x = named(alloc, Value::Indet)?;
    let xs = of_one(alloc, AggregateKind::List, named(alloc, Value::Indet)?)?;
    let ones = of_one(alloc, AggregateKind::List, Value::Int(1))?;
    let alone = are_unknown(&x, Logical::Unknown, &Value::Int(2));
    Ok(alone && are_unknown(&xs, Logical::Unknown, &ones))
}

fn named_indeterminates_add_nothing(alloc: Global) -> Result<bool, AllocError> {
    let x = named(alloc, Value::Indet)?;
    let set = of_one(alloc, AggregateKind::Set, Value::Int(1))?;
    let list = of_one(alloc, AggregateKind::List, Value::Int(1))?;
    let bag = of_one(alloc, AggregateKind::Bag, Value::Int(1))?;
    let sum = aggregate_union(alloc, &set, &x)?;
    let difference = minus(alloc, &list, &x)?;
    let is_unknown = matches!(&is_in(&x, &bag), Value::Log(Logical::Unknown));
    Ok(is_unknown && is_indeterminate(&sum) && is_indeterminate(&difference))
}

fn numbers_are_no_aggregates(alloc: Global) -> Result<bool, AllocError> {
    let sum = aggregate_union(alloc, &Value::Int(2), &Value::Int(3))?;
    let product = intersect(alloc, &Value::Int(2), &Value::Int(3))?;
    let difference = minus(alloc, &Value::Int(2), &Value::Int(2))?;
    Ok(is_indeterminate(&sum) && is_indeterminate(&product) && is_indeterminate(&difference))
}

#[test]
fn values_that_no_expression_has(rt: HostRuntime) -> Result<(), Fail> {
    assert!(rt; names_in_names_are_looked_through(rt.alloc())?);
    assert!(rt; names_of_instances_are_looked_through(rt.alloc())?);
    assert!(rt; nothing_is_known_of_named_indeterminates(rt.alloc())?);
    assert!(rt; named_indeterminates_add_nothing(rt.alloc())?);
    assert!(rt; numbers_are_no_aggregates(rt.alloc())?);
    Ok(())
}
