//! Operators on aggregates.

ghost use Rattle.std.specs.Prelude.{◌≡◌, ◌++◌, ◌∷◌, List, [], ◌||◌, if◌then◌else◌, false, IfOk, OnOk};
ghost use Rattle.std.specs.List.{list_any, position};
ghost use Rattle.rp_numbers.specs.declared.Logical.TheVariants.{False, Unknown, True};
ghost use Rattle.rp_operations.specs.Seen as sight;
ghost use Rattle.rp_operations.specs.Seen.{Aggregate, seen};
ghost use Rattle.rp_operations.specs.Operations as spec;
ghost use Rattle.rp_value.specs.declared.value.Value.{Value};

use crate::bare::{Bare, beneath, is_indeterminate};
use crate::comparisons::{compare, same};
use crate::equality::has_indeterminate;
use plain_data::Items;
use rp_value::{AggregateKind, Elements, Logical, Value};
use std::alloc::{AllocError, Global};

/// Whether one of the values is the same as this one.
fn contains(values: &[Value], value: &Value) -> bool
    ensures { result ≡ list_any (spec.is_same value.now) values.now }
{
    values.iter().any(|other| same(value, other).is_true())
}

/// Whether one of the values is equal to this one.
fn contains_equal(values: &[Value], value: &Value) -> bool
    ensures { result ≡ list_any (spec.are_equal value.now) values.now }
{
    values.iter().any(|other| compare(value, other).is_equal())
}

/// Appends the same values.
fn append(found: &mut Items<Value>, values: &[Value]) -> Result<(), AllocError>
    ensures { OnOk result (found.new ≡ found.old ++ values.now) }
{
    for value in values {
        found.push(value.copy()?)?;
    }
    Ok(())
}

/// The same values.
fn copies(alloc: Global, values: &[Value]) -> Result<Items<Value>, AllocError>
    ensures { IfOk result (λ found. found ≡ values.now) }
{
    let mut found = Items::new(alloc);
    append(&mut found, values)?;
    Ok(found)
}

/// Where the first value stands that is the same as this one.
fn place_of(values: &[Value], value: &Value) -> Option<usize>
    ensures { result ≡ position (spec.is_same value.now) values.now }
{
    values.iter().position(|other| same(value, other).is_true())
}

/// Takes the first value that is the same as this one from the list, if there is one.
#[tactic(auto, using(crate::proofs::Taking::takes))]
fn take_same(left: &mut Items<Value>, value: &Value) -> bool
    ensures found { result ≡ list_any (spec.is_same value.now) left.old }
    ensures left { left.new ≡ spec.without_first (spec.is_same value.now) left.old }
    ensures kept { result ≡ false → left.new ≡ left.old }
{
    match place_of(left.as_slice(), value) {
        Some(place) => {
            drop(left.remove(place));
            true
        }
        None => false,
    }
}

/// The values of the left, then those of the right that are not yet there.
fn set_union(alloc: Global, xs: &[Value], ys: &[Value]) -> Result<Items<Value>, AllocError>
    ensures { IfOk result (λ found. found ≡ spec.set_union xs.now ys.now) }
{
    let mut found = copies(alloc, xs)?;
    for y in ys {
        if !contains(found.as_slice(), y) {
            found.push(y.copy()?)?;
        }
    }
    Ok(found)
}

/// The values of the left that find an equal one left on the right.
fn common(alloc: Global, xs: &[Value], ys: &[Value]) -> Result<Items<Value>, AllocError>
    ensures { IfOk result (λ found. found ≡ spec.common xs.now ys.now) }
{
    let mut left = copies(alloc, ys)?;
    let mut found = Items::new(alloc);
    for x in xs {
        if take_same(&mut left, x) {
            found.push(x.copy()?)?;
        }
    }
    Ok(found)
}

/// The values of the left, less the first equal one left for each of the right.
fn less(alloc: Global, xs: &[Value], ys: &[Value]) -> Result<Items<Value>, AllocError>
    ensures { IfOk result (λ left. left ≡ spec.less xs.now ys.now) }
{
    let mut left = copies(alloc, xs)?;
    for y in ys {
        take_same(&mut left, y);
    }
    Ok(left)
}

/// Whether each of the values of the left has an equal one of its own on the right.
fn are_within(alloc: Global, xs: &[Value], ys: &[Value]) -> Result<bool, AllocError>
    ensures { IfOk result (λ all. all ≡ spec.all_within xs.now ys.now) }
{
    let mut left = copies(alloc, ys)?;
    for x in xs {
        if !take_same(&mut left, x) {
            return Ok(false);
        }
    }
    Ok(true)
}

fn is_set(kind: AggregateKind) -> bool
    ensures { result ≡ spec.is_set kind }
{
    match kind {
        AggregateKind::Set => true,
        _ => false,
    }
}

fn has_places(kind: AggregateKind) -> bool
    ensures { result ≡ spec.has_places kind }
{
    match kind {
        AggregateKind::Array | AggregateKind::List => true,
        AggregateKind::Bag | AggregateKind::Set | AggregateKind::Initializer => false,
    }
}

/// Whether it is neither `?` nor an aggregate.
fn is_element(value: &Value) -> bool
    ensures { result ≡ spec.is_element (seen value.now) }
{
    match beneath(value) {
        Bare::Indeterminate | Bare::Aggregate(_, _) => false,
        _ => true,
    }
}

/// The elements of an aggregate of this kind with others.
fn joined(
    alloc: Global,
    kind: AggregateKind,
    xs: &[Value],
    ys: &[Value],
) -> Result<Items<Value>, AllocError>
    ensures { IfOk result (λ found. found ≡ spec.joined kind xs.now ys.now) }
{
    if is_set(kind) {
        return set_union(alloc, xs, ys);
    }
    let mut found = copies(alloc, xs)?;
    append(&mut found, ys)?;
    Ok(found)
}

/// The kind and the first index of what is made of two aggregates.
fn like(
    kind: AggregateKind,
    xs: &Elements<Value>,
    other: AggregateKind,
    ys: &Elements<Value>,
) -> (AggregateKind, i64)
    ensures { (items : List Value) → spec.aggregate result.0 result.1 items ≡ spec.like kind xs.now other ys.now items }
{
    match kind {
        AggregateKind::Initializer => (other, ys.low()),
        _ => (kind, xs.low()),
    }
}

/// An aggregate with elements that are there. It copies them only where the index of the first is another.
fn with_elements(
    alloc: Global,
    kind: AggregateKind,
    low: i64,
    elements: &Elements<Value>,
) -> Result<Value, AllocError>
    ensures { IfOk result (λ x. x ≡ spec.aggregate kind low elements.now.items) }
{
    if elements.low() == low {
        return Ok(Value::Agg {
            kind,
            elements: elements.share()?,
        });
    }
    let items = copies(alloc, elements.as_slice())?;
    Value::aggregate(alloc, kind, low, items)
}

/// `+` of two aggregates.
fn union(
    alloc: Global,
    kind: AggregateKind,
    xs: &Elements<Value>,
    other: AggregateKind,
    ys: &Elements<Value>,
) -> Result<Value, AllocError>
    ensures { IfOk result (λ x. x ≡ spec.like kind xs.now other ys.now (spec.joined kind xs.now.items ys.now.items)) }
{
    let (like, low) = like(kind, xs, other, ys);
    if ys.as_slice().is_empty() {
        return with_elements(alloc, like, low, xs);
    }
    if xs.as_slice().is_empty() && !is_set(kind) {
        return with_elements(alloc, like, low, ys);
    }
    let items = joined(alloc, kind, xs.as_slice(), ys.as_slice())?;
    Value::aggregate(alloc, like, low, items)
}

/// `+` of an aggregate and an element.
fn union_with(
    alloc: Global,
    kind: AggregateKind,
    xs: &Elements<Value>,
    element: &Value,
) -> Result<Value, AllocError>
    ensures { IfOk result (λ x. x ≡ spec.aggregate kind xs.now.low (spec.joined kind xs.now.items (element.now ∷ []))) }
{
    if is_set(kind) && contains(xs.as_slice(), element) {
        return with_elements(alloc, kind, xs.low(), xs);
    }
    let mut items = copies(alloc, xs.as_slice())?;
    items.push(element.copy()?)?;
    Value::aggregate(alloc, kind, xs.low(), items)
}

/// `+` of an element and an aggregate.
fn union_behind(
    alloc: Global,
    element: &Value,
    kind: AggregateKind,
    ys: &Elements<Value>,
) -> Result<Value, AllocError>
    ensures { IfOk result (λ x. x ≡ spec.aggregate kind ys.now.low (element.now ∷ ys.now.items)) }
{
    let mut items = Items::new(alloc);
    items.push(element.copy()?)?;
    append(&mut items, ys.as_slice())?;
    Value::aggregate(alloc, kind, ys.low(), items)
}

/// `*` of two aggregates.
fn intersection(
    alloc: Global,
    kind: AggregateKind,
    xs: &Elements<Value>,
    other: AggregateKind,
    ys: &Elements<Value>,
) -> Result<Value, AllocError>
    ensures { IfOk result (λ x. x ≡ spec.intersection_seen (Aggregate kind xs.now) (Aggregate other ys.now)) }
{
    let kind = if is_set(kind) || is_set(other) {
        AggregateKind::Set
    } else {
        AggregateKind::Bag
    };
    let items = common(alloc, xs.as_slice(), ys.as_slice())?;
    Value::aggregate(alloc, kind, 1, items)
}

/// `-` of two aggregates.
fn difference(
    alloc: Global,
    kind: AggregateKind,
    xs: &Elements<Value>,
    other: AggregateKind,
    ys: &Elements<Value>,
) -> Result<Value, AllocError>
    ensures { IfOk result (λ x. x ≡ spec.like kind xs.now other ys.now (spec.less xs.now.items ys.now.items)) }
{
    let (like, low) = like(kind, xs, other, ys);
    if ys.as_slice().is_empty() {
        return with_elements(alloc, like, low, xs);
    }
    let items = less(alloc, xs.as_slice(), ys.as_slice())?;
    Value::aggregate(alloc, like, low, items)
}

/// `-` of an aggregate and an element.
#[tactic(auto, using(crate::proofs::Taking::takes))]
fn difference_with(
    alloc: Global,
    kind: AggregateKind,
    xs: &Elements<Value>,
    element: &Value,
) -> Result<Value, AllocError>
    ensures { IfOk result (λ x. x ≡ spec.aggregate kind xs.now.low (spec.less xs.now.items (element.now ∷ []))) }
{
    match place_of(xs.as_slice(), element) {
        Some(place) => {
            let mut left = copies(alloc, xs.as_slice())?;
            drop(left.remove(place));
            Value::aggregate(alloc, kind, xs.low(), left)
        }
        None => with_elements(alloc, kind, xs.low(), xs),
    }
}

/// Whether a value is among those of an aggregate, of which `is_among` tells whether an equal one is.
fn membership(is_among: bool, value: &Value, values: &[Value]) -> Logical
    ensures { result ≡ (if is_among then True else if sight.is_indeterminate (seen value.now) || list_any (λ y. sight.is_indeterminate (seen y)) values.now then Unknown else False) }
{
    if is_among {
        Logical::True
    } else if is_indeterminate(value) || has_indeterminate(values) {
        Logical::Unknown
    } else {
        Logical::False
    }
}

/// `+` of two aggregates, or of one and an element; `?` of others, and with `?` on a side.
#[tactic(auto, unfolding(crate::specs::Operations::union))]
pub fn aggregate_union(alloc: Global, value: &Value, other: &Value) -> Result<Value, AllocError>
    ensures { IfOk result (λ x. x ≡ spec.union value.now other.now) }
{
    match (beneath(value), beneath(other)) {
        (Bare::Indeterminate, _) | (_, Bare::Indeterminate) => Ok(Value::Indet),
        (Bare::Aggregate(kind, xs), Bare::Aggregate(other, ys)) => {
            union(alloc, kind, xs, other, ys)
        }
        (Bare::Aggregate(kind, xs), _) => union_with(alloc, kind, xs, other),
        (_, Bare::Aggregate(kind, ys)) => union_behind(alloc, value, kind, ys),
        _ => Ok(Value::Indet),
    }
}

/// `+` of two values, of which the left one isn't kept: an element is put behind those of an aggregate without a copy of
/// them, where nobody else has them.
pub fn union_in_place(alloc: Global, value: Value, other: &Value) -> Result<Value, AllocError>
    ensures { IfOk result (λ x. x ≡ spec.union value other.now) }
{
    if !is_element(other) {
        return aggregate_union(alloc, &value, other);
    }
    match value.into_aggregate() {
        Err(value) => aggregate_union(alloc, &value, other),
        Ok((kind, low, items)) if is_set(kind) => {
            aggregate_union(alloc, &Value::aggregate(alloc, kind, low, items)?, other)
        }
        Ok((kind, low, items)) => {
            let mut items = items;
            items.push(other.copy()?)?;
            Value::aggregate(alloc, kind, low, items)
        }
    }
}

/// `*` of two aggregates; `?` of others.
#[tactic(auto, unfolding(crate::specs::Operations::intersection))]
pub fn intersect(alloc: Global, value: &Value, other: &Value) -> Result<Value, AllocError>
    ensures { IfOk result (λ x. x ≡ spec.intersection value.now other.now) }
{
    match (beneath(value), beneath(other)) {
        (Bare::Aggregate(kind, xs), Bare::Aggregate(other, ys)) => {
            intersection(alloc, kind, xs, other, ys)
        }
        _ => Ok(Value::Indet),
    }
}

/// `-` of an aggregate and another or an element; `?` of others, and with `?` on a side.
#[tactic(auto, unfolding(crate::specs::Operations::difference))]
pub fn minus(alloc: Global, value: &Value, other: &Value) -> Result<Value, AllocError>
    ensures { IfOk result (λ x. x ≡ spec.difference value.now other.now) }
{
    match (beneath(value), beneath(other)) {
        (Bare::Aggregate(_, _), Bare::Indeterminate) => Ok(Value::Indet),
        (Bare::Aggregate(kind, xs), Bare::Aggregate(other, ys)) => {
            difference(alloc, kind, xs, other, ys)
        }
        (Bare::Aggregate(kind, xs), _) => difference_with(alloc, kind, xs, other),
        _ => Ok(Value::Indet),
    }
}

/// `IN`: whether the aggregate has an element that is the same; `?` where it is no aggregate.
#[tactic(auto, unfolding(crate::specs::Operations::membership))]
pub fn is_in(value: &Value, aggregate: &Value) -> Value
    ensures { result ≡ spec.membership value.now aggregate.now }
{
    match beneath(aggregate) {
        Bare::Aggregate(_, elements) => {
            let is_among = contains(elements.as_slice(), value);
            Value::Log(membership(is_among, value, elements.as_slice()))
        }
        Bare::Indeterminate => Value::Log(Logical::Unknown),
        _ => Value::Indet,
    }
}

/// VALUE_IN: whether the aggregate has an element that is equal; `?` where it is no aggregate.
#[tactic(auto, unfolding(crate::specs::Operations::value_membership))]
pub fn is_value_in(value: &Value, aggregate: &Value) -> Value
    ensures { result ≡ spec.value_membership value.now aggregate.now }
{
    match beneath(aggregate) {
        Bare::Aggregate(_, elements) => {
            let is_among = contains_equal(elements.as_slice(), value);
            Value::Log(membership(is_among, value, elements.as_slice()))
        }
        Bare::Indeterminate => Value::Log(Logical::Unknown),
        _ => Value::Indet,
    }
}

/// `<=` of two aggregates: whether each element has an equal one of its own in the other; `?` of a LIST or an ARRAY, and of
/// what is no aggregate.
#[tactic(auto, unfolding(crate::specs::Operations::is_within))]
pub fn is_within(alloc: Global, value: &Value, other: &Value) -> Result<Value, AllocError>
    ensures { IfOk result (λ x. x ≡ spec.is_within value.now other.now) }
{
    match (beneath(value), beneath(other)) {
        (Bare::Aggregate(kind, xs), Bare::Aggregate(other, ys))
            if !has_places(kind) && !has_places(other) => {
            let all = are_within(alloc, xs.as_slice(), ys.as_slice())?;
            Ok(Value::Log(Logical::of(all)))
        }
        _ => Ok(Value::Indet),
    }
}
