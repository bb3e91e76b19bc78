//! Users of instances in inverse attributes.

ghost use Rattle.std.specs.Prelude.{◌≡◌, None, IfOk};
ghost use Rattle.rp_meaning.specs.Attributes as spec;
ghost use Rattle.rp_meaning.specs.Populations.{instances};
ghost use Rattle.rp_meaning.specs.Uses as uses;
ghost use Rattle.rp_value.specs.declared.value.Value.{out-Value};
ghost use Rattle.rp_meaning.specs.Bare.{place_in};
ghost use Rattle.rp_eval_parts.specs.Counts as counts;

use crate::setting::Setting;
use ex_tree::{InverseAggregate, SetOrBag};
use plain_data::Items;
use rp_meaning::Inverse;
use rp_value::{AggregateKind, Value};
use std::alloc::{AllocError, Global};

/// Where an instance stands that carries no type.
fn own_place(value: &Value) -> Option<u64>
    ensures { result ≡ place_in (out-Value value.now) }
{
    match value {
        Value::Inst(place) => Some(*place),
        _ => None,
    }
}

fn is_at(last: Option<u64>, place: Option<u64>) -> bool
    ensures { result ≡ counts.is_at last place }
{
    match (last, place) {
        (Some(last), Some(place)) => place == last,
        _ => false,
    }
}

/// Whether an instance stands right behind itself.
fn any_again(users: &[Value]) -> bool
    ensures { result ≡ counts.again_after None users.now }
{
    let mut last = None;
    for user in users {
        let place = own_place(user);
        if is_at(last, place) {
            return true;
        }
        last = place;
    }
    false
}

/// Each instance once, of those that stand together.
fn each_once(alloc: Global, users: &[Value]) -> Result<Items<Value>, AllocError>
    ensures { IfOk result (λ found. found ≡ counts.once_after None users.now) }
{
    let mut found = Items::new(alloc);
    let mut last = None;
    for user in users {
        let place = own_place(user);
        if !is_at(last, place) {
            found.push(user.copy()?)?;
            last = place;
        }
    }
    Ok(found)
}

fn is_bag(aggregate: Option<InverseAggregate>) -> bool
    ensures { result ≡ spec.is_bag aggregate }
{
    match aggregate {
        None => false,
        Some(aggregate) => match aggregate.kind {
            SetOrBag::Bag => true,
            SetOrBag::Set => false,
        },
    }
}

/// The users of what stands at a place that an inverse attribute counts.
pub fn inverse_users<W: Setting>(
    alloc: Global,
    world: &W,
    inverse: &Inverse,
    place: usize,
) -> Result<Items<Value>, AllocError>
    ensures { IfOk result (λ found. found ≡ instances (spec.inverse_places (W.world world.now).population inverse.now place)) }
{
    let users = world.users(alloc, place, &inverse.role)?;
    if is_bag(inverse.aggregate) {
        return Ok(users);
    }
    if !any_again(users.as_slice()) {
        return Ok(users);
    }
    let found = each_once(alloc, users.as_slice())?;
    Ok(found)
}

/// The only one of several.
fn only_one(users: &[Value]) -> Result<Value, AllocError>
    ensures { IfOk result (λ value. value ≡ counts.only_one users.now) }
{
    match users {
        [user] => user.copy(),
        _ => Ok(Value::Indet),
    }
}

/// The value of an inverse attribute with these users.
pub fn of_users(
    alloc: Global,
    aggregate: Option<InverseAggregate>,
    users: Items<Value>,
) -> Result<Value, AllocError>
    ensures { IfOk result (λ value. value ≡ counts.of_users aggregate users) }
{
    match aggregate {
        None => only_one(users.as_slice()),
        Some(aggregate) => match aggregate.kind {
            SetOrBag::Bag => Value::aggregate(alloc, AggregateKind::Bag, 1, users),
            SetOrBag::Set => Value::aggregate(alloc, AggregateKind::Set, 1, users),
        },
    }
}
