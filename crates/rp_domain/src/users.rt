//! Who uses whom.

ghost use Rattle.std.specs.Prelude.{◌≡◌, [], ◌∷◌, ◌++◌, length, replicate, slice_get, IfOk, OnOk};
ghost use Rattle.std.specs.List.{flat_map, list_any, zip};
ghost use Rattle.std.specs.Option.{option_to_list};
ghost use Rattle.rp_meaning.specs.Populations.{instances};
ghost use Rattle.rp_meaning.specs.Uses as uses;
ghost use Rattle.rp_domain.specs.Chains.{row_to, rows};
ghost use Rattle.rp_domain.specs.Rows as spec;

use crate::chains::Chains;
use crate::combination::AttributeOf;
use crate::instance::{KeptInstance, value_at};
use ex_named::AttributePlace;
use plain_data::Items;
use rp_meaning::Role;
use rp_operators::same_attribute;
use rp_value::Value;
use shared::Shared;
use std::alloc::{AllocError, Global};
use std::marker::Model;

/// A user of an instance: its place, and the attribute.
pub(crate) struct User {
    place: usize,
    attribute: Shared<AttributeOf>,
}

impl Drop for User {
    fn drop(self) {
        let User {
            place: _,
            attribute,
        } = self;
        drop(attribute);
    }
}

impl Model for User {
    ghost use Rattle.rp_meaning.specs.Uses as uses;
    ghost use Rattle.rp_domain.specs.Rows.{user_by};

    ghost Value = { uses.User };

    ghost view = { λ u. user_by u.place u.attribute };
}

/// Puts a user behind those of each place that a value refers to.
#[cycle(uses)]
fn put_value(
    value: &Value,
    users: &mut Chains<User>,
    place: usize,
    attribute: &Shared<AttributeOf>,
) -> Result<(), AllocError>
    ensures { OnOk result (rows users.new.0 users.new.1 ≡ spec.put_all (rows users.old.0 users.old.1) (spec.uses_by place attribute.now value.now)) }
{
    match value {
        Value::Inst(used) => put_user(users, *used as usize, place, attribute),
        Value::Agg { kind: _, elements } => {
            put_values(elements.as_slice(), users, place, attribute)
        }
        Value::Named {
            defined_type: _,
            value,
        } => put_value(value.get(), users, place, attribute),
        _ => Ok(()),
    }
}

/// Puts a user behind those of a place, if that has a row.
fn put_user(
    users: &mut Chains<User>,
    used: usize,
    place: usize,
    attribute: &Shared<AttributeOf>,
) -> Result<(), AllocError>
    ensures { OnOk result (rows users.new.0 users.new.1 ≡ spec.put (rows users.old.0 users.old.1) used (spec.user_by place attribute.now)) }
{
    let attribute = attribute.share()?;
    users.put(used, User { place, attribute })
}

/// Puts a user behind those of each place that values refer to.
#[cycle(uses)]
fn put_values(
    values: &[Value],
    users: &mut Chains<User>,
    place: usize,
    attribute: &Shared<AttributeOf>,
) -> Result<(), AllocError>
    ensures { OnOk result (rows users.new.0 users.new.1 ≡ spec.put_all (rows users.old.0 users.old.1) (spec.used_by (spec.user_by place attribute.now) (flat_map uses.references values.now))) }
{
    for value in values {
        put_value(value, users, place, attribute)?;
    }
    Ok(())
}

/// Puts a user behind those of each place that the value at a place, which is its attribute's, refers to, if there is one.
fn put_attribute(
    users: &mut Chains<User>,
    place: usize,
    attribute: &Shared<AttributeOf>,
    written: &[Value],
    at: usize,
) -> Result<(), AllocError>
    ensures { OnOk result (rows users.new.0 users.new.1 ≡ spec.put_all (rows users.old.0 users.old.1) (flat_map (λ x. spec.uses_by place attribute.now x) (option_to_list (slice_get written.now at)))) }
{
    match value_at(written, at) {
        None => Ok(()),
        Some(value) => put_value(value, users, place, attribute),
    }
}

/// Puts the user that an instance with these values is behind those of each place that they refer to.
fn put_attributes(
    users: &mut Chains<User>,
    place: usize,
    attributes: &[Shared<AttributeOf>],
    written: &[Value],
) -> Result<(), AllocError>
    ensures { OnOk result (rows users.new.0 users.new.1 ≡ spec.put_all (rows users.old.0 users.old.1) (spec.uses_in place (zip attributes.now written.now))) }
{
    for (at, attribute) in attributes.iter().enumerate() {
        put_attribute(users, place, attribute, written, at)?;
    }
    Ok(())
}

/// Puts an instance behind the users of each place that its values refer to.
fn put_instance(
    users: &mut Chains<User>,
    place: usize,
    instance: &KeptInstance,
) -> Result<(), AllocError>
    ensures { OnOk result (rows users.new.0 users.new.1 ≡ spec.put_all (rows users.old.0 users.old.1) (flat_map (uses.uses_of place instance.now) instance.now.values)) }
{
    let (attributes, written) = instance.uses();
    put_attributes(users, place, attributes, written)
}

/// The users of each instance.
#[tactic(auto, unfolding(rp_meaning::specs::Uses::uses_from))]
pub(crate) fn users_of(
    alloc: Global,
    instances: &[KeptInstance],
) -> Result<Chains<User>, AllocError>
    ensures { IfOk result (λ users. rows users.0 users.1 ≡ spec.put_all (replicate (length instances.now) []) (uses.uses_from 0 instances.now)) }
{
    let mut users = Chains::new(alloc, instances.len())?;
    for (place, instance) in instances.iter().enumerate() {
        put_instance(&mut users, place, instance)?;
    }
    users.shrink();
    Ok(users)
}

/// Whether an attribute is one of these.
fn is_one_of(attribute: &AttributePlace, attributes: &[AttributePlace]) -> bool
    ensures { result ≡ list_any (uses.same_attribute attribute.now) attributes.now }
{
    for other in attributes {
        if same_attribute(attribute, other) {
            return true;
        }
    }
    false
}

fn is_in(role: &Role, user: &User) -> bool
    ensures { result ≡ uses.is_in role.now user.now }
{
    match role {
        Role::Every => true,
        Role::Of(entity, attributes) => {
            let attribute = user.attribute.get();
            attribute.entities.get().as_slice().contains(entity)
                && is_one_of(&attribute.attribute, attributes.as_slice())
        }
    }
}

/// Adds the instance that a user is, if it uses in a role.
fn push_user(found: &mut Vec<Value>, role: &Role, user: &User) -> Result<(), AllocError>
    ensures { OnOk result (found.new.items ≡ found.old.items ++ instances (uses.places_among role.now (user.now ∷ []))) }
{
    if is_in(role, user) {
        found.push(Value::Inst(user.place as u64))?;
    }
    Ok(())
}

/// The instances that use in a role among the users of a place, by the end of their row.
pub(crate) fn users_among(
    alloc: Global,
    users: &Chains<User>,
    mut end: usize,
    role: &Role,
) -> Result<Items<Value>, AllocError>
    ensures { IfOk result (λ found. found ≡ instances (uses.places_among role.now (row_to users.now.0 end))) }
{
    let mut found = Vec::new(alloc);
    'walk: while let Some(last) = users.last(end) {
        let (user, before) = last;
        push_user(&mut found, role, user)?;
        end = before;
    }
    found.reverse();
    Ok(Items::from_vec(found))
}
