//! What instances refer to.

ghost use Rattle.std.specs.Prelude.{◌≡◌, ◌==◌, false, [], ◌∷◌, IfOk, IfSome};
ghost use Rattle.std.specs.Bool.{OnFalse};
ghost use Rattle.std.specs.List.{flat_map, list_any};
ghost use Rattle.std.specs.Option.{option_map_or};
ghost use Rattle.rp_index.specs.Index.{AreUsersAmong};
ghost use Rattle.rp_rows.specs.Contents.{references};
ghost use Rattle.rp_rows.specs.Instances as spec;

use rp_content::{Instance, Instances};
use rp_index::Indexed;
use rp_value::Value;
use std::alloc::{AllocError, Global};
use std::collections::BTreeSet;

/// Whether the value refers to the name, at any depth.
#[cycle(references)]
fn has_reference(name: u64, value: &Value) -> bool
    ensures { result ≡ list_any (λ m. m == name) (references value.now) }
{
    match value {
        Value::Inst(other) => *other == name,
        Value::Agg { kind: _, elements } => have_reference(name, elements.as_slice()),
        Value::Named {
            defined_type: _,
            value,
        } => has_reference(name, value.get()),
        _ => false,
    }
}

/// Whether the value may refer to something. Most don't, and then it takes no call to tell.
#[inline(always)]
fn may_refer(value: &Value) -> bool
    ensures { OnFalse result (references value.now ≡ []) }
{
    match value {
        Value::Inst(_) => true,
        Value::Agg {
            kind: _,
            elements: _,
        } => true,
        Value::Named {
            defined_type: _,
            value: _,
        } => true,
        _ => false,
    }
}

/// Whether one of the values refers to the name.
#[cycle(references)]
fn have_reference(name: u64, values: &[Value]) -> bool
    ensures { result ≡ list_any (λ m. m == name) (flat_map references values.now) }
{
    for value in values {
        if may_refer(value) && has_reference(name, value) {
            return true;
        }
    }
    false
}

fn is_user(name: u64, instance: &Instance) -> bool
    ensures { result ≡ spec.is_user name instance.now }
{
    !(instance.name == name) && have_reference(name, instance.values.as_slice())
}

/// Whether another instance refers to it.
fn is_used(name: u64, instances: &[Instance]) -> bool
    ensures { result ≡ spec.is_used name instances.now }
{
    instances.iter().any(|instance| is_user(name, instance))
}

/// Whether the instance of another name refers to it.
fn is_user_at(name: u64, instances: &Instances, user: u64) -> bool
    ensures { result ≡ option_map_or (spec.is_user name) (spec.instance_of user instances.now) false }
{
    match instances.get(user) {
        Some(instance) => is_user(name, instance),
        None => false,
    }
}

/// Whether the instance of one of some names refers to it, and is another.
fn is_used_by(name: u64, instances: &Instances, users: &BTreeSet<u64>) -> bool
    ensures { result ≡ list_any (λ u. option_map_or (spec.is_user name) (spec.instance_of u instances.now) false) users.now.keys }
{
    for user in users {
        if is_user_at(name, instances, *user) {
            return true;
        }
    }
    false
}

/// Whether another instance refers to it, where only candidates may.
fn is_used_among(name: u64, instances: &Instances, users: &BTreeSet<u64>) -> bool
    requires { AreUsersAmong (name ∷ []) users.now.keys instances.now }
    ensures { result ≡ spec.is_used name instances.now }
{
    // Both say that what they have is in order.
    let (_, _) = (instances.ordered(), users.len());
    is_used_by(name, instances, users)
}

/// The candidates for those that refer to the name.
fn users_of(alloc: Global, name: u64, model: &Indexed) -> Result<Option<BTreeSet<u64>>, AllocError>
    ensures { IfOk result (λ found. IfSome found (λ users. AreUsersAmong (name ∷ []) users.keys model.now.content.instances)) }
{
    let mut names = BTreeSet::new(alloc);
    names.insert(name)?;
    model.users_among(alloc, &names)
}

/// Whether another instance of the model refers to it.
pub(crate) fn is_used_in(alloc: Global, name: u64, model: &Indexed) -> Result<bool, AllocError>
    ensures { IfOk result (λ used. used ≡ spec.is_used name model.now.content.instances) }
{
    let instances = &model.get().content.instances;
    match users_of(alloc, name, model)? {
        Some(users) => Ok(is_used_among(name, instances, &users)),
        None => Ok(is_used(name, instances.as_slice())),
    }
}
