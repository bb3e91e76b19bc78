//! Uses of what some names stand for, in the values of an instance.

ghost use Rattle.std.specs.Prelude.{◌≡◌, ◌++◌, OnOk};
ghost use Rattle.std.specs.List.{flat_map};
ghost use Rattle.rp_rows.specs.Contents.{references};
ghost use Rattle.rp_population.specs.Found as spec;

use crate::names::has_name;
use crate::place::{Place, push_place};
use rp_rows::rows::Key;
use rp_value::Value;
use shared::Shared;
use std::alloc::AllocError;
use std::collections::BTreeSet;
use std::marker::Model;

/// An instance of a model in which uses of what some names stand for are looked for.
#[derive(Drop)]
pub struct User<'a> {
    pub names: &'a BTreeSet<u64>,
    pub model: &'a Shared<Key>,
    pub instance: u64,
}

impl<'a> Model for User<'a> {
    ghost use Rattle.rp_population.specs.Found as spec;

    ghost Value = { spec.User };

    ghost view = { λ u. record { names = u.names.now.keys; place = record { model = u.model.now; instance = u.instance } } };
}

/// Tells the instance, if the name is one of those.
fn push_use(found: &mut Vec<Place>, user: &User<'_>, name: u64) -> Result<(), AllocError>
    ensures { OnOk result (found.new.items ≡ found.old.items ++ spec.told_at user.now name) }
{
    if has_name(user.names, name) {
        push_place(found, user.model, user.instance)?;
    }
    Ok(())
}

/// Tells the instance once for each of the names that the value refers to, at any depth.
#[cycle(uses)]
pub fn push_value(found: &mut Vec<Place>, user: &User<'_>, value: &Value) -> Result<(), AllocError>
    ensures { OnOk result (found.new.items ≡ found.old.items ++ flat_map (spec.told_at user.now) (references value.now)) }
{
    match value {
        Value::Inst(name) => push_use(found, user, *name),
        Value::Agg { kind: _, elements } => push_values(found, user, elements.as_slice()),
        Value::Named {
            defined_type: _,
            value,
        } => push_value(found, user, value.get()),
        _ => Ok(()),
    }
}

/// Tells the instance once for each of the names that one of the values refers to.
#[cycle(uses)]
pub fn push_values(
    found: &mut Vec<Place>,
    user: &User<'_>,
    values: &[Value],
) -> Result<(), AllocError>
    ensures { OnOk result (found.new.items ≡ found.old.items ++ flat_map (spec.told_at user.now) (flat_map references values.now)) }
{
    for value in values {
        push_value(found, user, value)?;
    }
    Ok(())
}
