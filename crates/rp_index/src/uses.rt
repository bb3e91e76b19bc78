//! The names that instances refer to, each with the name of the one that does.

ghost use Rattle.std.specs.Prelude.{◌≡◌, ◌++◌, ℕ, map, IfOk, OnOk};
ghost use Rattle.std.specs.List.{flat_map};
ghost use Rattle.rp_rows.specs.Contents.{references};
ghost use Rattle.rp_index.specs.Pairs.{HasAll, Grows, KeepsOthers};
ghost use Rattle.rp_index.specs.Index as spec;

use crate::pairs::Pairs;
use rp_content::Instance;
use rp_value::Value;
use std::alloc::{AllocError, Global};

/// Puts each name that the value refers to, at any depth, behind the others, with that of the user.
#[cycle(pushed)]
fn push_value(found: &mut Vec<(u64, u64)>, user: u64, value: &Value) -> Result<(), AllocError>
    ensures { OnOk result (found.new.items ≡ found.old.items ++ map (λ (n : ℕ). (n, user)) (references value.now)) }
{
    match value {
        Value::Inst(name) => {
            found.push((*name, user))?;
            Ok(())
        }
        Value::Agg { kind: _, elements } => push_values(found, user, elements.as_slice()),
        Value::Named {
            defined_type: _,
            value,
        } => push_value(found, user, value.get()),
        _ => Ok(()),
    }
}

/// Puts each name that one of the values refers to behind the others, with that of the user.
#[cycle(pushed)]
fn push_values(found: &mut Vec<(u64, u64)>, user: u64, values: &[Value]) -> Result<(), AllocError>
    ensures { OnOk result (found.new.items ≡ found.old.items ++ map (λ (n : ℕ). (n, user)) (flat_map references values.now)) }
{
    for value in values {
        push_value(found, user, value)?;
    }
    Ok(())
}

/// The uses by some instances, one after another.
pub fn all_uses(alloc: Global, instances: &[Instance]) -> Result<Vec<(u64, u64)>, AllocError>
    ensures { IfOk result (λ found. found.items ≡ flat_map spec.uses_of instances.now) }
{
    let mut found = Vec::new(alloc);
    for instance in instances {
        push_values(&mut found, instance.name, instance.values.as_slice())?;
    }
    Ok(found)
}

/// Enters the uses by an instance.
pub fn enter_uses(alloc: Global, uses: &mut Pairs, instance: &Instance) -> Result<(), AllocError>
    ensures grows { OnOk result (Grows (spec.has uses.old) (spec.has uses.new)) }
    ensures has { OnOk result (HasAll (spec.has uses.new) (spec.uses_of instance.now)) }
    ensures order { OnOk result (spec.IsInOrder uses.old → spec.IsInOrder uses.new) }
{
    let mut found = Vec::new(alloc);
    push_values(&mut found, instance.name, instance.values.as_slice())?;
    uses.insert_all(found.as_slice())
}

/// Takes out the uses by this user of what the value refers to. It takes no memory.
#[cycle(removed)]
fn remove_value(uses: &mut Pairs, user: u64, value: &Value)
    ensures keeps { KeepsOthers user (spec.has uses.old) (spec.has uses.new) }
    ensures order { spec.IsInOrder uses.old → spec.IsInOrder uses.new }
{
    match value {
        Value::Inst(name) => {
            uses.remove(*name, user);
        }
        Value::Agg { kind: _, elements } => remove_values(uses, user, elements.as_slice()),
        Value::Named {
            defined_type: _,
            value,
        } => remove_value(uses, user, value.get()),
        _ => {}
    }
}

/// Takes out the uses by this user of what the values refer to. It takes no memory.
#[cycle(removed)]
pub fn remove_values(uses: &mut Pairs, user: u64, values: &[Value])
    ensures keeps { KeepsOthers user (spec.has uses.old) (spec.has uses.new) }
    ensures order { spec.IsInOrder uses.old → spec.IsInOrder uses.new }
{
    for value in values {
        remove_value(uses, user, value);
    }
}
