//! Who uses an instance, in one model after another.

ghost use Rattle.std.specs.Prelude.{◌≡◌, ◌++◌, IfOk, IfSome, OnOk, option_copied};
ghost use Rattle.std.specs.List.{flat_map};
ghost use Rattle.rp_index.specs.Index.{AreUsersAmong};
ghost use Rattle.rp_index.specs.Told.{told_of};
ghost use Rattle.rp_population.specs.Found as spec;

use crate::attribute::{Attribute, push_in_attribute};
use crate::names::names_of;
use crate::place::{Place, shared_key};
use crate::roles::{Role, role_of};
use crate::uses::{User, push_values};
use ex_layouts::{Dictionary, Layouts};
use plain_data::{Rows, Text};
use rp_content::{Instance, Instances};
use rp_index::Indexed;
use rp_rows::rows::Key;
use shared::Shared;
use std::alloc::{AllocError, Global};
use std::collections::BTreeSet;
use std::marker::Model;

/// The entities above that of a role and itself.
fn line_by(
    alloc: Global,
    schema: &Dictionary<'_>,
    role: Option<&Role>,
) -> Result<Rows<usize>, AllocError>
    ensures { IfOk result (λ line. line ≡ spec.line_by schema.now (option_copied role.entry)) }
{
    match role {
        Some(Role::Of(entity, _)) => schema.line_of(alloc, *entity),
        _ => Ok(Rows::new(alloc)),
    }
}

/// Tells an instance of a model once for each of its uses.
fn push_one_in_all(
    found: &mut Vec<Place>,
    names: &BTreeSet<u64>,
    model: &Shared<Key>,
    instance: &Instance,
) -> Result<(), AllocError>
    ensures { OnOk result (found.new.items ≡ found.old.items ++ spec.told_in_all names.now.keys model.now instance.now) }
{
    let user = User {
        names,
        model,
        instance: instance.name,
    };
    push_values(found, &user, instance.values.as_slice())
}

/// Tells each instance of a model once for each of its uses.
fn push_in_all(
    found: &mut Vec<Place>,
    names: &BTreeSet<u64>,
    model: &Shared<Key>,
    instances: &[Instance],
) -> Result<(), AllocError>
    ensures { OnOk result (found.new.items ≡ found.old.items ++ flat_map (spec.told_in_all names.now.keys model.now) instances.now) }
{
    for instance in instances {
        push_one_in_all(found, names, model, instance)?;
    }
    Ok(())
}

/// Tells the instance of a name once for each of its uses.
fn push_named_in_all(
    found: &mut Vec<Place>,
    names: &BTreeSet<u64>,
    model: &Shared<Key>,
    instances: &Instances,
    name: u64,
) -> Result<(), AllocError>
    ensures { OnOk result (found.new.items ≡ found.old.items ++ told_of (spec.told_in_all names.now.keys model.now) instances.now name) }
{
    match instances.get(name) {
        Some(instance) => push_one_in_all(found, names, model, instance),
        None => Ok(()),
    }
}

/// Tells the instances of some names, in the order of these, once for each of their uses.
fn push_each_in_all(
    found: &mut Vec<Place>,
    names: &BTreeSet<u64>,
    model: &Shared<Key>,
    instances: &Instances,
    candidates: &BTreeSet<u64>,
) -> Result<(), AllocError>
    ensures { OnOk result (found.new.items ≡ found.old.items ++ flat_map (told_of (spec.told_in_all names.now.keys model.now) instances.now) candidates.now.keys) }
{
    for name in candidates {
        push_named_in_all(found, names, model, instances, *name)?;
    }
    Ok(())
}

/// Tells each instance of a model once for each of its uses, where only candidates have any.
fn push_among_in_all(
    found: &mut Vec<Place>,
    names: &BTreeSet<u64>,
    model: &Shared<Key>,
    instances: &Instances,
    candidates: &BTreeSet<u64>,
) -> Result<(), AllocError>
    requires { AreUsersAmong names.now.keys candidates.now.keys instances.now }
    ensures { OnOk result (found.new.items ≡ found.old.items ++ flat_map (spec.told_in_all names.now.keys model.now) instances.now) }
{
    // (Both calls promise that what they are asked of is in order.)
    let (_, _) = (instances.ordered(), candidates.len());
    push_each_in_all(found, names, model, instances, candidates)
}

/// Tells an instance of a model once for each of its uses in an attribute.
fn push_one_in(
    alloc: Global,
    found: &mut Vec<Place>,
    layouts: &mut Layouts<'_>,
    attribute: &Attribute<'_>,
    names: &BTreeSet<u64>,
    model: &Shared<Key>,
    instance: &Instance,
) -> Result<(), AllocError>
    ensures layouts { layouts.new ≡ layouts.old }
    ensures places { OnOk result (found.new.items ≡ found.old.items ++ spec.told_in layouts.old attribute.now names.now.keys model.now instance.now) }
{
    let user = User {
        names,
        model,
        instance: instance.name,
    };
    push_in_attribute(alloc, found, layouts, attribute, &user, instance)
}

/// Tells each instance of a model once for each of its uses in an attribute.
fn push_in(
    alloc: Global,
    found: &mut Vec<Place>,
    layouts: &mut Layouts<'_>,
    attribute: &Attribute<'_>,
    names: &BTreeSet<u64>,
    model: &Shared<Key>,
    instances: &[Instance],
) -> Result<(), AllocError>
    ensures layouts { layouts.new ≡ layouts.old }
    ensures places { OnOk result (found.new.items ≡ found.old.items ++ flat_map (spec.told_in layouts.old attribute.now names.now.keys model.now) instances.now) }
{
    for instance in instances {
        push_one_in(alloc, found, layouts, attribute, names, model, instance)?;
    }
    Ok(())
}

/// Tells the instance of a name once for each of its uses in an attribute.
fn push_named_in(
    alloc: Global,
    found: &mut Vec<Place>,
    layouts: &mut Layouts<'_>,
    attribute: &Attribute<'_>,
    names: &BTreeSet<u64>,
    model: &Shared<Key>,
    instances: &Instances,
    name: u64,
) -> Result<(), AllocError>
    ensures layouts { layouts.new ≡ layouts.old }
    ensures places { OnOk result (found.new.items ≡ found.old.items ++ told_of (spec.told_in layouts.old attribute.now names.now.keys model.now) instances.now name) }
{
    match instances.get(name) {
        Some(instance) => push_one_in(alloc, found, layouts, attribute, names, model, instance),
        None => Ok(()),
    }
}

/// Tells the instances of some names, in the order of these, once for each of their uses in an attribute.
fn push_each_in(
    alloc: Global,
    found: &mut Vec<Place>,
    layouts: &mut Layouts<'_>,
    attribute: &Attribute<'_>,
    names: &BTreeSet<u64>,
    model: &Shared<Key>,
    instances: &Instances,
    candidates: &BTreeSet<u64>,
) -> Result<(), AllocError>
    ensures layouts { layouts.new ≡ layouts.old }
    ensures places { OnOk result (found.new.items ≡ found.old.items ++ flat_map (told_of (spec.told_in layouts.old attribute.now names.now.keys model.now) instances.now) candidates.now.keys) }
{
    for name in candidates {
        push_named_in(
            alloc, found, layouts, attribute, names, model, instances, *name,
        )?;
    }
    Ok(())
}

/// Tells each instance of a model once for each of its uses in an attribute, where only candidates have any.
fn push_among_in(
    alloc: Global,
    found: &mut Vec<Place>,
    layouts: &mut Layouts<'_>,
    attribute: &Attribute<'_>,
    names: &BTreeSet<u64>,
    model: &Shared<Key>,
    instances: &Instances,
    candidates: &BTreeSet<u64>,
) -> Result<(), AllocError>
    requires { AreUsersAmong names.now.keys candidates.now.keys instances.now }
    ensures layouts { layouts.new ≡ layouts.old }
    ensures places { OnOk result (found.new.items ≡ found.old.items ++ flat_map (spec.told_in layouts.old attribute.now names.now.keys model.now) instances.now) }
{
    // (Both calls promise that what they are asked of is in order.)
    let (_, _) = (instances.ordered(), candidates.len());
    push_each_in(
        alloc, found, layouts, attribute, names, model, instances, candidates,
    )
}

/// Tells each instance of a model once for each of its uses, from candidates if there are such.
fn push_uses(
    found: &mut Vec<Place>,
    names: &BTreeSet<u64>,
    model: &Shared<Key>,
    instances: &Instances,
    candidates: &Option<BTreeSet<u64>>,
) -> Result<(), AllocError>
    requires { IfSome candidates.now (λ us. AreUsersAmong names.now.keys us.keys instances.now) }
    ensures { OnOk result (found.new.items ≡ found.old.items ++ flat_map (spec.told_in_all names.now.keys model.now) instances.now) }
{
    match candidates {
        Some(few) => push_among_in_all(found, names, model, instances, few),
        None => push_in_all(found, names, model, instances.as_slice()),
    }
}

/// Tells each instance of a model once for each of its uses in an attribute, from candidates if there are such.
fn push_uses_in(
    alloc: Global,
    found: &mut Vec<Place>,
    layouts: &mut Layouts<'_>,
    attribute: &Attribute<'_>,
    names: &BTreeSet<u64>,
    model: &Shared<Key>,
    instances: &Instances,
    candidates: &Option<BTreeSet<u64>>,
) -> Result<(), AllocError>
    requires { IfSome candidates.now (λ us. AreUsersAmong names.now.keys us.keys instances.now) }
    ensures layouts { layouts.new ≡ layouts.old }
    ensures places { OnOk result (found.new.items ≡ found.old.items ++ flat_map (spec.told_in layouts.old attribute.now names.now.keys model.now) instances.now) }
{
    match candidates {
        Some(few) => push_among_in(
            alloc, found, layouts, attribute, names, model, instances, few,
        ),
        None => {
            let instances = instances.as_slice();
            push_in(alloc, found, layouts, attribute, names, model, instances)
        }
    }
}

/// An instance and a role, whose users are told of one model after another.
#[derive(Drop)]
pub struct Users<'s> {
    layouts: Layouts<'s>,
    role: Option<Role>,
    /// The entities above that of the role and itself.
    line: Rows<usize>,
    of: Place,
}

impl<'s> Model for Users<'s> {
    ghost use Rattle.std.specs.Prelude.{◌≡◌};
    ghost use Rattle.rp_population.specs.Found as spec;
    ghost use Rattle.rp_population.specs.Sought.{SoughtUsers};

    ghost Value = { SoughtUsers };

    ghost view = { λ u. record { schema = u.layouts; role = u.role; of = u.of } };

    ghost invariant = { λ u. u.line ≡ spec.line_by u.layouts u.role };

    ghost use Rattle.std.specs.Coded.{codes};
    ghost use Rattle.ex_named.specs.contracts.expression.NamedDataType as data_type;
    ghost use Rattle.ex_named.specs.contracts.expression.NamedExpression as expression;
    ghost use Rattle.ex_named.specs.contracts.statement.NamedStatement as statement;
    ghost use Rattle.ex_named.specs.contracts.declaration.NamedSupertype as supertype;

    ghost coded = { Prim.hlevel (codes, data_type.the_row.coded, expression.the_row.coded, statement.the_row.coded, supertype.the_row.coded) };
}

impl<'s> Users<'s> {
    ghost use Rattle.std.specs.Prelude.{◌≡◌, ◌++◌, IfOk, OnOk};
    ghost use Rattle.rp_population.specs.Populations.{places, placed_all};
    ghost use Rattle.rp_population.specs.Uses as uses;

    /// The users of what stands at the place, in the role of this name; none in what is no role.
    pub fn of(
        alloc: Global,
        schema: &'s Dictionary<'s>,
        role: &Text,
        of: &Place,
    ) -> Result<Users<'s>, AllocError>
        ensures { IfOk result (λ u. u ≡ record { schema = schema.now; role = uses.role_of schema.now role.now; of = of.now }) }
    {
        let role = role_of(alloc, schema, role)?;
        let line = line_by(alloc, schema, role.as_ref())?;
        let model = of.model.share()?;
        let instance = of.instance;
        Ok(Users {
            layouts: Layouts::of(alloc, schema)?,
            role,
            line,
            of: Place { model, instance },
        })
    }

    /// Puts the places of those in a model behind the others: in the order of its instances, and each as often as it uses what is
    /// asked of. They share the model's key.
    fn push_sharing(
        &mut self,
        alloc: Global,
        found: &mut Vec<Place>,
        model: &Shared<Key>,
        held: &Indexed,
    ) -> Result<(), AllocError>
        ensures same { self.new ≡ self.old }
        ensures places { OnOk result (found.new.items ≡ found.old.items ++ places (uses.users_in self.old.schema self.old.role self.old.of (placed_all (record { model = model.now; content = held.now.content })))) }
    {
        let Some(role) = &self.role else {
            return Ok(());
        };
        let names = names_of(alloc, &self.of, model, held)?;
        let candidates = held.users_among(alloc, &names)?;
        let instances = &held.get().content.instances;
        match role {
            Role::Every => push_uses(found, &names, model, instances, &candidates),
            Role::Of(entity, name) => {
                let attribute = Attribute {
                    entity: *entity,
                    line: self.line.as_slice(),
                    name,
                };
                push_uses_in(
                    alloc,
                    found,
                    &mut self.layouts,
                    &attribute,
                    &names,
                    model,
                    instances,
                    &candidates,
                )
            }
        }
    }

    /// Puts the places of those in a model behind the others: in the order of its instances, and each as often as it uses what is
    /// asked of.
    pub fn push(
        &mut self,
        alloc: Global,
        found: &mut Vec<Place>,
        model: &Key,
        held: &Indexed,
    ) -> Result<(), AllocError>
        ensures same { self.new ≡ self.old }
        ensures places { OnOk result (found.new.items ≡ found.old.items ++ places (uses.users_in self.old.schema self.old.role self.old.of (placed_all (record { model = model.now; content = held.now.content })))) }
    {
        let model = shared_key(alloc, model)?;
        self.push_sharing(alloc, found, &model, held)
    }
}
