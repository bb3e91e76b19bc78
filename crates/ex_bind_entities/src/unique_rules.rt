//! UNIQUE rules.

ghost use Rattle.ex_named.specs.Outcomes.{Binds, each};
ghost use Rattle.ex_named.specs.Scopes as scopes;
ghost use Rattle.ex_scopes.specs.Sorts.{any_sort};
ghost use Rattle.ex_bind_entities.specs.Entities as spec;

use crate::attribute_uses::{attribute_in, attribute_of};
use crate::families::EntityContext;
use ex_bind::copy_label;
use ex_named::{AttributeUse, Binding, Gathered, NameFaultKind, NamedUniqueRule, refused};
use ex_scopes::Sorts;
use ex_tree::{AttributeDeclaration, Name, QualifiedAttribute, UniqueRule};
use plain_data::Items;
use std::alloc::Global;

/// An attribute that a rule names with the entity that has it.
#[tactic(auto, using(crate::proofs::Inherited::unique_by))]
fn qualified(
    alloc: Global,
    context: &EntityContext<'_, '_, '_>,
    named: &QualifiedAttribute,
) -> Binding<AttributeUse>
    ensures { Binds result (spec.next (scopes.entity context.now.declarations.now named.now.entity) (spec.unique_in context.now.declarations.now context.now.supertypes.now context.now.entity named.now)) }
{
    let entity = context.declarations.entity(&named.entity)?;
    if !context.is_in_family(alloc, entity)? {
        return refused(NameFaultKind::NotAnAttribute, named.attribute.at);
    }
    attribute_of(alloc, context, entity, Sorts::Any, &named.attribute)
}

/// An attribute of the entity at hand.
fn own(alloc: Global, context: &EntityContext<'_, '_, '_>, name: &Name) -> Binding<AttributeUse>
    ensures { Binds result (spec.attribute_of context.now.declarations.now context.now.supertypes.now any_sort context.now.entity name.now) }
{
    attribute_in(
        alloc,
        context.declarations,
        &context.family,
        Sorts::Any,
        name,
    )
}

#[tactic(auto, unfolding(crate::specs::Entities::unique_attribute))]
fn unique_attribute(
    alloc: Global,
    context: &EntityContext<'_, '_, '_>,
    named: &AttributeDeclaration,
) -> Binding<AttributeUse>
    ensures { Binds result (spec.unique_attribute context.now.declarations.now context.now.supertypes.now context.now.entity named.now) }
{
    match named {
        AttributeDeclaration::Own(name) => own(alloc, context, name),
        AttributeDeclaration::Qualified(named) => qualified(alloc, context, named),
    }
}

fn unique_attributes(
    alloc: Global,
    context: &EntityContext<'_, '_, '_>,
    list: &[AttributeDeclaration],
) -> Binding<Items<AttributeUse>>
    ensures { Binds result (each (spec.unique_attribute context.now.declarations.now context.now.supertypes.now context.now.entity) list.now) }
{
    let mut found = Gathered::new(alloc, list.len())?;
    for named in list {
        found.push(unique_attribute(alloc, context, named))?;
    }
    found.finish()
}

#[tactic(auto, unfolding(crate::specs::Entities::unique_rule))]
fn unique_rule(
    alloc: Global,
    context: &EntityContext<'_, '_, '_>,
    rule: &UniqueRule,
) -> Binding<NamedUniqueRule>
    ensures { Binds result (spec.unique_rule context.now.declarations.now context.now.supertypes.now context.now.entity rule.now) }
{
    let attributes = unique_attributes(alloc, context, rule.attributes.as_slice())?;
    Ok(NamedUniqueRule {
        label: copy_label(alloc, &rule.label)?,
        attributes,
    })
}

/// UNIQUE rules with their names bound, in order.
pub fn unique_rules(
    alloc: Global,
    context: &EntityContext<'_, '_, '_>,
    rules: &[UniqueRule],
) -> Binding<Items<NamedUniqueRule>>
    ensures { Binds result (each (spec.unique_rule context.now.declarations.now context.now.supertypes.now context.now.entity) rules.now) }
{
    let mut found = Gathered::new(alloc, rules.len())?;
    for rule in rules {
        found.push(unique_rule(alloc, context, rule))?;
    }
    found.finish()
}
