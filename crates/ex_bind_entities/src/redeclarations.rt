//! Inherited attributes that are declared again.

ghost use Rattle.ex_named.specs.Outcomes.{Binds};
ghost use Rattle.ex_bind_entities.specs.Entities as spec;
ghost use Rattle.ex_scopes.specs.Sorts.{admitted};

use crate::attribute_uses::attribute_of;
use crate::families::EntityContext;
use ex_bind::copy_name;
use ex_named::{Binding, NameFaultKind, NamedAttribute, NamedRedeclaration, refused};
use ex_scopes::Sorts;
use ex_tree::{AttributeDeclaration, QualifiedAttribute};
use std::alloc::Global;

/// The attribute of an ancestor that is declared again.
pub fn redeclaration(
    alloc: Global,
    context: &EntityContext<'_, '_, '_>,
    sorts: Sorts,
    inherited: &QualifiedAttribute,
) -> Binding<NamedRedeclaration>
    ensures { Binds result (spec.redeclaration context.now.declarations.now context.now.supertypes.now (admitted sorts) context.now.entity inherited.now) }
{
    let entity = context.declarations.entity(&inherited.entity)?;
    if !context.is_ancestor(alloc, entity)? {
        return refused(NameFaultKind::NotAnAttribute, inherited.attribute.at);
    }
    let attribute = attribute_of(alloc, context, entity, sorts, &inherited.attribute)?;
    Ok(NamedRedeclaration { entity, attribute })
}

/// An attribute that is declared, or declared again.
#[tactic(auto, unfolding(crate::specs::Entities::attribute))]
pub fn attribute(
    alloc: Global,
    context: &EntityContext<'_, '_, '_>,
    sorts: Sorts,
    declaration: &AttributeDeclaration,
) -> Binding<NamedAttribute>
    ensures { Binds result (spec.attribute context.now.declarations.now context.now.supertypes.now (admitted sorts) context.now.entity declaration.now) }
{
    match declaration {
        AttributeDeclaration::Own(name) => Ok(NamedAttribute::Own(copy_name(alloc, name)?)),
        AttributeDeclaration::Qualified(inherited) => {
            let found = redeclaration(alloc, context, sorts, inherited)?;
            Ok(NamedAttribute::Redeclared(found))
        },
    }
}
