//! Attributes that are named, and not declared.

ghost use Rattle.ex_named.specs.Outcomes.{Binds};
ghost use Rattle.ex_named.specs.Scopes as scopes;
ghost use Rattle.ex_scopes.specs.Sorts.{admitted};
ghost use Rattle.ex_bind_entities.specs.Entities as spec;

use crate::families::EntityContext;
use ancestors::Family;
use ex_named::{AttributeUse, Binding, NameFaultKind, refused};
use ex_scopes::{Declarations, Sorts};
use ex_tree::Name;
use std::alloc::Global;

/// The attribute of this name that a family has. One of its declarations has to be of these sorts, and no more.
pub fn attribute_in(
    alloc: Global,
    declarations: &Declarations<'_>,
    family: &Family<'_>,
    sorts: Sorts,
    name: &Name,
) -> Binding<AttributeUse>
    ensures { Binds result (spec.use_of (admitted sorts) name.now.at (scopes.attributes_of declarations.now family.now name.now.text)) }
{
    let at = name.at;
    match declarations.attribute(alloc, family, sorts, name.text.as_bytes())? {
        Some(meaning) => Ok(AttributeUse { at, meaning }),
        None => refused(NameFaultKind::NotAnAttribute, at),
    }
}

/// The attribute of this name that an entity has.
pub fn attribute_of(
    alloc: Global,
    context: &EntityContext<'_, '_, '_>,
    entity: usize,
    sorts: Sorts,
    name: &Name,
) -> Binding<AttributeUse>
    ensures { Binds result (spec.attribute_of context.now.declarations.now context.now.supertypes.now (admitted sorts) entity name.now) }
{
    let family = Family::of(context.supertypes, entity);
    attribute_in(alloc, context.declarations, &family, sorts, name)
}
