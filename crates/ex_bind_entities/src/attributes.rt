//! Explicit, derived and inverse attributes.

ghost use Rattle.std.specs.Prelude.{◌≡◌, true};
ghost use Rattle.ex_named.specs.Outcomes.{Binds, each};
ghost use Rattle.ex_bind.specs.Rules.{scope_of};
ghost use Rattle.graphs.specs.Graphs.{family};
ghost use Rattle.ex_bind_entities.specs.Entities as spec;
ghost use Rattle.ex_scopes.specs.Sorts.{admitted};

use crate::attribute_uses::attribute_of;
use crate::families::EntityContext;
use crate::redeclarations::attribute;
use ex_bind::{copy_name, data_type, expression};
use ex_named::{
    Binding, Gathered, NamedAttribute, NamedDerived, NamedExplicit, NamedInverse, both,
};
use ex_scopes::{Scope, Sorts};
use ex_tree::{
    AttributeDeclaration, DerivedAttribute, EntityBody, ExplicitAttribute, InverseAttribute,
};
use plain_data::Items;
use std::alloc::Global;

/// The explicit, derived and inverse ones.
pub type EntityAttributes = (
    (Items<NamedExplicit>, Items<NamedDerived>),
    Items<NamedInverse>,
);

/// Attributes that are declared, or declared again, in order.
fn attributes(
    alloc: Global,
    context: &EntityContext<'_, '_, '_>,
    sorts: Sorts,
    declarations: &[AttributeDeclaration],
) -> Binding<Items<NamedAttribute>>
    ensures { Binds result (each (spec.attribute context.now.declarations.now context.now.supertypes.now (admitted sorts) context.now.entity) declarations.now) }
{
    let mut found = Gathered::new(alloc, declarations.len())?;
    for declaration in declarations {
        found.push(attribute(alloc, context, sorts, declaration))?;
    }
    found.finish()
}

#[tactic(auto, unfolding(crate::specs::Entities::explicit_attribute))]
fn explicit_attribute(
    alloc: Global,
    context: &EntityContext<'_, '_, '_>,
    explicit: &ExplicitAttribute,
) -> Binding<NamedExplicit>
    ensures { Binds result (spec.explicit_attribute context.now.declarations.now context.now.supertypes.now context.now.entity explicit.now) }
{
    let list = explicit.attributes.as_slice();
    let attributes = attributes(alloc, context, Sorts::Explicit, list);
    let data_type = data_type(alloc, context.declarations, &explicit.data_type);
    let (attributes, data_type) = both(attributes, data_type)?;
    Ok(NamedExplicit {
        attributes,
        optional: explicit.optional,
        data_type,
    })
}

/// Explicit attributes with their names bound, in order.
fn explicit_attributes(
    alloc: Global,
    context: &EntityContext<'_, '_, '_>,
    list: &[ExplicitAttribute],
) -> Binding<Items<NamedExplicit>>
    ensures { Binds result (each (spec.explicit_attribute context.now.declarations.now context.now.supertypes.now context.now.entity) list.now) }
{
    let mut found = Gathered::new(alloc, list.len())?;
    for explicit in list {
        found.push(explicit_attribute(alloc, context, explicit))?;
    }
    found.finish()
}

#[tactic(auto, unfolding(crate::specs::Entities::derived_attribute))]
fn derived_attribute(
    alloc: Global,
    context: &EntityContext<'_, '_, '_>,
    scope: &Scope<'_>,
    derived: &DerivedAttribute,
) -> Binding<NamedDerived>
    requires { scope.now ≡ scope_of true (family context.now.supertypes.now context.now.entity) }
    ensures { Binds result (spec.derived_attribute context.now.declarations.now context.now.supertypes.now context.now.entity derived.now) }
{
    let attribute = attribute(alloc, context, Sorts::ExplicitOrDerived, &derived.attribute);
    let data_type = data_type(alloc, context.declarations, &derived.data_type);
    let value = expression(alloc, context.declarations, scope, &derived.value);
    let ((attribute, data_type), value) = both(both(attribute, data_type), value)?;
    Ok(NamedDerived {
        attribute,
        data_type,
        value,
    })
}

/// Derived attributes with their names bound, in order.
fn derived_attributes(
    alloc: Global,
    context: &EntityContext<'_, '_, '_>,
    scope: &Scope<'_>,
    list: &[DerivedAttribute],
) -> Binding<Items<NamedDerived>>
    requires { scope.now ≡ scope_of true (family context.now.supertypes.now context.now.entity) }
    ensures { Binds result (each (spec.derived_attribute context.now.declarations.now context.now.supertypes.now context.now.entity) list.now) }
{
    let mut found = Gathered::new(alloc, list.len())?;
    for derived in list {
        found.push(derived_attribute(alloc, context, scope, derived))?;
    }
    found.finish()
}

#[tactic(auto, unfolding(crate::specs::Entities::inverse_attribute))]
fn inverse_attribute(
    alloc: Global,
    context: &EntityContext<'_, '_, '_>,
    inverse: &InverseAttribute,
) -> Binding<NamedInverse>
    ensures { Binds result (spec.inverse_attribute context.now.declarations.now context.now.supertypes.now inverse.now) }
{
    let entity = context.declarations.entity(&inverse.entity)?;
    let attribute = attribute_of(alloc, context, entity, Sorts::Explicit, &inverse.attribute)?;
    Ok(NamedInverse {
        name: copy_name(alloc, &inverse.name)?,
        aggregate: inverse.aggregate,
        entity,
        attribute,
    })
}

/// Inverse attributes with their names bound, in order.
fn inverse_attributes(
    alloc: Global,
    context: &EntityContext<'_, '_, '_>,
    list: &[InverseAttribute],
) -> Binding<Items<NamedInverse>>
    ensures { Binds result (each (spec.inverse_attribute context.now.declarations.now context.now.supertypes.now) list.now) }
{
    let mut found = Gathered::new(alloc, list.len())?;
    for inverse in list {
        found.push(inverse_attribute(alloc, context, inverse))?;
    }
    found.finish()
}

/// What an entity declares, with its names bound.
#[tactic(auto, unfolding(crate::specs::Entities::entity_attributes))]
pub fn entity_attributes(
    alloc: Global,
    context: &EntityContext<'_, '_, '_>,
    scope: &Scope<'_>,
    body: &EntityBody,
) -> Binding<EntityAttributes>
    requires { scope.now ≡ scope_of true (family context.now.supertypes.now context.now.entity) }
    ensures { Binds result (spec.entity_attributes context.now.declarations.now context.now.supertypes.now context.now.entity body.now) }
{
    let explicit = explicit_attributes(alloc, context, body.explicit.as_slice());
    let derived = derived_attributes(alloc, context, scope, body.derived.as_slice());
    let inverse = inverse_attributes(alloc, context, body.inverse.as_slice());
    both(both(explicit, derived), inverse)
}
