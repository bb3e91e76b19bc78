//! Entities. All parts are bound before the least of their faults is told.

ghost use Rattle.std.specs.Prelude.{◌≡◌, [], Ok, true, if◌then◌else◌};
ghost use Rattle.ex_named.specs.declared.fault.NameFaultKind.{NameFaultKind};
ghost use Rattle.ex_named.specs.Outcomes.{Binds, each, optional};
ghost use Rattle.ex_named.specs.Outcomes as outcomes;
ghost use Rattle.ex_named.specs.Scopes as scopes;
ghost use Rattle.ex_bind.specs.Rules.{scope_of};
ghost use Rattle.graphs.specs.Graphs.{family, is_ancestor};
ghost use Rattle.ex_bind_entities.specs.Entities as spec;
ghost use Rattle.ex_bind_entities.specs.Wholes as parts;

use crate::attributes::{EntityAttributes, entity_attributes};
use crate::families::EntityContext;
use crate::repeated::once_redeclared;
use crate::scope_names::{no_variables, scope_names};
use crate::supertypes::supertype;
use crate::unique_rules::unique_rules;
use ancestors::Descent;
use ex_bind::{copy_name, domain_rules};
use ex_declarations::once;
use ex_named::{
    Binding, Gathered, NameFaultKind, NamedDomainRule, NamedEntity, NamedSupertype,
    NamedUniqueRule, both, refused,
};
use ex_scopes::{Declarations, Scope};
use ex_tree::{Entity, EntityBody, Name, SupertypeExpression};
use name_tables::SortedNames;
use plain_data::Items;
use std::alloc::Global;
use std::collections::BTreeSet;

type EntityHead = (Option<NamedSupertype>, Items<usize>);

type EntityRules = (Items<NamedUniqueRule>, Items<NamedDomainRule>);

/// Nothing but the fault of a declaration that leads back to itself.
pub(crate) fn not_cyclic(kind: NameFaultKind, is_cyclic: bool, name: &Name) -> Binding<()>
    ensures { Binds result (if is_cyclic then outcomes.refused kind name.now.at else Ok tt) }
{
    if is_cyclic {
        return refused(kind, name.at);
    }
    Ok(())
}

/// What SUPERTYPE OF says, if it is there.
fn constraint(
    alloc: Global,
    declarations: &Declarations<'_>,
    tree: &Option<SupertypeExpression>,
) -> Binding<Option<NamedSupertype>>
    ensures { Binds result (optional (spec.supertype declarations.now []) tree.now) }
{
    match tree {
        Some(tree) => Ok(Some(supertype(alloc, declarations, tree)?)),
        None => Ok(None),
    }
}

/// The entities of these names, in order.
fn entities_named(
    alloc: Global,
    declarations: &Declarations<'_>,
    names: &[Name],
) -> Binding<Items<usize>>
    ensures { Binds result (each (scopes.entity declarations.now) names.now) }
{
    let mut found = Gathered::new(alloc, names.len())?;
    for name in names {
        found.push(declarations.entity(name))?;
    }
    found.finish()
}

#[tactic(auto, unfolding(crate::specs::Entities::entity_head, crate::specs::Entities::supertype))]
fn entity_head(
    alloc: Global,
    context: &EntityContext<'_, '_, '_>,
    entity: &Entity,
) -> Binding<EntityHead>
    ensures { Binds result (spec.entity_head context.now.declarations.now context.now.supertypes.now context.now.entity entity.now) }
{
    let head = &entity.head;
    let not_cyclic = not_cyclic(NameFaultKind::CyclicSubtype, context.is_cyclic, &head.name);
    let constraint = constraint(alloc, context.declarations, &head.constraint);
    let supertypes = entities_named(alloc, context.declarations, head.supertypes.as_slice());
    let ((), head) = both(not_cyclic, both(constraint, supertypes))?;
    Ok(head)
}

#[tactic(auto, unfolding(crate::specs::Entities::entity_rules))]
fn entity_rules(
    alloc: Global,
    context: &EntityContext<'_, '_, '_>,
    scope: &Scope<'_>,
    body: &EntityBody,
) -> Binding<EntityRules>
    requires { scope.now ≡ scope_of true (family context.now.supertypes.now context.now.entity) }
    ensures { Binds result (spec.entity_rules context.now.declarations.now context.now.supertypes.now context.now.entity body.now) }
{
    let unique_rules = unique_rules(alloc, context, body.unique_rules.as_slice());
    let domain_rules = domain_rules(
        alloc,
        context.declarations,
        scope,
        body.domain_rules.as_slice(),
    );
    both(unique_rules, domain_rules)
}

/// Whether the entity declares each name once, and each inherited attribute again at most once.
#[tactic(auto, unfolding(crate::specs::Entities::entity_names))]
fn entity_names(
    alloc: Global,
    context: &EntityContext<'_, '_, '_>,
    body: &EntityBody,
) -> Binding<()>
    ensures { Binds result (spec.entity_names context.now.declarations.now context.now.supertypes.now context.now.entity body.now) }
{
    let names = scope_names(alloc, body)?;
    let once = once(alloc, &names);
    let redeclared = once_redeclared(alloc, context, body);
    both(once, redeclared)?;
    Ok(())
}

/// All but whether names are declared once.
#[tactic(auto, unfolding(crate::specs::Wholes::entity_parts))]
fn entity_parts(
    alloc: Global,
    context: &EntityContext<'_, '_, '_>,
    scope: &Scope<'_>,
    entity: &Entity,
) -> Binding<(EntityHead, (EntityAttributes, EntityRules))>
    requires { scope.now ≡ scope_of true (family context.now.supertypes.now context.now.entity) }
    ensures { Binds result (parts.entity_parts context.now.declarations.now context.now.supertypes.now context.now.entity entity.now) }
{
    let head = entity_head(alloc, context, entity);
    let attributes = entity_attributes(alloc, context, scope, &entity.body);
    let rules = entity_rules(alloc, context, scope, &entity.body);
    both(head, both(attributes, rules))
}

fn entity_in(
    alloc: Global,
    context: &EntityContext<'_, '_, '_>,
    scope: &Scope<'_>,
    entity: &Entity,
) -> Binding<NamedEntity>
    requires { scope.now ≡ scope_of true (family context.now.supertypes.now context.now.entity) }
    ensures { Binds result (spec.named_entity context.now.declarations.now context.now.supertypes.now context.now.entity entity.now) }
{
    let name = copy_name(alloc, &entity.head.name)?;
    let names = entity_names(alloc, context, &entity.body);
    let parts = entity_parts(alloc, context, scope, entity);
    let ((), (head, (attributes, rules))) = both(names, parts)?;
    let (constraint, supertypes) = head;
    let ((explicit, derived), inverse) = attributes;
    let (unique_rules, domain_rules) = rules;
    Ok(NamedEntity {
        name,
        is_abstract: entity.head.is_abstract,
        constraint,
        supertypes,
        explicit,
        derived,
        inverse,
        unique_rules,
        domain_rules,
    })
}

/// Where the expressions of an entity stand: its attributes and those of its ancestors are in scope.
fn entity_over<'a>(
    alloc: Global,
    context: &'a EntityContext<'_, '_, '_>,
    no_variables: &'a SortedNames<'_>,
    entity: &Entity,
) -> Binding<NamedEntity>
    requires { no_variables.now ≡ [] }
    ensures { Binds result (spec.named_entity context.now.declarations.now context.now.supertypes.now context.now.entity entity.now) }
{
    let no_populations = BTreeSet::new(alloc);
    let scope = Scope::new(alloc, no_variables, true, &context.family, &no_populations);
    entity_in(alloc, context, &scope, entity)
}

/// An entity with its names bound. Of each entity `supertypes` has the entities that its SUBTYPE OF lists.
pub fn named_entity(
    alloc: Global,
    declarations: &Declarations<'_>,
    supertypes: &Descent,
    number: usize,
    is_cyclic: bool,
    entity: &Entity,
) -> Binding<NamedEntity>
    requires { is_cyclic ≡ is_ancestor supertypes.now number number }
    ensures { Binds result (spec.named_entity declarations.now supertypes.now number entity.now) }
{
    let context = EntityContext::new(declarations, supertypes, number, is_cyclic);
    let no_variables = no_variables(alloc)?;
    entity_over(alloc, &context, &no_variables, entity)
}
