//! Entities.

ghost use Rattle.std.specs.Prelude.{◌≡◌, IfOk};
ghost use Rattle.ex_types.specs.Declarations as spec;

use crate::rules::domain_rules;
use crate::uses::{all_ambiguous, ambiguous, attribute, attributes, place_of};
use ex_kinds::{Sort, TypeFault, either, kinds_of, kinds_of_one};
use ex_named::{NamedDerived, NamedEntity, NamedExplicit, NamedInverse, NamedUniqueRule};
use ex_typing::{Known, TypingScope};
use ex_typing_statements::assigned;
use std::alloc::{AllocError, Global};

/// The fault that is told of explicit attributes.
fn explicit(list: &[NamedExplicit]) -> Option<TypeFault>
    ensures { result ≡ spec.told (λ x. spec.told spec.attribute x.attributes) list.now }
{
    let mut found = None;
    for each in list {
        found = either(found, attributes(each.attributes.as_slice()));
    }
    found
}

/// The value fits the declared type.
fn derived_one(
    alloc: Global,
    schema: &Known,
    scope: &TypingScope<'_>,
    derived: &NamedDerived,
) -> Result<Option<TypeFault>, AllocError>
    ensures { IfOk result (λ told. told ≡ spec.derived_one schema.now scope.now derived.now) }
{
    let kinds = kinds_of(alloc, &derived.data_type)?;
    let at = place_of(&derived.attribute);
    let told = assigned(alloc, schema, scope, kinds.as_slice(), at, &derived.value)?;
    Ok(either(attribute(&derived.attribute), told))
}

/// The fault that is told of derived attributes.
fn derived(
    alloc: Global,
    schema: &Known,
    scope: &TypingScope<'_>,
    list: &[NamedDerived],
) -> Result<Option<TypeFault>, AllocError>
    ensures { IfOk result (λ told. told ≡ spec.derived schema.now scope.now list.now) }
{
    let mut found = None;
    for each in list {
        let told = derived_one(alloc, schema, scope, each)?;
        found = either(found, told);
    }
    Ok(found)
}

/// The fault that is told of inverse attributes.
fn inverse(list: &[NamedInverse]) -> Option<TypeFault>
    ensures { result ≡ spec.told (λ x. spec.ambiguous x.attribute) list.now }
{
    let mut found = None;
    for each in list {
        found = either(found, ambiguous(&each.attribute));
    }
    found
}

/// The fault that is told of UNIQUE.
fn unique_rules(list: &[NamedUniqueRule]) -> Option<TypeFault>
    ensures { result ≡ spec.told (λ r. spec.told spec.ambiguous r.attributes) list.now }
{
    let mut found = None;
    for rule in list {
        found = either(found, all_ambiguous(rule.attributes.as_slice()));
    }
    found
}

/// SELF is an instance of the entity.
#[tactic(auto, unfolding(crate::specs::Declarations::entity))]
fn entity(
    alloc: Global,
    schema: &Known,
    number: usize,
    entity: &NamedEntity,
) -> Result<Option<TypeFault>, AllocError>
    ensures { IfOk result (λ told. told ≡ spec.entity schema.now number entity.now) }
{
    let itself = kinds_of_one(alloc, Sort::Entity(number))?;
    let scope = TypingScope::new(alloc, Some(number), itself.as_slice(), &[], &[]);
    let derived = derived(alloc, schema, &scope, entity.derived.as_slice())?;
    let rules = domain_rules(alloc, schema, &scope, entity.domain_rules.as_slice())?;
    let attributes = either(explicit(entity.explicit.as_slice()), derived);
    let names = either(attributes, inverse(entity.inverse.as_slice()));
    Ok(either(
        either(names, unique_rules(entity.unique_rules.as_slice())),
        rules,
    ))
}

/// The fault that is told of entities.
pub fn all_entities(
    alloc: Global,
    schema: &Known,
    entities: &[NamedEntity],
) -> Result<Option<TypeFault>, AllocError>
    ensures { IfOk result (λ told. told ≡ spec.told_numbered (spec.entity schema.now) entities.now) }
{
    let mut found = None;
    for (number, declared) in entities.iter().enumerate() {
        let told = entity(alloc, schema, number, declared)?;
        found = either(found, told);
    }
    Ok(found)
}
