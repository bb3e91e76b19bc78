//! Entities.

ghost use Rattle.std.specs.Prelude.{◌≡◌, ◌++◌, map, IfOk, OnOk};
ghost use Rattle.std.specs.List.{flat_map};
ghost use Rattle.plain_data.specs.Numbers.{numbered};
ghost use Rattle.ex_slots.specs.Slots as slots;
ghost use Rattle.rp_meaning.specs.Compiled as compiled;
ghost use Rattle.rp_compile.specs.Declarations as spec;
ghost use Rattle.rp_compile_names.specs.Rows.{row as row_of};

use crate::expressions::{conditions, given};
use ex_kinds::{Sort, kinds_of_one};
use ex_named::{
    AttributeMeaning, AttributePlace, AttributeSort, AttributeUse, NamedAttribute, NamedDerived,
    NamedDomainRule, NamedEntity, NamedExplicit, NamedInverse, NamedUniqueRule,
};
use ex_tree::Name;
use ex_typing::TypingScope;
use plain_data::Items;
use rp_code::{Code, Role, copied_type};
use rp_compile_names::{Rederived, derivations, explicit_of, joined, rederived_of};
use rp_compile_trees::{Declared, both, push_made};
use rp_meaning::{Derivation, Entity, Explicit, ExplicitAttribute, Given, Inverse, Redeclaration};
use std::alloc::{AllocError, Global};

/// The declaration that a name means; it means one in a schema that was checked.
fn declaration(name: &AttributeUse) -> AttributePlace
    ensures { result ≡ compiled.declaration name.now }
{
    match name.meaning {
        AttributeMeaning::One(place) => place,
        AttributeMeaning::Several => AttributePlace {
            entity: 0,
            sort: AttributeSort::Explicit,
            place: 0,
        },
    }
}

fn explicit_declaration(alloc: Global, explicit: &NamedExplicit) -> Result<Explicit, AllocError>
    ensures { IfOk result (λ found. found ≡ compiled.explicit_declaration explicit.now) }
{
    Ok(Explicit {
        data_type: copied_type(alloc, &explicit.data_type)?,
        is_optional: explicit.optional,
    })
}

/// An explicit attribute of an entity's own, given what redeclares the entity's attributes in DERIVE.
fn explicit_attribute(
    alloc: Global,
    rederived: &[Rederived],
    entity: usize,
    place: usize,
    explicit: &NamedExplicit,
) -> Result<ExplicitAttribute, AllocError>
    ensures { IfOk result (λ found. found ≡ spec.explicit rederived.now entity place explicit.now) }
{
    let attribute = AttributePlace {
        entity,
        sort: AttributeSort::Explicit,
        place,
    };
    let (derivations, declaration) = both(
        derivations(alloc, rederived, attribute),
        explicit_declaration(alloc, explicit),
    )?;
    Ok(ExplicitAttribute {
        declaration,
        derivations,
    })
}

/// The explicit attributes of an entity's own.
fn explicit_attributes(
    alloc: Global,
    rederived: &[Rederived],
    entity: usize,
    rows: &[(&Name, &NamedExplicit)],
) -> Result<Items<ExplicitAttribute>, AllocError>
    ensures { IfOk result (λ found. found ≡ numbered (λ place d. spec.explicit rederived.now entity place d.1) (slots.rows_of rows.now)) }
{
    let mut found = Items::new(alloc);
    for (place, (_, explicit)) in rows.iter().enumerate() {
        let attribute = explicit_attribute(alloc, rederived, entity, place, explicit);
        push_made(&mut found, attribute)?;
    }
    Ok(found)
}

/// Puts the inherited attributes that are redeclared there behind the others.
fn push_redeclarations(
    alloc: Global,
    found: &mut Items<Redeclaration>,
    explicit: &NamedExplicit,
) -> Result<(), AllocError>
    ensures { OnOk result (found.new ≡ found.old ++ compiled.redeclarations_in explicit.now) }
{
    for attribute in explicit.attributes.as_slice() {
        if let NamedAttribute::Redeclared(redeclared) = attribute {
            let attribute = declaration(&redeclared.attribute);
            let declaration = explicit_declaration(alloc, explicit)?;
            found.push(Redeclaration {
                attribute,
                declaration,
            })?;
        }
    }
    Ok(())
}

/// What an entity redeclares as explicit attributes.
fn redeclarations(alloc: Global, list: &[NamedExplicit]) -> Result<Items<Redeclaration>, AllocError>
    ensures { IfOk result (λ found. found ≡ flat_map compiled.redeclarations_in list.now) }
{
    let mut found = Items::new(alloc);
    for explicit in list {
        push_redeclarations(alloc, &mut found, explicit)?;
    }
    Ok(found)
}

/// What gives the derived attributes of an entity's own their values, by its own DERIVE clause.
fn own_derivations(
    alloc: Global,
    entity: usize,
    list: &[NamedDerived],
) -> Result<Vec<Derivation>, AllocError>
    ensures { IfOk result (λ found. found.items ≡ compiled.own_derivations entity list.now) }
{
    let mut found = Vec::new(alloc);
    for (place, derived) in list.iter().enumerate() {
        if let NamedAttribute::Own(_) = &derived.attribute {
            found.push(Derivation { entity, place })?;
        }
    }
    Ok(found)
}

/// What gives a derived attribute of an entity's own its value: what redeclares it, and then its own.
fn derived_attribute(
    alloc: Global,
    rederived: &[Rederived],
    entity: usize,
    place: usize,
    own: Derivation,
) -> Result<Items<Derivation>, AllocError>
    ensures { IfOk result (λ found. found ≡ spec.derived rederived.now entity place own) }
{
    let attribute = AttributePlace {
        entity,
        sort: AttributeSort::Derived,
        place,
    };
    let mut found = derivations(alloc, rederived, attribute)?;
    found.push(own)?;
    Ok(found)
}

/// What gives derived attributes of an entity's own their values, given what its own DERIVE clause gives each.
fn each_derived(
    alloc: Global,
    rederived: &[Rederived],
    entity: usize,
    own: &[Derivation],
) -> Result<Items<Items<Derivation>>, AllocError>
    ensures { IfOk result (λ found. found ≡ numbered (spec.derived rederived.now entity) own.now) }
{
    let mut found = Items::new(alloc);
    for (place, derivation) in own.iter().enumerate() {
        let attribute = derived_attribute(alloc, rederived, entity, place, *derivation);
        push_made(&mut found, attribute)?;
    }
    Ok(found)
}

/// The derived attributes of an entity's own.
fn derived_attributes(
    alloc: Global,
    rederived: &[Rederived],
    entity: usize,
    list: &[NamedDerived],
) -> Result<Items<Items<Derivation>>, AllocError>
    ensures { IfOk result (λ found. found ≡ numbered (spec.derived rederived.now entity) (compiled.own_derivations entity list.now)) }
{
    let own = own_derivations(alloc, entity, list)?;
    each_derived(alloc, rederived, entity, &own)
}

/// What gives values in a DERIVE clause.
fn all_given(
    alloc: Global,
    schema: &Declared<'_>,
    scope: &TypingScope<'_>,
    list: &[NamedDerived],
) -> Result<Items<Given>, AllocError>
    ensures { IfOk result (λ found. found ≡ map (λ d. spec.given schema.now scope.now d.data_type d.value) list.now) }
{
    let mut found = Items::new(alloc);
    for derived in list {
        let given = given(alloc, schema, scope, &derived.data_type, &derived.value);
        push_made(&mut found, given)?;
    }
    Ok(found)
}

/// What a DERIVE clause gives, and the conditions of a WHERE clause, in both of which SELF is an instance of the entity.
fn entity_rules(
    alloc: Global,
    schema: &Declared<'_>,
    number: usize,
    derived: &[NamedDerived],
    rules: &[NamedDomainRule],
) -> Result<(Items<Given>, Items<Code>), AllocError>
    ensures derivations { IfOk result (λ found. found.0 ≡ spec.derivations_of schema.now number derived.now) }
    ensures domain_rules { IfOk result (λ found. found.1 ≡ spec.entity_rules schema.now number rules.now) }
{
    let itself = kinds_of_one(alloc, Sort::Entity(number))?;
    let scope = TypingScope::new(alloc, Some(number), itself.as_slice(), &[], &[]);
    let (derivations, conditions) = both(
        all_given(alloc, schema, &scope, derived),
        conditions(alloc, schema, &scope, rules),
    )?;
    Ok((derivations, conditions))
}

/// An inverse attribute, with the role in which it finds its users.
fn inverse_attribute(alloc: Global, inverse: &NamedInverse) -> Result<Inverse, AllocError>
    ensures { IfOk result (λ found. found ≡ compiled.inverse inverse.now) }
{
    let attribute = declaration(&inverse.attribute);
    Ok(Inverse {
        aggregate: inverse.aggregate,
        role: Role::Of(inverse.entity, Items::from_slice(alloc, &[attribute])?),
    })
}

fn inverse_attributes(alloc: Global, list: &[NamedInverse]) -> Result<Items<Inverse>, AllocError>
    ensures { IfOk result (λ found. found ≡ map compiled.inverse list.now) }
{
    let mut found = Items::new(alloc);
    for inverse in list {
        push_made(&mut found, inverse_attribute(alloc, inverse))?;
    }
    Ok(found)
}

fn unique_rule(alloc: Global, rule: &NamedUniqueRule) -> Result<Items<AttributePlace>, AllocError>
    ensures { IfOk result (λ found. found ≡ map compiled.declaration rule.now.attributes) }
{
    let mut found = Items::new(alloc);
    for attribute in rule.attributes.as_slice() {
        found.push(declaration(attribute))?;
    }
    Ok(found)
}

fn unique_rules(
    alloc: Global,
    list: &[NamedUniqueRule],
) -> Result<Items<Items<AttributePlace>>, AllocError>
    ensures { IfOk result (λ found. found ≡ map (λ rule. map compiled.declaration rule.attributes) list.now) }
{
    let mut found = Items::new(alloc);
    for rule in list {
        push_made(&mut found, unique_rule(alloc, rule))?;
    }
    Ok(found)
}

/// The explicit attributes of an entity's own, and what it redeclares as such.
fn all_explicit(
    alloc: Global,
    rederived: &[Rederived],
    number: usize,
    entity: &NamedEntity,
) -> Result<(Items<ExplicitAttribute>, Items<Redeclaration>), AllocError>
    ensures explicit { IfOk result (λ found. found.0 ≡ numbered (λ place d. spec.explicit rederived.now number place d.1) (slots.declared_by entity.now)) }
    ensures redeclarations { IfOk result (λ found. found.1 ≡ flat_map compiled.redeclarations_in entity.now.explicit) }
{
    let rows = explicit_of(alloc, entity)?;
    both(
        explicit_attributes(alloc, rederived, number, &rows),
        redeclarations(alloc, entity.explicit.as_slice()),
    )
}

/// The inverse attributes of an entity's own, and its UNIQUE rules.
fn inverse_and_unique(
    alloc: Global,
    entity: &NamedEntity,
) -> Result<(Items<Inverse>, Items<Items<AttributePlace>>), AllocError>
    ensures inverse { IfOk result (λ found. found.0 ≡ map compiled.inverse entity.now.inverse) }
    ensures unique_rules { IfOk result (λ found. found.1 ≡ map (λ rule. map compiled.declaration rule.attributes) entity.now.unique_rules) }
{
    both(
        inverse_attributes(alloc, entity.inverse.as_slice()),
        unique_rules(alloc, entity.unique_rules.as_slice()),
    )
}

/// An entity, given what redeclares its attributes in DERIVE.
fn entity(
    alloc: Global,
    schema: &Declared<'_>,
    schema_name: &str,
    rederived: &[Rederived],
    number: usize,
    entity: &NamedEntity,
) -> Result<Entity, AllocError>
    ensures { IfOk result (λ found. found ≡ spec.entity schema.now schema_name.now rederived.now number entity.now) }
{
    let name = joined(alloc, schema_name, entity.name.text.as_str());
    let derived = derived_attributes(alloc, rederived, number, entity.derived.as_slice());
    let attributes = both(all_explicit(alloc, rederived, number, entity), derived);
    let rules = entity_rules(
        alloc,
        schema,
        number,
        entity.derived.as_slice(),
        entity.domain_rules.as_slice(),
    );
    let ((name, ((explicit, redeclarations), derived)), (rules, others)) = both(
        both(name, attributes),
        both(rules, inverse_and_unique(alloc, entity)),
    )?;
    let (derivations, domain_rules) = rules;
    let (inverse, unique_rules) = others;
    Ok(Entity {
        name,
        explicit,
        redeclarations,
        derived,
        derivations,
        inverse,
        unique_rules,
        domain_rules,
    })
}

/// The entities of a schema of this name, given what redeclares the attributes of each in DERIVE.
pub(crate) fn entities(
    alloc: Global,
    schema: &Declared<'_>,
    schema_name: &str,
    rederived: &[Items<Rederived>],
    list: &[NamedEntity],
) -> Result<Items<Entity>, AllocError>
    ensures { IfOk result (λ found. found ≡ numbered (λ number x. spec.entity schema.now schema_name.now (row_of rederived.now number) number x) list.now) }
{
    let mut found = Items::new(alloc);
    for (number, declared) in list.iter().enumerate() {
        let rederived = rederived_of(rederived, number);
        let compiled = entity(alloc, schema, schema_name, rederived, number, declared);
        push_made(&mut found, compiled)?;
    }
    Ok(found)
}
