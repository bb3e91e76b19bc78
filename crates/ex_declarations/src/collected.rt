//! All that a schema declares.

ghost use Rattle.std.specs.Prelude.{◌≡◌, [], ◌∷◌, map, IfOk, OnOk};
ghost use Rattle.plain_data.specs.Numbers.{numbered};
ghost use Rattle.ex_declarations.specs.Declared as spec;
ghost use Rattle.ex_declarations.specs.Steps.{and_attributes, and_items, and_names, and_types, rows_of};

use crate::attribute_names::{derived_names, explicit_names, inverse_names};
use crate::own_names::own_names;
use crate::sorts::{entities, types};
use ex_named::{AttributePlace, AttributeSort, Declared, EnumerationItem};
use ex_scopes::OwnedDeclarations;
use ex_tree::{Entity, Name, Schema, TypeDeclaration, UnderlyingType};
use std::alloc::{AllocError, Global};

/// Puts names of the schema's own scope behind the others.
fn push_names(
    alloc: Global,
    found: &mut OwnedDeclarations,
    rows: &[(&Name, Declared)],
) -> Result<(), AllocError>
    ensures { OnOk result (found.new ≡ and_names found.old (rows_of rows.now)) }
{
    for (name, declared) in rows {
        found.push_name(name.text.copy(alloc)?, *declared)?;
    }
    Ok(())
}

/// Puts the attributes that an entity declares so behind the others.
fn push_places(
    alloc: Global,
    found: &mut OwnedDeclarations,
    entity: usize,
    sort: AttributeSort,
    names: &[&Name],
) -> Result<(), AllocError>
    ensures { OnOk result (found.new ≡ and_attributes found.old (spec.placed entity sort (map (λ n. n.now) names.now))) }
{
    for (place, name) in names.iter().enumerate() {
        let attribute = AttributePlace {
            entity,
            sort,
            place,
        };
        found.push_attribute(name.text.copy(alloc)?, attribute)?;
    }
    Ok(())
}

/// Puts the attributes of an entity behind the others.
fn push_entity(
    alloc: Global,
    found: &mut OwnedDeclarations,
    number: usize,
    entity: &Entity,
) -> Result<(), AllocError>
    ensures { OnOk result (found.new ≡ and_attributes found.old (spec.attributes_of_entity number entity.now)) }
{
    let explicit = explicit_names(alloc, &entity.body)?;
    push_places(alloc, found, number, AttributeSort::Explicit, &explicit)?;
    let derived = derived_names(alloc, &entity.body)?;
    push_places(alloc, found, number, AttributeSort::Derived, &derived)?;
    let inverse = inverse_names(alloc, &entity.body)?;
    push_places(alloc, found, number, AttributeSort::Inverse, &inverse)?;
    Ok(())
}

/// Puts the attributes of entities, which are all, behind the others.
fn push_entities(
    alloc: Global,
    found: &mut OwnedDeclarations,
    entities: &[&Entity],
) -> Result<(), AllocError>
    ensures { OnOk result (found.new ≡ and_attributes found.old (spec.concatenated (numbered spec.attributes_of_entity (map (λ e. e.now) entities.now)))) }
{
    for (number, entity) in entities.iter().enumerate() {
        push_entity(alloc, found, number, entity)?;
    }
    Ok(())
}

/// Puts the items of an enumeration behind the others.
fn push_items(
    alloc: Global,
    found: &mut OwnedDeclarations,
    type_number: usize,
    names: &[Name],
) -> Result<(), AllocError>
    ensures { OnOk result (found.new ≡ and_items found.old (numbered (λ place n. (n.text, record { type_number = type_number; place = place })) names.now)) }
{
    for (place, name) in names.iter().enumerate() {
        let item = EnumerationItem { type_number, place };
        found.push_item(name.text.copy(alloc)?, item)?;
    }
    Ok(())
}

/// Puts a type behind the others, with its items if it is an enumeration.
fn push_type(
    alloc: Global,
    found: &mut OwnedDeclarations,
    number: usize,
    declared: &TypeDeclaration,
) -> Result<(), AllocError>
    ensures { OnOk result (found.new ≡ and_types found.old (spec.items_of_type number declared.now) (spec.is_enumeration declared.now.underlying ∷ [])) }
{
    match &declared.underlying {
        UnderlyingType::Enumeration(names) => {
            push_items(alloc, found, number, names.as_slice())?;
            found.push_enumeration(true)?;
        },
        UnderlyingType::Select(_) | UnderlyingType::Data(_) => found.push_enumeration(false)?,
    }
    Ok(())
}

/// Puts types, which are all, behind the others.
fn push_types(
    alloc: Global,
    found: &mut OwnedDeclarations,
    types: &[&TypeDeclaration],
) -> Result<(), AllocError>
    ensures { OnOk result (found.new ≡ and_types found.old (spec.concatenated (numbered spec.items_of_type (map (λ x. x.now) types.now))) (map (λ x. spec.is_enumeration x.underlying) (map (λ x. x.now) types.now))) }
{
    for (number, declared) in types.iter().enumerate() {
        push_type(alloc, found, number, declared)?;
    }
    Ok(())
}

/// Puts all that a schema declares into a list of nothing.
#[tactic(auto, unfolding(crate::specs::Declared::declarations))]
fn fill(alloc: Global, found: &mut OwnedDeclarations, schema: &Schema) -> Result<(), AllocError>
    requires { found.old ≡ record { names = []; attributes = []; items = []; enumerations = [] } }
    ensures { OnOk result (found.new ≡ spec.declarations schema.now) }
{
    push_names(alloc, found, &own_names(alloc, schema)?)?;
    push_entities(alloc, found, &entities(alloc, schema)?)?;
    push_types(alloc, found, &types(alloc, schema)?)
}

/// All that a schema declares.
pub fn declarations(alloc: Global, schema: &Schema) -> Result<OwnedDeclarations, AllocError>
    ensures { IfOk result (λ found. found ≡ spec.declarations schema.now) }
{
    let mut found = OwnedDeclarations::new(alloc);
    fill(alloc, &mut found, schema)?;
    Ok(found)
}
