//! The attributes that an entity redeclares.

ghost use Rattle.std.specs.Prelude.{◌≡◌, ◌++◌, IfOk, OnOk};
ghost use Rattle.std.specs.List.{filter_map, flat_map};
ghost use Rattle.ex_kinds.specs.Kinds.{of_type};
ghost use Rattle.ex_named.specs.Scopes.{and_then};
ghost use Rattle.ex_attributes.specs.Attributes as spec;

use crate::attribute::Redeclared;
use ex_kinds::kinds_of;
use ex_named::{
    AttributeMeaning, AttributePlace, NamedAttribute, NamedDataType, NamedDerived, NamedEntity,
    NamedExplicit,
};
use plain_data::Rows;
use std::alloc::{AllocError, Global};

/// The declaration that a name means, if it means one.
fn meant(meaning: AttributeMeaning) -> Option<AttributePlace>
    ensures { result ≡ spec.meant meaning }
{
    match meaning {
        AttributeMeaning::One(place) => Some(place),
        AttributeMeaning::Several => None,
    }
}

/// The declaration that is redeclared.
fn redeclared_place(attribute: &NamedAttribute) -> Option<AttributePlace>
    ensures { result ≡ and_then (spec.redeclaration attribute.now) (λ r. spec.meant r.attribute.meaning) }
{
    match attribute {
        NamedAttribute::Redeclared(redeclaration) => { meant(redeclaration.attribute.meaning) }
        NamedAttribute::Own(_) => None,
    }
}

/// Puts those that are redeclared with this type behind the others.
fn push_redeclared(
    alloc: Global,
    found: &mut Rows<Redeclared>,
    entity: usize,
    attributes: &[NamedAttribute],
    data_type: &NamedDataType,
) -> Result<(), AllocError>
    ensures { OnOk result (found.new ≡ found.old ++ filter_map (spec.redeclared_as entity (of_type data_type.now)) attributes.now) }
{
    for attribute in attributes {
        if let Some(place) = redeclared_place(attribute) {
            let kinds = kinds_of(alloc, data_type)?;
            found.push(Redeclared {
                place,
                entity,
                kinds,
            })?;
        }
    }
    Ok(())
}

/// Puts those that are redeclared as explicit behind the others.
fn push_explicit(
    alloc: Global,
    found: &mut Rows<Redeclared>,
    entity: usize,
    list: &[NamedExplicit],
) -> Result<(), AllocError>
    ensures { OnOk result (found.new ≡ found.old ++ flat_map (λ x. filter_map (spec.redeclared_as entity (of_type x.data_type)) x.attributes) list.now) }
{
    for explicit in list {
        push_redeclared(
            alloc,
            found,
            entity,
            explicit.attributes.as_slice(),
            &explicit.data_type,
        )?;
    }
    Ok(())
}

/// Puts those that are redeclared as derived behind the others.
fn push_derived(
    alloc: Global,
    found: &mut Rows<Redeclared>,
    entity: usize,
    list: &[NamedDerived],
) -> Result<(), AllocError>
    ensures { OnOk result (found.new ≡ found.old ++ filter_map (λ x. spec.redeclared_as entity (of_type x.data_type) x.attribute) list.now) }
{
    for derived in list {
        if let Some(place) = redeclared_place(&derived.attribute) {
            let kinds = kinds_of(alloc, &derived.data_type)?;
            found.push(Redeclared {
                place,
                entity,
                kinds,
            })?;
        }
    }
    Ok(())
}

/// Puts the attributes that the entity of this number redeclares behind the others.
fn push_redeclarations(
    alloc: Global,
    found: &mut Rows<Redeclared>,
    number: usize,
    entity: &NamedEntity,
) -> Result<(), AllocError>
    ensures { OnOk result (found.new ≡ found.old ++ spec.redeclared_by number entity.now) }
{
    push_explicit(alloc, found, number, entity.explicit.as_slice())?;
    push_derived(alloc, found, number, entity.derived.as_slice())
}

/// The attributes that entities redeclare, entity after entity.
pub(crate) fn redeclared_by_all(
    alloc: Global,
    entities: &[NamedEntity],
) -> Result<Rows<Redeclared>, AllocError>
    ensures { IfOk result (λ found. found ≡ spec.of_each spec.redeclared_by entities.now) }
{
    let mut found = Rows::new(alloc);
    for (number, entity) in entities.iter().enumerate() {
        push_redeclarations(alloc, &mut found, number, entity)?;
    }
    Ok(found)
}
