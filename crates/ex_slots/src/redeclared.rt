//! The attributes that an entity redeclares.

ghost use Rattle.std.specs.Prelude.{◌≡◌, ◌++◌, map, IfOk, OnOk};
ghost use Rattle.std.specs.List.{filter_map, flat_map};
ghost use Rattle.ex_slots.specs.Slots as spec;

use ex_named::{
    NamedAttribute, NamedDataType, NamedDerived, NamedEntity, NamedExplicit, NamedRedeclaration,
};
use std::alloc::{AllocError, Global};
use std::marker::Model;

/// Where an entity redeclares an attribute.
#[derive(Clone, Copy, PartialEq, Eq)]
pub enum Clause {
    /// Among its explicit attributes.
    Explicit,
    /// In DERIVE.
    Derive,
}

/// An inherited attribute that an entity redeclares.
#[derive(Drop)]
pub struct Redeclaration<'s> {
    clause: Clause,
    attribute: &'s NamedRedeclaration,
    data_type: &'s NamedDataType,
}

impl<'s> Model for Redeclaration<'s> {
    ghost use Rattle.ex_slots.specs.Slots as spec;

    ghost Value = { spec.Redeclared };

    ghost view = { λ r. record { clause = r.clause; attribute = r.attribute.now; data_type = r.data_type.now } };

    ghost use Rattle.std.specs.Coded.{codes};
    ghost use Rattle.ex_named.specs.contracts.expression.NamedDataType as named_type;

    ghost coded = { Prim.hlevel (codes, named_type.the_row.coded) };
}

impl<'s> Redeclaration<'s> {
    pub fn clause(&self) -> Clause
        ensures { result ≡ self.now.clause }
    {
        self.clause
    }

    /// Which attribute, of which entity above.
    pub fn attribute(&self) -> &'s NamedRedeclaration
        ensures { result.now ≡ self.now.attribute }
    {
        self.attribute
    }

    /// The type that it has from there on.
    pub fn data_type(&self) -> &'s NamedDataType
        ensures { result.now ≡ self.now.data_type }
    {
        self.data_type
    }
}

/// The redeclaration that this attribute is, if it is one.
fn redeclared<'s>(
    clause: Clause,
    data_type: &'s NamedDataType,
    attribute: &'s NamedAttribute,
) -> Option<Redeclaration<'s>>
    ensures { result ≡ spec.redeclared clause data_type.now attribute.now }
{
    match attribute {
        NamedAttribute::Redeclared(attribute) => Some(Redeclaration {
            clause,
            attribute,
            data_type,
        }),
        NamedAttribute::Own(_) => None,
    }
}

/// Puts those of attributes that are declared together behind the others.
fn push_explicit<'s>(
    found: &mut Vec<Redeclaration<'s>>,
    explicit: &'s NamedExplicit,
) -> Result<(), AllocError>
    ensures { OnOk result (found.new.items ≡ found.old.items ++ spec.redeclared_explicit explicit.now) }
{
    for attribute in explicit.attributes.as_slice() {
        if let Some(redeclaration) = redeclared(Clause::Explicit, &explicit.data_type, attribute) {
            found.push(redeclaration)?;
        }
    }
    Ok(())
}

/// Puts those of DERIVE behind the others.
fn push_derived<'s>(
    found: &mut Vec<Redeclaration<'s>>,
    list: &'s [NamedDerived],
) -> Result<(), AllocError>
    ensures { OnOk result (found.new.items ≡ found.old.items ++ filter_map spec.redeclared_derived list.now) }
{
    for derived in list {
        if let Some(redeclaration) = redeclared(
            Clause::Derive,
            &derived.data_type,
            &derived.attribute,
        ) {
            found.push(redeclaration)?;
        }
    }
    Ok(())
}

/// The inherited attributes that an entity redeclares: explicit ones and then those of DERIVE, in their order.
#[tactic(auto, unfolding(crate::specs::Slots::redeclarations))]
pub fn redeclarations(
    alloc: Global,
    entity: &NamedEntity,
) -> Result<Vec<Redeclaration<'_>>, AllocError>
    ensures { IfOk result (λ found. found.items ≡ spec.redeclarations entity.now) }
{
    let mut found = Vec::new(alloc);
    for explicit in entity.explicit.as_slice() {
        push_explicit(&mut found, explicit)?;
    }
    push_derived(&mut found, entity.derived.as_slice())?;
    Ok(found)
}
