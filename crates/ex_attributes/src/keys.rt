//! The keys of declarations in tables.

ghost use Rattle.std.specs.Prelude.{◌≡◌, map, IfOk};
ghost use Rattle.ex_attributes.specs.Attributes as spec;
ghost use Rattle.ex_attributes.specs.Tables as tables;

use crate::attribute::Redeclared;
use ex_named::{AttributePlace, AttributeSort};
use plain_data::Rows;
use std::alloc::{AllocError, Global};

pub(crate) fn sort_number(sort: AttributeSort) -> usize
    ensures { result ≡ spec.sort_number sort }
{
    match sort {
        AttributeSort::Explicit => 0,
        AttributeSort::Derived => 1,
        AttributeSort::Inverse => 2,
    }
}

/// The key of a declaration.
pub(crate) fn place_key(alloc: Global, place: AttributePlace) -> Result<Vec<usize>, AllocError>
    ensures { IfOk result (λ key. key.items ≡ spec.place_key place) }
{
    Vec::from_slice(alloc, &[place.entity, sort_number(place.sort), place.place])
}

/// The key of a declaration, behind the number of an entity that redeclares it.
pub(crate) fn redeclarer_key(
    alloc: Global,
    entity: usize,
    place: AttributePlace,
) -> Result<Vec<usize>, AllocError>
    ensures { IfOk result (λ key. key.items ≡ tables.behind entity (spec.place_key place)) }
{
    Vec::from_slice(
        alloc,
        &[entity, place.entity, sort_number(place.sort), place.place],
    )
}

/// Where the attributes are declared that are redeclared.
pub(crate) fn redeclared_keys(
    alloc: Global,
    rows: &[Redeclared],
) -> Result<Vec<Rows<usize>>, AllocError>
    ensures { IfOk result (λ keys. keys.items ≡ map tables.redeclared_key rows.now) }
{
    let mut keys = Vec::with_capacity(alloc, rows.len())?;
    for redeclared in rows {
        let key = place_key(alloc, redeclared.place)?;
        keys.push(Rows::from_vec(key))?;
    }
    Ok(keys)
}

/// Where the attributes are declared that are redeclared, each behind who redeclares it.
pub(crate) fn redeclarer_keys(
    alloc: Global,
    rows: &[Redeclared],
) -> Result<Vec<Rows<usize>>, AllocError>
    ensures { IfOk result (λ keys. keys.items ≡ map tables.redeclarer_key rows.now) }
{
    let mut keys = Vec::with_capacity(alloc, rows.len())?;
    for redeclared in rows {
        let key = redeclarer_key(alloc, redeclared.entity, redeclared.place)?;
        keys.push(Rows::from_vec(key))?;
    }
    Ok(keys)
}
