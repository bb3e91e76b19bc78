//! Whether rows stand in the order of their entities.

ghost use Rattle.std.specs.Prelude.{◌≡◌, IsTrue};
ghost use Rattle.std.specs.Cmp.Lexicographic.{slice_cmp};
ghost use Rattle.std.specs.List.Sorted.{IsNonDecreasingBy};
ghost use Rattle.std.specs.Ordering.{nat_cmp};
ghost use Rattle.ex_attributes.specs.Attributes as spec;
ghost use Rattle.ex_attributes.specs.Tables.{IsInOrder};

use crate::attribute::{Attribute, Redeclared};
use crate::keys::sort_number;
use ex_named::AttributePlace;
use std::cmp::Ordering;

/// The order of declarations: by the entity, then by the sort, then by their places.
pub(crate) fn place_order(place: AttributePlace, other: AttributePlace) -> Ordering
    ensures { result ≡ slice_cmp nat_cmp (spec.place_key place) (spec.place_key other) }
{
    match place.entity.cmp(&other.entity) {
        Ordering::Equal => {
            let sorts = sort_number(place.sort).cmp(&sort_number(other.sort));
            sorts.then(place.place.cmp(&other.place))
        },
        order => order,
    }
}

/// Whether the two are one declaration.
pub(crate) fn is_same_place(place: AttributePlace, other: AttributePlace) -> bool
    ensures { result ≡ spec.same_place place other }
{
    place.entity == other.entity
        && sort_number(place.sort) == sort_number(other.sort)
        && place.place == other.place
}

/// Whether attributes stand in the order of where they are declared.
pub(crate) fn attributes_in_order(rows: &[Attribute]) -> bool
    ensures { IsTrue result → IsInOrder rows.now }
{
    for next in 1..rows.len() {
        if place_order(rows[next].place, rows[next - 1].place).is_lt() {
            return false;
        }
    }
    true
}

/// Whether attributes stand in the order of who declares them.
pub(crate) fn attributes_ascend(rows: &[Attribute]) -> bool
    ensures { IsTrue result → IsNonDecreasingBy (λ a. a.place.entity) rows.now }
{
    for next in 1..rows.len() {
        if rows[next].place.entity < rows[next - 1].place.entity {
            return false;
        }
    }
    true
}

/// Whether redeclarations stand in the order of who redeclares.
pub(crate) fn redeclarations_ascend(rows: &[Redeclared]) -> bool
    ensures { IsTrue result → IsNonDecreasingBy (λ r. r.entity) rows.now }
{
    for next in 1..rows.len() {
        if rows[next].entity < rows[next - 1].entity {
            return false;
        }
    }
    true
}
