//! What is seen of the declarations of an attribute's name, one after another.

ghost use Rattle.std.specs.Prelude.{◌≡◌};
ghost use Rattle.ex_scopes.specs.Attributes as spec;
ghost use Rattle.ex_scopes.specs.Sorts.{admitted, same_sort};

use crate::sorts::Sorts;
use ex_named::{AttributeMeaning, AttributePlace, AttributeSort};

/// The declarations that were seen.
#[derive(Clone, Copy)]
pub(crate) enum Seen {
    Nothing,
    One(AttributePlace),
    /// Several: the sort of the first, and whether one of them is of a sort that can stand or of another than the first.
    Several(AttributeSort, bool),
}

fn is_same(sort: AttributeSort, other: AttributeSort) -> bool
    ensures { result ≡ same_sort sort other }
{
    sort == other
}

/// Whether a declaration can stand, or is of another sort than one of this sort.
fn stands(sorts: Sorts, sort: AttributeSort, place: AttributePlace) -> bool
    ensures { result ≡ spec.stands (admitted sorts) sort place }
{
    sorts.admit(place.sort) || !is_same(sort, place.sort)
}

impl Seen {
    /// With one declaration more.
    pub(crate) fn and(self, sorts: Sorts, place: AttributePlace) -> Seen
        ensures { result ≡ spec.and_seen (admitted sorts) self place }
    {
        match self {
            Seen::Nothing => Seen::One(place),
            Seen::One(first) => Seen::Several(
                first.sort,
                sorts.admit(first.sort) || stands(sorts, first.sort, place),
            ),
            Seen::Several(sort, is_admitted) => {
                Seen::Several(sort, is_admitted || stands(sorts, sort, place))
            }
        }
    }

    /// Whether no declaration more makes a difference.
    pub(crate) fn is_settled(self) -> bool
        ensures { result ≡ spec.is_settled self }
    {
        match self {
            Seen::Several(_, is_admitted) => is_admitted,
            Seen::Nothing | Seen::One(_) => false,
        }
    }

    /// What the name means, if one declaration is of a sort that can stand, or two are of two sorts.
    pub(crate) fn meaning(self, sorts: Sorts) -> Option<AttributeMeaning>
        ensures { result ≡ spec.told (admitted sorts) self }
    {
        match self {
            Seen::One(place) if sorts.admit(place.sort) => Some(AttributeMeaning::One(place)),
            Seen::Several(_, true) => Some(AttributeMeaning::Several),
            _ => None,
        }
    }
}
