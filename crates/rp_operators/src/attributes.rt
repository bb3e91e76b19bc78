//! Which entities instances are of, and which attributes are meant.

ghost use Rattle.std.specs.Prelude.{◌≡◌};
ghost use Rattle.rp_meaning.specs.Populations as populations;
ghost use Rattle.rp_meaning.specs.Uses as uses;

use ex_named::{AttributePlace, AttributeSort};
use rp_meaning::Seen;

/// Whether an instance has an entity.
#[inline]
pub fn is_of(instance: &Seen<'_>, entity: usize) -> bool
    ensures { result ≡ populations.is_of instance.now entity }
{
    instance.entities.iter().any(|other| *other == entity)
}

fn same_sort(first: AttributeSort, second: AttributeSort) -> bool
    ensures { result ≡ uses.same_sort first second }
{
    match (first, second) {
        (AttributeSort::Explicit, AttributeSort::Explicit)
        | (AttributeSort::Derived, AttributeSort::Derived)
        | (AttributeSort::Inverse, AttributeSort::Inverse) => true,
        _ => false,
    }
}

/// Whether two are one attribute. Those of one entity differ in their places, which are asked first.
#[inline]
pub fn same_attribute(first: &AttributePlace, second: &AttributePlace) -> bool
    ensures { result ≡ uses.same_attribute first.now second.now }
{
    first.place == second.place
        && first.entity == second.entity
        && same_sort(first.sort, second.sort)
}
