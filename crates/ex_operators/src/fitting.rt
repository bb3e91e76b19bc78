//! What fits what.

ghost use Rattle.std.specs.Prelude.{◌≡◌, IfOk};
ghost use Rattle.ex_operators.specs.Fitting as spec;

use crate::operand::Operand;
use crate::possibilities::{can_be_integer, fits_place};
use ex_kinds::{Kinds, Types, ValueKind};
use std::alloc::{AllocError, Global};

/// Whether a value of these kinds may fit such a place.
#[tactic(auto, unfolding(crate::specs::Fitting::fits))]
pub fn fits(
    alloc: Global,
    types: &Types,
    value: &[ValueKind],
    place: &[ValueKind],
) -> Result<bool, AllocError>
    ensures { IfOk result (λ b. b ≡ spec.fits types.now value.now place.now) }
{
    let value = Operand::of(types, value);
    let place = Operand::of(types, place);
    fits_place(alloc, &value, &place)
}

/// Whether each value may fit its place, and there are as many.
pub(crate) fn all_fit(
    alloc: Global,
    types: &Types,
    values: &[Kinds],
    places: &[Kinds],
) -> Result<bool, AllocError>
    ensures { IfOk result (λ b. b ≡ spec.all_fit types.now values.now places.now) }
{
    let (mut values, mut places) = (values, places);
    while let [value, more_values @ ..] = values {
        let [place, more_places @ ..] = places else {
            return Ok(false);
        };
        if !fits(alloc, types, value.as_slice(), place.as_slice())? {
            return Ok(false);
        }
        values = more_values;
        places = more_places;
    }
    Ok(matches!(places, []))
}

/// Whether it may be an INTEGER.
#[tactic(auto, unfolding(crate::specs::Fitting::is_integer))]
pub fn is_integer(types: &Types, kinds: &[ValueKind]) -> bool
    ensures { result ≡ spec.is_integer types.now kinds.now }
{
    can_be_integer(&Operand::of(types, kinds))
}
