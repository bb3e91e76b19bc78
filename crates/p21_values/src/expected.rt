//! The values of attributes, by what their types come to.

ghost use Rattle.std.specs.Prelude.{◌≡◌, IfOk};
ghost use Rattle.p21_values.specs.Taking as spec;

use crate::alone::Taken;
use crate::taking::placed;
use ex_selects::{DefinedTypes, Expected};
use p21_tree::Value as SpelledValue;
use std::alloc::Global;

/// The value of an attribute of the type that is expected, where the type takes what is spelled.
#[inline(always)]
pub fn bound_by(
    alloc: Global,
    types: &DefinedTypes<'_>,
    expected: &Expected<'_>,
    value: &SpelledValue<'_>,
) -> Taken
    ensures { IfOk result (λ taken. taken ≡ spec.place (spec.meaning types.now value.now) expected.now) }
{
    placed(alloc, types, value, expected.target())
}
