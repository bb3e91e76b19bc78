//! What was made, unless memory was refused.

ghost use Rattle.std.specs.Prelude.{◌≡◌, [], ◌∷◌, ◌++◌, Ok, IfOk, OnOk};

use plain_data::Items;
use std::alloc::AllocError;

/// Puts what was made behind the others.
pub fn push_made<T: Drop>(
    others: &mut Items<T>,
    made: Result<T, AllocError>,
) -> Result<(), AllocError>
    ensures { OnOk result ((x : T) × (made ≡ Ok x) × (others.new ≡ others.old ++ x ∷ [])) }
{
    others.push(made?)
}

/// Two that were made, if both were.
pub fn both<A: Drop, B: Drop>(
    first: Result<A, AllocError>,
    second: Result<B, AllocError>,
) -> Result<(A, B), AllocError>
    ensures first { IfOk result (λ found. first ≡ Ok found.0) }
    ensures second { IfOk result (λ found. second ≡ Ok found.1) }
{
    let first = first?;
    Ok((first, second?))
}
