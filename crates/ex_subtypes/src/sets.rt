//! Sets of numbers.

ghost use Rattle.std.specs.Prelude.{◌≡◌, ◌||◌, ℕ, IfOk, OnOk};
ghost use Rattle.std.specs.List.Sorted.{IsStrictlyIncreasing};
ghost use Rattle.plain_data.specs.Numbers.{is_among};

use std::alloc::{AllocError, Global};
use std::collections::BTreeSet;

/// Puts these numbers into a set.
pub fn put_all(found: &mut BTreeSet<usize>, numbers: &[usize]) -> Result<(), AllocError>
    ensures { OnOk result ((n : ℕ) → is_among found.new.keys n ≡ (is_among found.old.keys n || is_among numbers.now n)) }
{
    for number in numbers {
        found.insert(*number)?;
    }
    Ok(())
}

/// The set of these numbers.
pub fn set_of(alloc: Global, numbers: &[usize]) -> Result<BTreeSet<usize>, AllocError>
    ensures { IfOk result (λ found. (n : ℕ) → is_among found.keys n ≡ is_among numbers.now n) }
{
    let mut found = BTreeSet::new(alloc);
    put_all(&mut found, numbers)?;
    Ok(found)
}

/// The numbers of a set, in ascending order.
pub fn ascending(alloc: Global, set: BTreeSet<usize>) -> Result<Vec<usize>, AllocError>
    ensures same { IfOk result (λ numbers. numbers.items ≡ set.keys) }
    ensures rising { IfOk result (λ numbers. IsStrictlyIncreasing numbers.items) }
{
    let numbers: Vec<usize> = set.into_iter().collect(alloc)?;
    Ok(numbers)
}
