//! Names that differ, as a rule without a look at two of them.

ghost use Rattle.std.specs.Prelude.{◌≡◌, map, IfOk, IsTrue};
ghost use Rattle.std.specs.List.{IsDistinct};
ghost use Rattle.std.specs.List.Sorted.{IsStrictlySortedBy};
ghost use Rattle.std.specs.Ordering.{eq_by_cmp, is_lt, nat_cmp};
ghost use Rattle.name_tables.specs.Hashes.{hash_of};
ghost use Rattle.name_tables.specs.Names.{by_lent_bytes};

use crate::hashes::hash_of;
use std::alloc::{AllocError, Global};
use std::cmp::Ordering;

/// Whether the hashes of all names differ, and so the names do. It is seldom said of names that differ that their hashes
/// don't.
pub fn hashes_differ(alloc: Global, names: &[&[u8]]) -> Result<bool, AllocError>
    ensures { IfOk result (λ told. IsTrue told → IsDistinct (eq_by_cmp by_lent_bytes) names.now) }
{
    let mut hashes = hashes_of(alloc, names)?;
    hashes.sort_unstable();
    Ok(are_ascending(&hashes))
}

/// The hash of each name.
fn hashes_of(alloc: Global, names: &[&[u8]]) -> Result<Vec<u64>, AllocError>
    ensures { IfOk result (λ hashes. hashes.items ≡ map (λ n. hash_of n.now) names.now) }
{
    let mut hashes = Vec::with_capacity(alloc, names.len())?;
    for name in names {
        hashes.push(hash_of(name))?;
    }
    Ok(hashes)
}

/// Whether each number is less than those after it.
fn are_ascending(hashes: &[u64]) -> bool
    ensures { IsTrue result → IsStrictlySortedBy nat_cmp hashes.now }
{
    hashes.is_sorted_by(|hash, next| is_less(*hash, *next))
}

fn is_less(hash: u64, next: u64) -> bool
    ensures { result ≡ is_lt (nat_cmp hash next) }
{
    hash.cmp(&next) == Ordering::Less
}
