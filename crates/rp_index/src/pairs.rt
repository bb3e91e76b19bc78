//! Pairs of numbers, found by their first.

ghost use Rattle.std.specs.Prelude.{◌≡◌, ◌<◌, ℕ, true, take, map, IfOk, OnOk, IfSome};
ghost use Rattle.std.specs.declared.ops.Bound.TheVariants.{Included, Excluded};
ghost use Rattle.std.specs.BTreeSet.{keys_between};
ghost use Rattle.plain_data.specs.Numbers.{is_among};
ghost use Rattle.rp_index.specs.Pairs.{pair_cmp, has_pair, HasAll, Grows, KeepsOthers};
ghost use Rattle.rp_index.specs.Index.{has, IsInOrder};

use std::alloc::{AllocError, Global};
use std::collections::BTreeSet;

/// Pairs of numbers. Most come with a model, and few one by one since: so the former lie in one block, which is soon made and small,
/// and none is taken out of it.
#[derive(Drop)]
pub struct Pairs {
    /// Those that came first, all at once, in the order of their firsts.
    settled: Vec<(u64, u64)>,
    /// Those that came one by one since.
    fresh: BTreeSet<(u64, u64)>,
    /// How many of the settled were to be taken out since.
    gone: usize,
}

/// The seconds of these pairs.
fn all_seconds(alloc: Global, pairs: &[(u64, u64)]) -> Result<Vec<u64>, AllocError>
    ensures { IfOk result (λ found. found.items ≡ map (λ (p : ℕ × ℕ). p.1) pairs.now) }
{
    pairs.iter().map(|pair| pair.1).collect(alloc)
}

/// The seconds of the pairs from one first on and before another, and no more than so many.
fn seconds_between(
    alloc: Global,
    set: &BTreeSet<(u64, u64)>,
    first: u64,
    end: u64,
    most: usize,
) -> Result<Vec<u64>, AllocError>
    requires { first < end }
    ensures { IfOk result (λ found. found.items ≡ take most (map (λ (p : ℕ × ℕ). p.1) (keys_between pair_cmp (Included (first, 0)) (Excluded (end, 0)) set.now))) }
{
    set.range((first, 0)..(end, 0))
        .map(|pair| pair.1)
        .take(most)
        .collect(alloc)
}

/// The seconds of the pairs of this first, if they are fewer than so many.
fn seconds_in(
    alloc: Global,
    set: &BTreeSet<(u64, u64)>,
    first: u64,
    most: usize,
) -> Result<Option<Vec<u64>>, AllocError>
    ensures { IfOk result (λ found. IfSome found (λ seconds. (u : ℕ) → has_pair set.now.keys (first, u) ≡ true → is_among seconds.items u ≡ true)) }
{
    let Some(end) = first.checked_add(1) else {
        return Ok(None);
    };
    let seconds = seconds_between(alloc, set, first, end, most)?;
    if seconds.len() < most {
        Ok(Some(seconds))
    } else {
        Ok(None)
    }
}

impl Pairs {
    /// These, which are soonest put in order where those of one first come in the order of their seconds.
    pub fn of(alloc: Global, mut pairs: Vec<(u64, u64)>) -> Result<Pairs, AllocError>
        ensures has { IfOk result (λ x. HasAll (has x) pairs.items) }
        ensures order { IfOk result IsInOrder }
    {
        pairs.sort_by_key(|pair| pair.0)?;
        Ok(Pairs {
            settled: pairs,
            fresh: BTreeSet::new(alloc),
            gone: 0,
        })
    }

    /// Puts these beside the others.
    pub fn insert_all(&mut self, pairs: &[(u64, u64)]) -> Result<(), AllocError>
        ensures grows { OnOk result (Grows (has self.old) (has self.new)) }
        ensures has { OnOk result (HasAll (has self.new) pairs.now) }
        ensures order { IsInOrder self.old → IsInOrder self.new }
    {
        for pair in pairs {
            self.fresh.insert(*pair)?;
        }
        Ok(())
    }

    /// Takes out the pair if it is fresh. It takes no memory.
    pub fn remove(&mut self, first: u64, second: u64)
        ensures keeps { KeepsOthers second (has self.old) (has self.new) }
        ensures order { IsInOrder self.old → IsInOrder self.new }
    {
        if !self.fresh.remove(&(first, second)) {
            self.gone = self.gone.saturating_add(1);
        }
    }

    /// Whether more than half of the settled pairs are gone, so that the others are better gathered anew.
    pub fn is_worn(&self) -> bool {
        self.gone > self.settled.len() / 2
    }

    /// The settled pairs of this first.
    fn settled_under(&self, first: u64) -> &[(u64, u64)]
        ensures { IsInOrder self.now → (u : ℕ) → has_pair self.now.settled.items (first, u) ≡ true → has_pair result.now (first, u) ≡ true }
    {
        let start = self.settled.partition_point(|pair| pair.0 < first);
        let rest = &self.settled[start..];
        let count = rest.partition_point(|pair| pair.0 <= first);
        &rest[..count]
    }

    /// The seconds of the pairs of this first, if fewer than so many are settled, and fewer than so many fresh.
    pub fn seconds_of(
        &self,
        alloc: Global,
        first: u64,
        most: usize,
    ) -> Result<Option<Vec<u64>>, AllocError>
        ensures { IfOk result (λ found. IfSome found (λ seconds. IsInOrder self.now → (u : ℕ) → has self.now (first, u) ≡ true → is_among seconds.items u ≡ true)) }
    {
        let settled = self.settled_under(first);
        if settled.len() >= most {
            return Ok(None);
        }
        let Some(mut fresh) = seconds_in(alloc, &self.fresh, first, most)? else {
            return Ok(None);
        };
        let mut seconds = all_seconds(alloc, settled)?;
        seconds.append(&mut fresh)?;
        Ok(Some(seconds))
    }
}

/// The seconds of the pairs of these firsts, if those of each are fewer than so many.
fn all_seconds_of(
    alloc: Global,
    pairs: &Pairs,
    firsts: &BTreeSet<u64>,
    most: usize,
) -> Result<Option<Vec<u64>>, AllocError>
    ensures { IfOk result (λ found. IfSome found (λ seconds. IsInOrder pairs.now → (n u : ℕ) → is_among firsts.now.keys n ≡ true → has pairs.now (n, u) ≡ true → is_among seconds.items u ≡ true)) }
{
    let mut found = Vec::new(alloc);
    for first in firsts {
        let Some(mut seconds) = pairs.seconds_of(alloc, *first, most)? else {
            return Ok(None);
        };
        found.append(&mut seconds)?;
    }
    Ok(Some(found))
}

/// The numbers in ascending order, each once.
pub fn ascending(alloc: Global, numbers: Vec<u64>) -> Result<BTreeSet<u64>, AllocError>
    ensures { IfOk result (λ set. (n : ℕ) → is_among set.keys n ≡ is_among numbers.items n) }
{
    numbers.into_iter().collect(alloc)
}

/// The seconds of the pairs of these firsts in ascending order, if those of each are fewer than so many.
pub fn ascending_seconds_of(
    alloc: Global,
    pairs: &Pairs,
    firsts: &BTreeSet<u64>,
    most: usize,
) -> Result<Option<BTreeSet<u64>>, AllocError>
    ensures { IfOk result (λ found. IfSome found (λ seconds. IsInOrder pairs.now → (n u : ℕ) → is_among firsts.now.keys n ≡ true → has pairs.now (n, u) ≡ true → is_among seconds.keys u ≡ true)) }
{
    match all_seconds_of(alloc, pairs, firsts, most)? {
        Some(seconds) => Ok(Some(ascending(alloc, seconds)?)),
        None => Ok(None),
    }
}
