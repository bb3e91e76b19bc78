//! Rows in one block, each of which is found from its last item on.

ghost use Rattle.std.specs.Prelude.{◌≡◌, replicate, IfOk};

use std::alloc::{AllocError, Global};
use std::marker::Model;

/// Rows that are added to in any order. Their items stand in one block, in the order in which they came.
pub(crate) struct Chains<T> {
    /// Each with how many items stand up to the one before it in its row: none before the first.
    links: Vec<(T, usize)>,
    /// How many items stand up to the last one of each row: none where there is none in it.
    ends: Vec<usize>,
}

impl<T: Drop> Drop for Chains<T> {
    fn drop(self) {
        let Chains { links, ends } = self;
        drop(links);
        drop(ends);
    }
}

impl<T> Model for Chains<T> {
    ghost use Rattle.std.specs.Prelude.{ℕ, List, length};
    ghost use Rattle.std.specs.Coded.{coded×, coded_list, coded_ℕ};
    ghost use Rattle.rp_domain.specs.Chains.{AreLinked, AreEnds};

    ghost Value = { List (T × ℕ) × List ℕ };

    ghost coded = { coded× (coded_list (coded× T.code coded_ℕ)) (coded_list coded_ℕ) };

    ghost view = { λ c. (c.links.items, c.ends.items) };

    ghost invariant = { λ c. record {
      linked : AreLinked c.links.items;
      ends : AreEnds (length c.links.items) c.ends.items;
    } };
}

/// The ends of so many rows with nothing in them.
fn no_ends(alloc: Global, count: usize) -> Result<Vec<usize>, AllocError>
    ensures { IfOk result (λ ends. ends.items ≡ replicate count 0) }
{
    let mut ends = Vec::with_capacity(alloc, count)?;
    for at in 0..count {
        ends.push(0)?;
    }
    Ok(ends)
}

impl<T> Chains<T> {
    ghost use Rattle.std.specs.Prelude.{◌≡◌, ◌<◌, [], ◌∷◌, ◌++◌, replicate, slice_get, MatchOption};
    ghost use Rattle.rp_domain.specs.Chains.{row_to};

    /// How many items stand up to the last one of a row, if there is this row.
    pub(crate) fn end(&self, row: usize) -> Option<usize>
        ensures { result ≡ slice_get self.now.1 row }
    {
        match self.ends.get(row) {
            Some(end) => Some(*end),
            None => None,
        }
    }

    /// The last of so many items, and how many stand up to the one before it in its row.
    pub(crate) fn last(&self, end: usize) -> Option<(&T, usize)>
        ensures { MatchOption result (row_to self.now.0 end ≡ []) (λ x. (row_to self.now.0 end ≡ row_to self.now.0 x.1 ++ x.0.now ∷ []) × (x.1 < end)) }
    {
        if end == 0 {
            return None;
        }
        if end > self.links.len() {
            return None;
        }
        let (item, before) = &self.links[end - 1];
        Some((item, *before))
    }
}

impl<T: Drop> Chains<T> {
    ghost use Rattle.std.specs.Prelude.{◌≡◌, [], replicate, IfOk, OnOk};
    ghost use Rattle.rp_domain.specs.Chains.{rows};
    ghost use Rattle.rp_domain.specs.Rows.{put};

    /// So many rows with nothing in them.
    pub(crate) fn new(alloc: Global, count: usize) -> Result<Chains<T>, AllocError>
        ensures { IfOk result (λ c. rows c.0 c.1 ≡ replicate count []) }
    {
        Ok(Chains {
            ends: no_ends(alloc, count)?,
            links: Vec::new(alloc),
        })
    }

    /// Puts an item behind the others of a row, if there is this row.
    pub(crate) fn put(&mut self, row: usize, item: T) -> Result<(), AllocError>
        ensures { OnOk result (rows self.new.0 self.new.1 ≡ put (rows self.old.0 self.old.1) row item) }
    {
        if row < self.ends.len() {
            self.links.push((item, self.ends[row]))?;
            self.ends[row] = self.links.len();
        }
        Ok(())
    }

    /// Gives back the room that no item takes.
    pub(crate) fn shrink(&mut self)
        ensures { self.new ≡ self.old }
    {
        self.links.shrink_to_fit();
    }
}
