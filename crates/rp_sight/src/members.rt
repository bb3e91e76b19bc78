//! The models that count in groups.

ghost use Rattle.std.specs.Prelude.{◌≡◌, ◌++◌, map, filter, OnOk, IfOk};
ghost use Rattle.std.specs.List.{find, flat_map};
ghost use Rattle.rp_rows.specs.Rows.{is_row};
ghost use Rattle.rp_rows.specs.Listings.{IsListed};
ghost use Rattle.rp_rows.specs.Sight as sight;
ghost use Rattle.rp_sight.specs.Stored.{row_of};
ghost use Rattle.rp_sight.specs.Listed.{counted_at, is_counting, member_in, member_of};

use crate::rows::{RowRef, Table};
use crate::sight::counts;
use rp_index::Indexed;
use rp_rows::rows::{Key, Listing};
use std::alloc::{AllocError, Global};

/// Adds the model of a key, if it counts in the group. Other models aren't walked over.
fn push_counted<'a>(
    models: &Table<'a, Indexed>,
    group: &RowRef<'_, Listing>,
    key: &Key,
    out: &mut Vec<RowRef<'a, Indexed>>,
) -> Result<(), AllocError>
    ensures { OnOk result (map row_of out.new.items ≡ map row_of out.old.items ++ counted_at models.now.rows (row_of group.now) key.now) }
{
    let Some(model) = models.find(key) else {
        return Ok(());
    };
    if counts(&model, group) {
        out.push(model)?;
    }
    Ok(())
}

/// The models of some keys that count in the group.
fn counted_among<'a>(
    alloc: Global,
    models: &Table<'a, Indexed>,
    group: &RowRef<'_, Listing>,
    keys: &[Key],
) -> Result<Vec<RowRef<'a, Indexed>>, AllocError>
    ensures { IfOk result (λ out. map row_of out.items ≡ flat_map (counted_at models.now.rows (row_of group.now)) keys.now) }
{
    let mut out = Vec::new(alloc);
    for key in keys {
        push_counted(models, group, key, &mut out)?;
    }
    Ok(out)
}

/// The models that count in the group, in the order of owner and name.
pub fn counted_models<'a>(
    alloc: Global,
    models: &Table<'a, Indexed>,
    group: &RowRef<'_, Listing>,
) -> Result<Vec<RowRef<'a, Indexed>>, AllocError>
    requires { IsListed group.now.holds.now }
    ensures { IfOk result (λ out. map row_of out.items ≡ filter (λ m. sight.counts m (row_of group.now)) models.now.rows) }
{
    // (Its length is asked for since that call promises that the rows stand in order.)
    let _count = models.len();
    let keys = group.holds.members.as_slice();
    counted_among(alloc, models, group, keys)
}

/// A model that a group lists, and whether it counts.
#[derive(Drop)]
pub struct Member<'a> {
    pub model: &'a Key,
    pub counts: bool,
}

/// Whether the model of the key counts in the group. Other models aren't walked over.
fn counts_at(models: &Table<'_, Indexed>, group: &RowRef<'_, Listing>, key: &Key) -> bool
    ensures { result ≡ is_counting (row_of group.now) (find (is_row key.now) models.now.rows) }
{
    match models.find(key) {
        Some(model) => counts(&model, group),
        None => false,
    }
}

/// The models that the group lists, in its order, and which of them count.
pub fn members_of<'a>(
    alloc: Global,
    models: &Table<'_, Indexed>,
    group: &RowRef<'a, Listing>,
) -> Result<Vec<Member<'a>>, AllocError>
    ensures { IfOk result (λ out. map member_of out.items ≡ map (member_in models.now.rows (row_of group.now)) group.now.holds.now.members) }
{
    let keys = group.holds.members.as_slice();
    let mut out = Vec::with_capacity(alloc, keys.len())?;
    for key in keys {
        let counts = counts_at(models, group, key);
        out.push(Member { model: key, counts })?;
    }
    Ok(out)
}
