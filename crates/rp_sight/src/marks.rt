//! Marks beside models: which of them count in groups that a partner is granted. So no model is compared with each group.

ghost use Rattle.std.specs.Prelude.{◌≡◌, ◌<◌, ◌&&◌, false, true, length, map, replicate, slice_index_or, slice_set, OnOk, IfOk};
ghost use Rattle.std.specs.List.{find};
ghost use Rattle.sorted_tables.specs.Table.{IsAscending};
ghost use Rattle.rp_rows.specs.Rows.{key_cmp, row_key, is_row, key_of};
ghost use Rattle.rp_rows.specs.Sight as sight;
ghost use Rattle.rp_sight.specs.Stored.{row_of};
ghost use Rattle.rp_sight.specs.Granted.{granted_of, TellsGranted, shows, counts_under, counts_in_any};
ghost use Rattle.rp_sight.specs.Kept.{marked};
ghost use Rattle.rp_sight.specs.Listed.{fits};

use crate::groups::Groups;
use crate::rows::{RowRef, Table};
use crate::sight::{counts_if_listed, is_granted};
use plain_data::{Rows, Text};
use rp_index::Indexed;
use rp_rows::rows::{Key, Listing};
use rp_store::Entry;
use std::alloc::{AllocError, Global};
use std::collections::BTreeSet;
use std::marker::Model;

/// Marks beside so many models. A mark takes memory only once it is set, so that none is taken for what isn't seen.
#[derive(Drop)]
pub struct Marks {
    count: usize,
    /// The places of those that are set.
    places: BTreeSet<usize>,
}

impl Model for Marks {
    ghost use Rattle.std.specs.Prelude.{Bool, List};
    ghost use Rattle.plain_data.specs.Numbers.{is_among};
    ghost use Rattle.rp_sight.specs.Kept.{marks_from};

    ghost Value = { List Bool };

    ghost view = { λ m. marks_from (is_among m.places.keys) 0 m.count };
}

impl Marks {
    ghost use Rattle.std.specs.Prelude.{◌≡◌, ◌<◌, false, true, length, replicate, slice_index_or, slice_set, OnOk};

    /// None is set.
    fn none(alloc: Global, count: usize) -> Marks
        ensures { result ≡ replicate count false }
    {
        Marks {
            count,
            places: BTreeSet::new(alloc),
        }
    }

    /// Sets the mark at a place, and tells the place behind it.
    fn set(&mut self, place: usize) -> Result<usize, AllocError>
        requires { place < length self.old }
        ensures { OnOk result (self.new ≡ slice_set self.old place true) }
    {
        self.places.insert(place)?;
        Ok(place.saturating_add(1))
    }

    /// Whether the mark at a place is set.
    pub fn has(&self, place: usize) -> bool
        requires { place < length self.now }
        ensures { result ≡ slice_index_or self.now place false }
    {
        self.places.contains(&place)
    }
}

/// Marks the model of the key, if it counts in the group, which lists it: it is looked for at a place first. The place behind it
/// is told, where the model of the next key is likely to stand.
fn mark(
    models: &Table<'_, Indexed>,
    group: &RowRef<'_, Listing>,
    key: &Key,
    near: usize,
    marks: &mut Marks,
) -> Result<usize, AllocError>
    requires { length marks.old ≡ length models.now.rows }
    ensures { OnOk result (marks.new ≡ marked (λ m. is_row key.now m && fits (row_of group.now) m) marks.old models.now.rows) }
{
    let Some(place) = models.place_near(key, near) else {
        return Ok(near);
    };
    if counts_if_listed(&models.row(place), group) {
        marks.set(place)
    } else {
        Ok(place.saturating_add(1))
    }
}

/// Marks the models that count in the group. Its members are in the order of the models.
fn mark_members(
    models: &Table<'_, Indexed>,
    group: &RowRef<'_, Listing>,
    marks: &mut Marks,
) -> Result<(), AllocError>
    requires { length marks.old ≡ length models.now.rows }
    ensures { OnOk result (marks.new ≡ marked (λ m. sight.counts m (row_of group.now)) marks.old models.now.rows) }
{
    let mut near = 0;
    for key in group.holds.members.as_slice() {
        near = mark(models, group, key, near, marks)?;
    }
    Ok(())
}

/// Marks the models that count in the group of this owner and name, if the partner is granted the group.
fn mark_at(
    models: &Table<'_, Indexed>,
    groups: &Table<'_, Listing>,
    caller: &Text,
    owner: &Text,
    name: &Text,
    marks: &mut Marks,
) -> Result<(), AllocError>
    requires { length marks.old ≡ length models.now.rows }
    ensures { OnOk result (marks.new ≡ marked (λ m. shows caller.now m (find (is_row (key_of owner.now name.now)) groups.now.rows)) marks.old models.now.rows) }
{
    let Some(group) = groups.find_for(owner, name) else {
        return Ok(());
    };
    if is_granted(caller, group.grants) {
        mark_members(models, &group, marks)
    } else {
        Ok(())
    }
}

fn mark_names(
    models: &Table<'_, Indexed>,
    groups: &Table<'_, Listing>,
    caller: &Text,
    names: &Entry<Rows<Text>>,
    marks: &mut Marks,
) -> Result<(), AllocError>
    requires { length marks.old ≡ length models.now.rows }
    ensures { OnOk result (marks.new ≡ marked (counts_under caller.now groups.now.rows names.now) marks.old models.now.rows) }
{
    for name in names.value.as_slice() {
        mark_at(models, groups, caller, &names.key.get().name, name, marks)?;
    }
    Ok(())
}

fn mark_granted(
    models: &Table<'_, Indexed>,
    groups: &Table<'_, Listing>,
    caller: &Text,
    granted: &[Entry<Rows<Text>>],
    marks: &mut Marks,
) -> Result<(), AllocError>
    requires { length marks.old ≡ length models.now.rows }
    ensures { OnOk result (marks.new ≡ marked (counts_in_any caller.now groups.now.rows granted.now) marks.old models.now.rows) }
{
    for names in granted {
        mark_names(models, groups, caller, names, marks)?;
    }
    Ok(())
}

/// Of each model whether it counts in a group that the partner is granted.
pub fn counted_marks(
    alloc: Global,
    models: &Table<'_, Indexed>,
    groups: &Groups,
    caller: &Text,
) -> Result<Marks, AllocError>
    ensures marks { IfOk result (λ marks. marks ≡ map (counts_in_any caller.now groups.now.rows (granted_of caller.now groups.now.names)) models.now.rows) }
    ensures whole { TellsGranted caller.now (granted_of caller.now groups.now.names) groups.now.rows }
    ensures order { IsAscending key_cmp row_key groups.now.rows }
{
    // (The table tells that its rows stand in order, and the names that they are whole, however this ends.)
    let table = groups.table();
    let _count = table.len();
    let (front, back) = groups.granted_to(caller);
    let mut marks = Marks::none(alloc, models.len());
    mark_granted(models, &table, caller, front, &mut marks)?;
    mark_granted(models, &table, caller, back, &mut marks)?;
    Ok(marks)
}
