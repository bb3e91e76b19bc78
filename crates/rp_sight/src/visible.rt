//! What a partner sees.

ghost use Rattle.std.specs.Prelude.{◌≡◌, ◌++◌, ◌∷◌, [], map, filter, if◌then◌else◌, OnOk, IfOk};
ghost use Rattle.rp_rows.specs.Sight as sight;
ghost use Rattle.rp_sight.specs.Stored.{row_of};
ghost use Rattle.rp_sight.specs.Seen.{level_by, seen_model, seen_group};
ghost use Rattle.rp_sight.specs.Seen.{seen_of};

use crate::groups::Groups;
use crate::levels::level_where;
use crate::marks::counted_marks;
use crate::rows::{RowRef, Table};
use crate::sight::{at_least, group_right_where};
use plain_data::Text;
use rp_index::Indexed;
use rp_rows::rows::{Listing, Right};
use std::alloc::{AllocError, Global};

/// A row that a partner sees, and what he may do with it.
#[derive(Drop)]
pub struct Seen<'a, A> {
    pub row: RowRef<'a, A>,
    pub right: Right,
}

/// Adds the model, if the partner sees it, where it is his or isn't and counts so in groups that he is granted.
fn push_model<'a>(
    caller: &Text,
    model: &RowRef<'a, Indexed>,
    owned: bool,
    counted: bool,
    seen: &mut Vec<Seen<'a, Indexed>>,
) -> Result<(), AllocError>
    requires { owned ≡ sight.owns caller.now (row_of model.now) }
    ensures { OnOk result (map seen_of seen.new.items ≡ map seen_of seen.old.items ++ (if sight.at_least Right.Reads (level_by caller.now (row_of model.now) counted) then (row_of model.now, level_by caller.now (row_of model.now) counted) ∷ [] else [])) }
{
    let right = level_where(caller, model, owned, counted);
    if at_least(Right::Reads, right) {
        seen.push(Seen { row: *model, right })?;
    }
    Ok(())
}

/// The models that the partner sees, in the order of owner and name. The time grows with the models that there are, and
/// with the members of the groups that he is granted.
pub fn visible_models<'a>(
    alloc: Global,
    models: &Table<'a, Indexed>,
    groups: &Groups,
    caller: &Text,
) -> Result<Vec<Seen<'a, Indexed>>, AllocError>
    ensures { IfOk result (λ seen. map seen_of seen.items ≡ map (seen_model groups.now.rows caller.now) (filter (sight.sees groups.now.rows caller.now) models.now.rows)) }
{
    let marks = counted_marks(alloc, models, groups, caller)?;
    let own = models.part_of(caller);
    let mut seen = Vec::new(alloc);
    for place in 0..models.len() {
        let (owned, counted) = (own.has(place), marks.has(place));
        push_model(caller, &models.row(place), owned, counted, &mut seen)?;
    }
    Ok(seen)
}

/// Adds the group, if the partner sees it, where it is his or isn't.
fn push_group<'a>(
    caller: &Text,
    group: &RowRef<'a, Listing>,
    owned: bool,
    seen: &mut Vec<Seen<'a, Listing>>,
) -> Result<(), AllocError>
    requires { owned ≡ sight.owns caller.now (row_of group.now) }
    ensures { OnOk result (map seen_of seen.new.items ≡ map seen_of seen.old.items ++ (if sight.sees_group caller.now (row_of group.now) then seen_group caller.now (row_of group.now) ∷ [] else [])) }
{
    let right = group_right_where(caller, group, owned);
    if at_least(Right::Reads, right) {
        seen.push(Seen { row: *group, right })?;
    }
    Ok(())
}

/// The groups that the partner sees, in the order of owner and name.
pub fn visible_groups<'a>(
    alloc: Global,
    groups: &'a Groups,
    caller: &Text,
) -> Result<Vec<Seen<'a, Listing>>, AllocError>
    ensures { IfOk result (λ seen. map seen_of seen.items ≡ map (seen_group caller.now) (filter (sight.sees_group caller.now) groups.now.rows)) }
{
    let table = groups.table();
    let own = table.part_of(caller);
    let mut seen = Vec::new(alloc);
    for place in 0..table.len() {
        push_group(caller, &table.row(place), own.has(place), &mut seen)?;
    }
    Ok(seen)
}
