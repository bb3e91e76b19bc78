//! Groups: each is read, tested and held.

ghost use Rattle.std.specs.Prelude.{◌≡◌, ◌<◌, ◌++◌, Ok, List, length, IfOk, OnOk};
ghost use Rattle.json.specs.Token.{Token as SpecToken};
ghost use Rattle.rp_rows.specs.Rows.{Model as SpecModel, GroupRow as SpecGroup};
ghost use Rattle.rp_plain.specs.Valid.{IsValid};
ghost use Rattle.rp_restore_laws.specs.Laws.{MayTakeGroup, MayTakeRows};
ghost use Rattle.rp_restore_laws.specs.Restoring.{with_group, with_rows};
ghost use Rattle.rp_restored_rows.specs.Groups.{group_of};
ghost use Rattle.rp_snapshot_rows.specs.Again.{saved_group};
ghost use Rattle.rp_json.specs.Tokens.{listed};
ghost use Rattle.rp_restore.specs.Again.{group_tokens, HoldsAgain, GroupsHeld};

use crate::fault::{RefusedRow, RowKind, RowReason, SnapshotLack};
use crate::offsets::reached;
use crate::places::no_place;
use crate::rows::group_row;
use json::Reader;
use plain_data::Failure;
use rp_core::Holdings;
use rp_restore_laws::restoring_keeps_validity;
use rp_restored_rows::{PartnerOrder, restored_group};
use rp_rows::limits::MAX_GROUPS;
use rp_snapshot_rows::SavedGroup;
use std::alloc::Global;

/// The group, if it may be put.
fn tested(
    holdings: &Holdings<'_>,
    order: &PartnerOrder,
    group: SavedGroup,
) -> Result<SavedGroup, RowReason>
    ensures may { IfOk result (λ taken. MayTakeGroup holdings.now.content (group_of taken)) }
    ensures again { (g : SpecGroup) → MayTakeGroup holdings.now.content g → group ≡ saved_group g → result ≡ Ok group }
{
    let group = match restored_group(holdings.schemas(), holdings.partners(), order, group) {
        Ok(group) => group,
        Err(lack) => return Err(RowReason::Lacks(lack)),
    };
    match no_place(&holdings.groups(), &group.key, MAX_GROUPS) {
        None => Ok(group),
        Some(reason) => Err(reason),
    }
}

/// A group is read, tested and held.
fn group<'s>(
    alloc: Global,
    holdings: &mut Holdings<'s>,
    order: &PartnerOrder,
    reader: &mut Reader<'_>,
) -> Result<(), Failure<SnapshotLack>>
    requires { IsValid holdings.old.content }
    ensures valid { IsValid holdings.new.content }
    ensures schemas { holdings.new.content.schemas ≡ holdings.old.content.schemas }
    ensures partners { holdings.new.content.partners ≡ holdings.old.content.partners }
    ensures shorter { OnOk result (length reader.new < length reader.old) }
    ensures again { (g : SpecGroup) (rest : List SpecToken) → MayTakeGroup holdings.old.content g → reader.old ≡ group_tokens g ++ rest → HoldsAgain result (with_group g holdings.old.content) holdings.new.content reader.new rest }
{
    restoring_keeps_validity();
    let at = reached(reader);
    let row = group_row(alloc, reader, at)?;
    let key = row.key.copy(alloc)?;
    match tested(holdings, order, row) {
        Ok(row) => {
            let SavedGroup {
                key,
                listing,
                grants,
            } = row;
            holdings.hold_group(alloc, key, listing, grants)?;
            Ok(())
        }
        Err(reason) => Err(Failure::Fault(SnapshotLack::Row(RefusedRow {
            kind: RowKind::Group,
            key: Some(key),
            at,
            reason,
        }))),
    }
}

/// All groups behind the bracket that opens their list are held, and the bracket that closes it is taken.
pub(crate) fn groups<'s>(
    alloc: Global,
    holdings: &mut Holdings<'s>,
    order: &PartnerOrder,
    reader: &mut Reader<'_>,
) -> Result<(), Failure<SnapshotLack>>
    requires { IsValid holdings.old.content }
    ensures valid { IsValid holdings.new.content }
    ensures schemas { holdings.new.content.schemas ≡ holdings.old.content.schemas }
    ensures partners { holdings.new.content.partners ≡ holdings.old.content.partners }
    ensures again { (gs : List SpecGroup) (ms : List SpecModel) (rest : List SpecToken) → MayTakeRows gs ms holdings.old.content → reader.old ≡ listed group_tokens gs ++ rest → GroupsHeld result ms (with_rows gs ms holdings.old.content) holdings.new.content reader.new rest }
{
    'groups: while !reader.take_end_array() {
        group(alloc, holdings, order, reader)?;
    }
    Ok(())
}
