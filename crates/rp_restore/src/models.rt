//! Models: each is read, its file bound, and it is tested and held.

ghost use Rattle.std.specs.Prelude.{◌≡◌, ◌<◌, ◌++◌, List, length, IfOk, OnOk};
ghost use Rattle.json.specs.Token.{Token as SpecToken};
ghost use Rattle.rp_rows.specs.Rows.{Model as SpecModel};
ghost use Rattle.rp_plain.specs.Valid.{IsValid};
ghost use Rattle.rp_restore_laws.specs.Laws.{MayTakeModel, MayTakeModels};
ghost use Rattle.rp_restore_laws.specs.Restoring.{with_model, with_models};
ghost use Rattle.rp_restored_rows.specs.Models.{model_of};
ghost use Rattle.rp_snapshot_rows.specs.Again.{saved_model};
ghost use Rattle.rp_json.specs.Tokens.{listed};
ghost use Rattle.rp_snapshots.specs.Snapshots.{first_version, file_in};
ghost use Rattle.rp_restore.specs.Again.{model_tokens, HoldsAgain, TakesModel};

use crate::fault::{RefusedRow, RowKind, RowReason, SnapshotLack};
use crate::offsets::reached;
use crate::places::no_place;
use crate::rows::{model_file, model_row};
use json::Reader;
use plain_data::Failure;
use rp_core::Holdings;
use rp_restore_laws::restoring_keeps_validity;
use rp_restored_rows::{PartnerOrder, RestoredModel, restored_model};
use rp_rows::limits::MAX_MODELS;
use rp_rows::rows::Key;
use rp_snapshot_rows::SavedModel;
use std::alloc::Global;

/// The model with what its file has, if it may be put.
fn tested(
    alloc: Global,
    holdings: &Holdings<'_>,
    order: &PartnerOrder,
    saved: SavedModel,
    file: &str,
) -> Result<RestoredModel, Failure<RowReason>>
    ensures may { IfOk result (λ taken. MayTakeModel holdings.now.content (model_of taken)) }
    ensures again { (m : SpecModel) → MayTakeModel holdings.now.content m → saved ≡ saved_model m → file.now ≡ file_in first_version holdings.now.content.schemas m.holds → TakesModel result m }
{
    let model = match restored_model(
        alloc,
        holdings.schemas(),
        holdings.partners(),
        order,
        saved,
        file,
    ) {
        Ok(model) => model,
        Err(Failure::NoMemory) => return Err(Failure::NoMemory),
        Err(Failure::Fault(lack)) => return Err(Failure::Fault(RowReason::Lacks(lack))),
    };
    match no_place(&holdings.models(), &model.key, MAX_MODELS) {
        None => Ok(model),
        Some(reason) => {
            // (A call, since a model that goes out of scope is opened here down to its texts.)
            drop(model);
            Err(Failure::Fault(reason))
        }
    }
}

/// What is told of a model that isn't taken.
fn refused(key: Key, at: usize, failure: Failure<RowReason>) -> Failure<SnapshotLack>
    ensures { failure ≡ Failure.NoMemory → result ≡ Failure.NoMemory }
{
    match failure {
        Failure::NoMemory => Failure::NoMemory,
        Failure::Fault(reason) => Failure::Fault(SnapshotLack::Row(RefusedRow {
            kind: RowKind::Model,
            key: Some(key),
            at,
            reason,
        })),
    }
}

/// A model is read, tested and held.
fn model<'s>(
    alloc: Global,
    holdings: &mut Holdings<'s>,
    order: &PartnerOrder,
    reader: &mut Reader<'_>,
) -> Result<(), Failure<SnapshotLack>>
    requires { IsValid holdings.old.content }
    ensures valid { IsValid holdings.new.content }
    ensures schemas { holdings.new.content.schemas ≡ holdings.old.content.schemas }
    ensures partners { holdings.new.content.partners ≡ holdings.old.content.partners }
    ensures shorter { OnOk result (length reader.new < length reader.old) }
    ensures again { (m : SpecModel) (rest : List SpecToken) → MayTakeModel holdings.old.content m → reader.old ≡ model_tokens (file_in first_version holdings.old.content.schemas) m ++ rest → HoldsAgain result (with_model m holdings.old.content) holdings.new.content reader.new rest }
{
    restoring_keeps_validity();
    let at = reached(reader);
    let file = model_file(reader, at)?;
    let row = model_row(alloc, reader, at)?;
    let key = row.key.copy(alloc)?;
    match tested(alloc, holdings, order, row, file) {
        Ok(model) => {
            let RestoredModel { key, holds, grants } = model;
            holdings.hold_model(alloc, key, holds, grants)?;
            Ok(())
        }
        Err(failure) => Err(refused(key, at, failure)),
    }
}

/// All models behind the bracket that opens their list are held, and the bracket that closes it is taken.
pub(crate) fn models<'s>(
    alloc: Global,
    holdings: &mut Holdings<'s>,
    order: &PartnerOrder,
    reader: &mut Reader<'_>,
) -> Result<(), Failure<SnapshotLack>>
    requires { IsValid holdings.old.content }
    ensures valid { IsValid holdings.new.content }
    ensures schemas { holdings.new.content.schemas ≡ holdings.old.content.schemas }
    ensures partners { holdings.new.content.partners ≡ holdings.old.content.partners }
    ensures again { (ms : List SpecModel) (rest : List SpecToken) → MayTakeModels ms holdings.old.content → reader.old ≡ listed (model_tokens (file_in first_version holdings.old.content.schemas)) ms ++ rest → HoldsAgain result (with_models ms holdings.old.content) holdings.new.content reader.new rest }
{
    'models: while !reader.take_end_array() {
        model(alloc, holdings, order, reader)?;
    }
    Ok(())
}
