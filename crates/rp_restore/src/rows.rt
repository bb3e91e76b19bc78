//! Rows from tokens. What isn't read is told with the byte that was reached, and inside of a row with that where it begins.

ghost use Rattle.std.specs.Prelude.{◌≡◌, ◌<◌, ◌++◌, ◌∷◌, ℕ, List, length, OnOk};
ghost use Rattle.std.specs.List.{AllByRecursion};
ghost use Rattle.json.specs.Token.{Token as SpecToken, begin_object, begin_array, key as key_token};
ghost use Rattle.rp_rows.specs.Rows.{Model as SpecModel, GroupRow as SpecGroup};
ghost use Rattle.rp_snapshot_rows.specs.Written.{model_data};
ghost use Rattle.rp_json.specs.Tokens.{tokens_of};
ghost use Rattle.rp_snapshot_rows.specs.Tokens.{behind_file};
ghost use Rattle.rp_snapshot_rows.specs.Again.{saved_model, saved_group, HasModelNumbers, IsToRead};
ghost use Rattle.rp_restore.specs.Again.{group_tokens, Passes, ReadsAgain};
ghost use Rattle.rp_restore.specs.Forms.{of_failure, of_row_failure};

use crate::fault::{RefusedRow, RowKind, RowReason, SnapshotLack};
use crate::offsets::reached;
use json::Reader;
use plain_data::Failure;
use rp_snapshot_rows::{Lack, SavedGroup, SavedModel};
use std::alloc::Global;

/// What the tokens around the lists of rows lack, where this byte was reached.
fn told(failure: Failure<Lack>, at: usize) -> Failure<SnapshotLack>
    ensures { result ≡ of_failure at failure }
{
    match failure {
        Failure::NoMemory => Failure::NoMemory,
        Failure::Fault(lack) => Failure::Fault(SnapshotLack::Form(lack, at)),
    }
}

/// What the tokens of a row lack that begins at a byte, where another was reached.
fn row_told(
    failure: Failure<Lack>,
    kind: RowKind,
    begins: usize,
    at: usize,
) -> Failure<SnapshotLack>
    ensures { result ≡ of_row_failure kind begins at failure }
{
    match failure {
        Failure::NoMemory => Failure::NoMemory,
        Failure::Fault(lack) => Failure::Fault(SnapshotLack::Row(RefusedRow {
            kind,
            key: None,
            at: begins,
            reason: RowReason::Form(lack, at),
        })),
    }
}

/// The brace of an object, and the bracket that opens its first list, which is of this name.
pub(crate) fn first_list(reader: &mut Reader<'_>, name: &str) -> Result<(), Failure<SnapshotLack>>
    ensures { (rest : List SpecToken) → reader.old ≡ begin_object ∷ key_token name.now ∷ begin_array ∷ rest → Passes result reader.new rest }
{
    match rp_snapshot_rows::first_list(reader, name) {
        Ok(()) => Ok(()),
        Err(failure) => Err(told(failure, reached(reader))),
    }
}

/// The bracket that opens the list of this name.
pub(crate) fn list(reader: &mut Reader<'_>, name: &str) -> Result<(), Failure<SnapshotLack>>
    ensures { (rest : List SpecToken) → reader.old ≡ key_token name.now ∷ begin_array ∷ rest → Passes result reader.new rest }
{
    match rp_snapshot_rows::list(reader, name) {
        Ok(()) => Ok(()),
        Err(failure) => Err(told(failure, reached(reader))),
    }
}

/// The row of a group, which begins at this byte.
pub(crate) fn group_row(
    alloc: Global,
    reader: &mut Reader<'_>,
    begins: usize,
) -> Result<SavedGroup, Failure<SnapshotLack>>
    ensures again { (g : SpecGroup) (rest : List SpecToken) → AllByRecursion IsToRead g.grants → reader.old ≡ group_tokens g ++ rest → ReadsAgain (λ x. x) result (saved_group g) reader.new rest }
    ensures shorter { OnOk result (length reader.new < length reader.old) }
{
    match rp_snapshot_rows::group_row(alloc, reader) {
        Ok(row) => Ok(row),
        Err(failure) => Err(row_told(failure, RowKind::Group, begins, reached(reader))),
    }
}

/// The file of a model, whose row begins here, at this byte.
pub(crate) fn model_file<'a>(
    reader: &mut Reader<'a>,
    begins: usize,
) -> Result<&'a str, Failure<SnapshotLack>>
    ensures again { (written : List ℕ) (m : SpecModel) (rest : List SpecToken) → reader.old ≡ tokens_of (model_data written m) ++ rest → ReadsAgain (λ s. s.now) result written reader.new (behind_file m ++ rest) }
    ensures shorter { OnOk result (length reader.new < length reader.old) }
{
    match rp_snapshot_rows::model_file(reader) {
        Ok(file) => Ok(file),
        Err(failure) => Err(row_told(failure, RowKind::Model, begins, reached(reader))),
    }
}

/// The row of a model behind its file, where the row begins at this byte.
pub(crate) fn model_row(
    alloc: Global,
    reader: &mut Reader<'_>,
    begins: usize,
) -> Result<SavedModel, Failure<SnapshotLack>>
    ensures again { (m : SpecModel) (rest : List SpecToken) → HasModelNumbers m → reader.old ≡ behind_file m ++ rest → ReadsAgain (λ x. x) result (saved_model m) reader.new rest }
    ensures shorter { OnOk result (length reader.new < length reader.old) }
{
    match rp_snapshot_rows::model_row(alloc, reader) {
        Ok(row) => Ok(row),
        Err(failure) => Err(row_told(failure, RowKind::Model, begins, reached(reader))),
    }
}
