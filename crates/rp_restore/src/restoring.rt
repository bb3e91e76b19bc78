//! Repositories from snapshots.

ghost use Rattle.std.specs.Prelude.{◌≡◌, ◌≢◌, ◌++◌, ℕ, List, IfOk, IsUtf8};
ghost use Rattle.std.specs.Bool.{MatchBool};
ghost use Rattle.json.specs.Lex.{tokens};
ghost use Rattle.rp_rows.specs.Rows.{Model as SpecModel, GroupRow as SpecGroup};
ghost use Rattle.rp_plain.specs.Plain.{Plain};
ghost use Rattle.rp_plain.specs.Opening.{new_fault, opened};
ghost use Rattle.rp_plain.specs.Valid.{IsValid};
ghost use Rattle.rp_restore_laws.specs.Laws.{MayTakeRows};
ghost use Rattle.rp_restore_laws.specs.Restoring.{with_rows};
ghost use Rattle.rp_snapshot_texts.specs.Again.{rows_tokens};
ghost use Rattle.rp_snapshots.specs.Snapshots.{first_version, file_in, snapshot_of};
ghost use Rattle.rp_restore.specs.Again.{ComesBack, Gives, Restores};
ghost use Rattle.rp_restore.specs.Faults.{Compares, OpensFirst};

use crate::fault::{RestoreFault, SnapshotLack};
use crate::groups::groups;
use crate::models::models;
use crate::offsets::behind_first_line;
use crate::rows::{first_list, list};
use ex_loaded::LoadedSchema;
use json::{Reader, Scratch};
use p21_ascii::canonical_is_ascii;
use p21_laws::accepted_schemas;
use plain_data::{Failure, Text};
use rp_core::Holdings;
use rp_laws::{model_text_again, step_keeps_validity};
use rp_restore_laws::{rows_give_repository, rows_may_be_put};
use rp_restored_rows::PartnerOrder;
use rp_snapshot_texts::{Version, behind, rows_again};
use rp_snapshots::{FirstVersion, is_snapshot_of, snapshot};
use std::alloc::{AllocError, Global};

/// The text behind the first line.
fn text_behind<'a>(bytes: &'a [u8], first_line: &[u8]) -> Result<&'a str, SnapshotLack>
    ensures { (rest : List ℕ) → bytes.now ≡ first_line.now ++ rest → IsUtf8 rest → Gives (λ text. text.now) result rest }
{
    let Some(rest) = behind(bytes, first_line) else {
        return Err(SnapshotLack::FirstLine);
    };
    match simdutf8::compat::from_utf8(rest) {
        Ok(text) => Ok(text),
        Err(error) => Err(SnapshotLack::Utf8(behind_first_line(error.valid_up_to()))),
    }
}

/// All rows are held. What stands behind them isn't looked at.
fn hold_rows<'s>(
    alloc: Global,
    holdings: &mut Holdings<'s>,
    order: &PartnerOrder,
    reader: &mut Reader<'_>,
) -> Result<(), Failure<SnapshotLack>>
    requires { IsValid holdings.old.content }
    ensures valid { IsValid holdings.new.content }
    ensures schemas { holdings.new.content.schemas ≡ holdings.old.content.schemas }
    ensures partners { holdings.new.content.partners ≡ holdings.old.content.partners }
    ensures again { (gs : List SpecGroup) (ms : List SpecModel) → MayTakeRows gs ms holdings.old.content → reader.old ≡ rows_tokens (file_in first_version holdings.old.content.schemas) gs ms → Restores result (with_rows gs ms holdings.old.content) holdings.new.content }
{
    first_list(reader, "groups")?;
    groups(alloc, holdings, order, reader)?;
    list(reader, "models")?;
    models(alloc, holdings, order, reader)
}

/// The rows of the text behind the first line are held.
fn hold_text<'s>(
    alloc: Global,
    holdings: &mut Holdings<'s>,
    text: &str,
) -> Result<(), Failure<SnapshotLack>>
    requires { IsValid holdings.old.content }
    ensures valid { IsValid holdings.new.content }
    ensures schemas { holdings.new.content.schemas ≡ holdings.old.content.schemas }
    ensures partners { holdings.new.content.partners ≡ holdings.old.content.partners }
    ensures again { (gs : List SpecGroup) (ms : List SpecModel) → MayTakeRows gs ms holdings.old.content → tokens text.now ≡ rows_tokens (file_in first_version holdings.old.content.schemas) gs ms → Restores result (with_rows gs ms holdings.old.content) holdings.new.content }
{
    let mut scratch = Scratch::new(alloc);
    let mut reader = Reader::new(text, &mut scratch)?;
    let order = PartnerOrder::of(alloc, holdings.partners())?;
    hold_rows(alloc, holdings, &order, &mut reader)
}

/// The rows that the bytes have are held in what was opened.
fn hold_bytes<'s>(
    alloc: Global,
    holdings: &mut Holdings<'s>,
    bytes: &[u8],
) -> Result<(), Failure<SnapshotLack>>
    requires { IsValid holdings.old.content }
    ensures valid { IsValid holdings.new.content }
    ensures schemas { holdings.new.content.schemas ≡ holdings.old.content.schemas }
    ensures partners { holdings.new.content.partners ≡ holdings.old.content.partners }
    ensures again { (r : Plain) → IsValid r → holdings.old.content ≡ opened r.schemas r.partners → bytes.now ≡ snapshot_of r → Restores result r holdings.new.content }
{
    rows_may_be_put();
    rows_give_repository();
    rows_again();
    canonical_is_ascii();
    let schemas = holdings.schemas();
    accepted_schemas(schemas);
    model_text_again(schemas);
    let first_line = FirstVersion { schemas }.first_line();
    match text_behind(bytes, first_line) {
        Ok(text) => hold_text(alloc, holdings, text),
        Err(lack) => Err(Failure::Fault(lack)),
    }
}

/// Whether the bytes are the snapshot of what is held.
fn are_its_snapshot(
    alloc: Global,
    holdings: &Holdings<'_>,
    bytes: &[u8],
) -> Result<bool, AllocError>
    ensures { IfOk result (λ same. MatchBool same (bytes.now ≡ snapshot_of holdings.now.content) (bytes.now ≢ snapshot_of holdings.now.content)) }
{
    let groups = holdings.groups();
    let models = holdings.models();
    is_snapshot_of(alloc, holdings.schemas(), &groups, &models, bytes)
}

/// The first byte of these that isn't as in the snapshot of what is held, which is another one.
fn differs_at(alloc: Global, holdings: &Holdings<'_>, bytes: &[u8]) -> Result<usize, AllocError> {
    let groups = holdings.groups();
    let models = holdings.models();
    let text = snapshot(alloc, holdings.schemas(), &groups, &models)?;
    let differs = text.iter().zip(bytes).position(|(one, other)| one != other);
    Ok(differs.unwrap_or(text.len().min(bytes.len())))
}

/// Refuses bytes that aren't the snapshot of what is held, with the first of them that isn't as in it.
fn compare(alloc: Global, holdings: &Holdings<'_>, bytes: &[u8]) -> Result<(), RestoreFault>
    ensures { Compares result bytes.now (snapshot_of holdings.now.content) }
{
    if are_its_snapshot(alloc, holdings, bytes)? {
        return Ok(());
    }
    let at = differs_at(alloc, holdings, bytes)?;
    Err(RestoreFault::BadSnapshot(SnapshotLack::Differs(at)))
}

/// The repository of these schemas and partners of which the bytes are the snapshot.
///
/// # Errors
///
/// What speaks against the schemas and the partners, as when a repository is opened. Then what the bytes lack, where they are
/// the snapshot of no valid repository of these; or `NoMemory`.
pub fn restore<'s>(
    alloc: Global,
    schemas: &'s [LoadedSchema<'s>],
    partners: Vec<Text>,
    bytes: &[u8],
) -> Result<Holdings<'s>, RestoreFault>
    ensures new { OpensFirst result (new_fault schemas.now partners.items) }
    ensures valid { IfOk result (λ holdings. IsValid holdings.content) }
    ensures same { IfOk result (λ holdings. bytes.now ≡ snapshot_of holdings.content) }
    ensures schemas { IfOk result (λ holdings. holdings.content.schemas ≡ schemas.now) }
    ensures partners { IfOk result (λ holdings. holdings.content.partners ≡ partners.items) }
    // From the snapshot of a valid repository of these schemas and partners it comes back, unless memory is wanting.
    ensures again { (r : Plain) → IsValid r → r.schemas ≡ schemas.now → r.partners ≡ partners.items → bytes.now ≡ snapshot_of r → ComesBack result r }
{
    step_keeps_validity();
    let mut holdings = Holdings::new(alloc, schemas, partners)?;
    hold_bytes(alloc, &mut holdings, bytes)?;
    compare(alloc, &holdings, bytes)?;
    Ok(holdings)
}
