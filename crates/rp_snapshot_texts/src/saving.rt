//! The text of rows, written to a writer.

ghost use Rattle.std.specs.Prelude.{◌++◌};
ghost use Rattle.rp_sight.specs.Stored.{row_of};
ghost use Rattle.rp_snapshot_rows.specs.Written.{group_data};
ghost use Rattle.rp_snapshot_texts.specs.Texts.{model_by, rows_text};
ghost use Rattle.rp_snapshot_texts.specs.Pieces.{piece, before_groups, between, foot, group_pieces, model_pieces};
ghost use Rattle.rp_snapshot_texts.specs.Saving.{Saves};

use crate::pieces::{group_piece, model_piece};
use crate::version::Version;
use rp_index::Indexed;
use rp_io::{Sink, write_all};
use rp_rows::rows::Listing;
use rp_sight::{RowRef, Table};
use std::alloc::{AllocError, Global};

/// Why a text isn't written whole.
#[derive(Clone, Copy, PartialEq, Eq)]
pub enum SaveFault {
    NoMemory,
    WriteFault,
}

fn write<W: Sink>(writer: &mut W, bytes: &[u8]) -> Result<(), SaveFault>
    ensures { Saves result (W.contents writer.old) (W.contents writer.new) (W.write_failures writer.old) (W.write_failures writer.new) bytes.now }
{
    match write_all(writer, bytes) {
        Ok(()) => Ok(()),
        Err(_) => Err(SaveFault::WriteFault),
    }
}

fn save_group<W: Sink>(
    alloc: Global,
    later: bool,
    row: &RowRef<'_, Listing>,
    writer: &mut W,
) -> Result<(), SaveFault>
    ensures { Saves result (W.contents writer.old) (W.contents writer.new) (W.write_failures writer.old) (W.write_failures writer.new) (piece later (group_data (row_of row.now))) }
{
    match group_piece(alloc, later, row) {
        Ok(bytes) => write(writer, &bytes),
        Err(AllocError) => Err(SaveFault::NoMemory),
    }
}

fn save_model<V: Version, W: Sink>(
    alloc: Global,
    version: &V,
    later: bool,
    row: &RowRef<'_, Indexed>,
    writer: &mut W,
) -> Result<(), SaveFault>
    ensures { Saves result (W.contents writer.old) (W.contents writer.new) (W.write_failures writer.old) (W.write_failures writer.new) (piece later (model_by (V.writes version.now) (row_of row.now))) }
{
    match model_piece(alloc, version, later, row) {
        Ok(bytes) => write(writer, &bytes),
        Err(AllocError) => Err(SaveFault::NoMemory),
    }
}

fn save_groups<W: Sink>(
    alloc: Global,
    groups: &Table<'_, Listing>,
    writer: &mut W,
) -> Result<(), SaveFault>
    ensures { Saves result (W.contents writer.old) (W.contents writer.new) (W.write_failures writer.old) (W.write_failures writer.new) (group_pieces groups.now.rows) }
{
    let mut later = false;
    for place in 0..groups.len() {
        save_group(alloc, later, &groups.row(place), writer)?;
        later = true;
    }
    Ok(())
}

fn save_models<V: Version, W: Sink>(
    alloc: Global,
    version: &V,
    models: &Table<'_, Indexed>,
    writer: &mut W,
) -> Result<(), SaveFault>
    ensures { Saves result (W.contents writer.old) (W.contents writer.new) (W.write_failures writer.old) (W.write_failures writer.new) (model_pieces (V.writes version.now) models.now.rows) }
{
    let mut later = false;
    for place in 0..models.len() {
        save_model(alloc, version, later, &models.row(place), writer)?;
        later = true;
    }
    Ok(())
}

/// The brace of the text and the list of groups, up to the bracket that closes it.
fn save_group_list<W: Sink>(
    alloc: Global,
    groups: &Table<'_, Listing>,
    writer: &mut W,
) -> Result<(), SaveFault>
    ensures { Saves result (W.contents writer.old) (W.contents writer.new) (W.write_failures writer.old) (W.write_failures writer.new) (before_groups ++ group_pieces groups.now.rows) }
{
    write(writer, b"{\"groups\":[")?;
    save_groups(alloc, groups, writer)
}

/// The bracket that closes the groups, the list of models, and what closes the text.
fn save_model_list<V: Version, W: Sink>(
    alloc: Global,
    version: &V,
    models: &Table<'_, Indexed>,
    writer: &mut W,
) -> Result<(), SaveFault>
    ensures { Saves result (W.contents writer.old) (W.contents writer.new) (W.write_failures writer.old) (W.write_failures writer.new) (between ++ (model_pieces (V.writes version.now) models.now.rows ++ foot)) }
{
    write(writer, b"],\"models\":[")?;
    save_models(alloc, version, models, writer)?;
    write(writer, b"]}")
}

/// Writes the text of rows, one row after another: all of it, or a front of it.
///
/// # Errors
///
/// A write failed, or there is no memory for the text of a row.
pub fn save<V: Version, W: Sink>(
    alloc: Global,
    version: &V,
    groups: &Table<'_, Listing>,
    models: &Table<'_, Indexed>,
    writer: &mut W,
) -> Result<(), SaveFault>
    ensures { Saves result (W.contents writer.old) (W.contents writer.new) (W.write_failures writer.old) (W.write_failures writer.new) (rows_text (V.number version.now) (V.writes version.now) groups.now.rows models.now.rows) }
{
    write(writer, version.first_line())?;
    save_group_list(alloc, groups, writer)?;
    save_model_list(alloc, version, models, writer)
}
