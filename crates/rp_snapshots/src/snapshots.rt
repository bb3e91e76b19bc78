//! Snapshots of what is held: made in memory, written, and compared with bytes. One model's text is held at a time, beside
//! what is made in memory.

ghost use Rattle.std.specs.Prelude.{◌≡◌, ◌≢◌, IfOk};
ghost use Rattle.std.specs.Bool.{MatchBool};
ghost use Rattle.rp_snapshot_texts.specs.Saving.{Saves};
ghost use Rattle.rp_snapshots.specs.Snapshots.{first_version, snapshot_by};

use crate::first::FirstVersion;
use ex_loaded::LoadedSchema;
use rp_index::Indexed;
use rp_io::Sink;
use rp_rows::rows::Listing;
use rp_sight::Table;
use rp_snapshot_texts::{SaveFault, gathered, is_text_of};
use std::alloc::{AllocError, Global};

/// The snapshot of these groups and models.
///
/// # Errors
///
/// Want of memory.
pub fn snapshot<'s>(
    alloc: Global,
    schemas: &'s [LoadedSchema<'s>],
    groups: &Table<'_, Listing>,
    models: &Table<'_, Indexed>,
) -> Result<Vec<u8>, AllocError>
    ensures { IfOk result (λ bytes. bytes.items ≡ snapshot_by first_version schemas.now groups.now.rows models.now.rows) }
{
    gathered(alloc, &FirstVersion { schemas }, groups, models)
}

/// Writes the snapshot of these groups and models, a row at a time: all of it, or a front of it.
///
/// # Errors
///
/// A write failed, or there is no memory for the text of a row.
pub fn save<'s, W: Sink>(
    alloc: Global,
    schemas: &'s [LoadedSchema<'s>],
    groups: &Table<'_, Listing>,
    models: &Table<'_, Indexed>,
    writer: &mut W,
) -> Result<(), SaveFault>
    ensures { Saves result (W.contents writer.old) (W.contents writer.new) (W.write_failures writer.old) (W.write_failures writer.new) (snapshot_by first_version schemas.now groups.now.rows models.now.rows) }
{
    rp_snapshot_texts::save(alloc, &FirstVersion { schemas }, groups, models, writer)
}

/// Whether the bytes are the snapshot of these groups and models.
///
/// # Errors
///
/// There is no memory for the text of a row.
pub fn is_snapshot_of<'s>(
    alloc: Global,
    schemas: &'s [LoadedSchema<'s>],
    groups: &Table<'_, Listing>,
    models: &Table<'_, Indexed>,
    bytes: &[u8],
) -> Result<bool, AllocError>
    ensures { IfOk result (λ same. let text = snapshot_by first_version schemas.now groups.now.rows models.now.rows in MatchBool same (bytes.now ≡ text) (bytes.now ≢ text)) }
{
    is_text_of(alloc, &FirstVersion { schemas }, groups, models, bytes)
}
