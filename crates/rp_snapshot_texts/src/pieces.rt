//! The text of one row, behind its comma.

ghost use Rattle.std.specs.Prelude.{◌≡◌, IfOk};
ghost use Rattle.serde_json.specs.Written.{comma_if};
ghost use Rattle.rp_sight.specs.Stored.{row_of};
ghost use Rattle.rp_snapshot_rows.specs.Written.{group_data};
ghost use Rattle.rp_snapshot_texts.specs.Texts.{model_by};
ghost use Rattle.rp_snapshot_texts.specs.Pieces.{piece};

use crate::version::Version;
use json::Writer;
use rp_index::Indexed;
use rp_rows::rows::Listing;
use rp_sight::RowRef;
use rp_snapshot_rows::{write_group, write_model};
use std::alloc::{AllocError, Global};

/// A comma, where a row stands before, with room for so many bytes behind it.
fn begun(alloc: Global, later: bool, room: usize) -> Result<Vec<u8>, AllocError>
    ensures { IfOk result (λ bytes. bytes.items ≡ comma_if later) }
{
    let mut bytes = Vec::with_capacity(alloc, room)?;
    if later {
        bytes.push(b',')?;
    }
    Ok(bytes)
}

pub(crate) fn group_piece(
    alloc: Global,
    later: bool,
    row: &RowRef<'_, Listing>,
) -> Result<Vec<u8>, AllocError>
    ensures { IfOk result (λ bytes. bytes.items ≡ piece later (group_data (row_of row.now))) }
{
    let mut out = Writer::new(begun(alloc, later, 256)?);
    write_group(&mut out, row.key, row.holds, row.grants)?;
    Ok(out.into_inner())
}

/// Room for a file as JSON, with the rest of its row: where it grew, both blocks would be held beside the file. Each line has a byte
/// more there, and 8 at least.
fn room_for(file: &[u8]) -> usize {
    let size = file.len();
    size.saturating_add(size / 8).saturating_add(256)
}

pub(crate) fn model_piece<V: Version>(
    alloc: Global,
    version: &V,
    later: bool,
    row: &RowRef<'_, Indexed>,
) -> Result<Vec<u8>, AllocError>
    ensures { IfOk result (λ bytes. bytes.items ≡ piece later (model_by (V.writes version.now) (row_of row.now))) }
{
    let file = version.file(alloc, row.holds.get())?;
    let room = room_for(file.as_bytes());
    let mut out = Writer::new(begun(alloc, later, room)?);
    write_model(
        &mut out,
        file.as_str(),
        row.key,
        row.holds.get(),
        row.grants,
    )?;
    Ok(out.into_inner())
}
