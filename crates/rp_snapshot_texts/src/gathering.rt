//! The text of rows in memory.

ghost use Rattle.std.specs.Prelude.{◌≡◌, IfOk};
ghost use Rattle.rp_snapshot_texts.specs.Texts.{rows_text};

use crate::saving::save;
use crate::version::Version;
use rp_index::Indexed;
use rp_io::ToWriter;
use rp_rows::rows::Listing;
use rp_sight::Table;
use std::alloc::{AllocError, Global};

/// The text of rows.
///
/// # Errors
///
/// Want of memory.
pub fn gathered<V: Version>(
    alloc: Global,
    version: &V,
    groups: &Table<'_, Listing>,
    models: &Table<'_, Indexed>,
) -> Result<Vec<u8>, AllocError>
    ensures { IfOk result (λ bytes. bytes.items ≡ rows_text (V.number version.now) (V.writes version.now) groups.now.rows models.now.rows) }
{
    let mut writer = ToWriter::new(Vec::new(alloc));
    match save(alloc, version, groups, models, &mut writer) {
        Ok(()) => Ok(writer.into_inner()),
        Err(_) => Err(AllocError),
    }
}
