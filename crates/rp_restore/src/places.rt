//! Whether there is a place for a row.

ghost use Rattle.std.specs.Prelude.{◌≡◌};
ghost use Rattle.rp_restore.specs.Places as spec;

use crate::fault::RowReason;
use rp_rows::rows::Key;
use rp_sight::Table;

/// Why there is no place for a row of this key, where an owner may have so many.
pub(crate) fn no_place<A>(rows: &Table<'_, A>, key: &Key, most: usize) -> Option<RowReason>
    ensures { result ≡ spec.no_place most key.now rows.now.rows }
{
    if rows.find(key).is_some() {
        return Some(RowReason::Twice);
    }
    if rows.count_of(&key.owner) < most {
        None
    } else {
        Some(RowReason::TooMany)
    }
}
