//! Rows of things by a number.

ghost use Rattle.std.specs.Prelude.{◌≡◌, [], length, replicate, IfOk, OnOk};
ghost use Rattle.rp_domain.specs.Rows as spec;

use plain_data::Items;
use std::alloc::{AllocError, Global};

/// Rows with nothing in them, which have room for so many.
pub(crate) fn empty_rows<T: Drop>(
    alloc: Global,
    room: &[usize],
) -> Result<Vec<Items<T>>, AllocError>
    ensures { IfOk result (λ rows. rows.items ≡ replicate (length room.now) []) }
{
    let mut rows = Vec::with_capacity(alloc, room.len())?;
    for row in room {
        rows.push(with_room(alloc, *row)?)?;
    }
    Ok(rows)
}

/// An empty list with room for so many.
pub(crate) fn with_room<T>(alloc: Global, room: usize) -> Result<Items<T>, AllocError>
    ensures { IfOk result (λ items. items ≡ []) }
{
    Ok(Items::from_vec(Vec::with_capacity(alloc, room)?))
}

/// Puts something behind the others of a number, if that has a row.
pub(crate) fn put<T: Drop>(
    rows: &mut Vec<Items<T>>,
    number: usize,
    item: T,
) -> Result<(), AllocError>
    ensures { OnOk result (rows.new.items ≡ spec.put rows.old.items number item) }
{
    if number < rows.len() {
        rows[number].push(item)?;
    }
    Ok(())
}
