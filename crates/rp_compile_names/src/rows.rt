//! Rows of things by a number.

ghost use Rattle.std.specs.Prelude.{◌≡◌, [], replicate, IfOk, OnOk};
ghost use Rattle.std.specs.List.{flat_map};
ghost use Rattle.rp_compile_names.specs.Rows as spec;

use plain_data::Items;
use std::alloc::{AllocError, Global};

/// So many rows with nothing in them.
pub(crate) fn empty_rows<T: Drop>(alloc: Global, count: usize) -> Result<Vec<Items<T>>, AllocError>
    ensures { IfOk result (λ rows. rows.items ≡ replicate count []) }
{
    let mut rows = Vec::new(alloc);
    for _row in 0..count {
        rows.push(Items::new(alloc))?;
    }
    Ok(rows)
}

/// Puts something behind the others of a number, if that has a row.
pub(crate) fn put<T: Drop>(
    rows: &mut Vec<Items<T>>,
    number: usize,
    item: T,
) -> Result<(), AllocError>
    ensures { OnOk result (rows.new.items ≡ spec.put rows.old.items number item) }
{
    if number < rows.len() {
        rows[number].push(item)?;
    }
    Ok(())
}

/// All rows, one after the other.
pub(crate) fn concatenated<T: Copy + Drop>(
    alloc: Global,
    rows: &[Items<T>],
) -> Result<Items<T>, AllocError>
    ensures { IfOk result (λ found. found ≡ flat_map (λ row. row) rows.now) }
{
    let mut found = Vec::new(alloc);
    for row in rows {
        found.extend_from_slice(row.as_slice())?;
    }
    Ok(Items::from_vec(found))
}
