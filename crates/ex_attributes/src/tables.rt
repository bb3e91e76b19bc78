//! Tables of where rows stand in a list: at each key the places of the rows that have it. A key is a list of numbers.

ghost use Rattle.std.specs.Prelude.{◌≡◌, ℕ, List, [], ◌∷◌, ◌++◌, if◌then◌else◌, slice_get, option_copied, IfOk, OnOk};
ghost use Rattle.std.specs.Str.{bytes_eq};
ghost use Rattle.ex_attributes.specs.Steps.{read};
ghost use Rattle.ex_attributes.specs.Tables as spec;

use plain_data::Rows;
use std::alloc::{AllocError, Global};
use std::collections::BTreeMap;

/// The places of the rows of a key, in order.
pub(crate) fn places_at<'t>(
    table: &'t BTreeMap<Vec<usize>, Vec<usize>>,
    key: &[usize],
) -> &'t [usize]
    ensures { result.now ≡ spec.places_at key.now table.now }
{
    match table.get(key) {
        Some(places) => places,
        None => &[],
    }
}

/// The places of the rows of a name, in order.
pub(crate) fn places_of<'t>(table: &'t BTreeMap<Vec<u8>, Vec<usize>>, name: &[u8]) -> &'t [usize]
    ensures { result.now ≡ spec.places_at name.now table.now }
{
    match table.get(name) {
        Some(places) => places,
        None => &[],
    }
}

/// Puts a place behind those of its name.
pub(crate) fn put_name(
    alloc: Global,
    table: &mut BTreeMap<Vec<u8>, Vec<usize>>,
    name: &[u8],
    place: usize,
) -> Result<(), AllocError>
    ensures { (other : List ℕ) → OnOk result (spec.places_at other table.new ≡ (if bytes_eq name.now other then spec.places_at other table.old ++ place ∷ [] else spec.places_at other table.old)) }
{
    let key = Vec::from_slice(alloc, name)?;
    let places = table
        .entry(key)?
        .or_try_insert_with(|| Vec::with_capacity(alloc, 1))?;
    places.push(place)?;
    Ok(())
}

/// Puts a place behind those of its key.
fn put(
    alloc: Global,
    table: &mut BTreeMap<Vec<usize>, Vec<usize>>,
    key: Vec<usize>,
    place: usize,
) -> Result<(), AllocError>
    ensures { (other : List ℕ) → OnOk result (spec.places_at other table.new ≡ (if bytes_eq key.items other then spec.places_at other table.old ++ place ∷ [] else spec.places_at other table.old)) }
{
    // Most keys stand once.
    let places = table
        .entry(key)?
        .or_try_insert_with(|| Vec::with_capacity(alloc, 1))?;
    places.push(place)?;
    Ok(())
}

/// The places of each of these keys among them.
pub(crate) fn places_by_key(
    alloc: Global,
    keys: Vec<Rows<usize>>,
) -> Result<BTreeMap<Vec<usize>, Vec<usize>>, AllocError>
    ensures { IfOk result (λ table. (key : List ℕ) → spec.places_at key table ≡ spec.places_from key 0 keys.items) }
{
    let mut table = BTreeMap::new(alloc);
    for (place, key) in keys.into_iter().enumerate() {
        put(alloc, &mut table, key.into_vec(), place)?;
    }
    Ok(table)
}

fn row_at<T>(rows: &[T], place: usize) -> Option<&T>
    ensures { option_copied result ≡ slice_get rows.now place }
{
    rows.get(place)
}

/// Puts the rows in these places behind the others.
pub(crate) fn push_rows_at<'r, T>(
    found: &mut Vec<&'r T>,
    rows: &'r [T],
    places: &[usize],
) -> Result<(), AllocError>
    ensures { OnOk result (read found.new.items ≡ read found.old.items ++ spec.rows_at rows.now places.now) }
{
    for place in places {
        match row_at(rows, *place) {
            Some(row) => found.push(row)?,
            None => {}
        }
    }
    Ok(())
}

/// The rows in these places.
pub(crate) fn rows_at<'r, T>(
    alloc: Global,
    rows: &'r [T],
    places: &[usize],
) -> Result<Vec<&'r T>, AllocError>
    ensures { IfOk result (λ found. read found.items ≡ spec.rows_at rows.now places.now) }
{
    let mut found = Vec::new(alloc);
    push_rows_at(&mut found, rows, places)?;
    Ok(found)
}
