//! What stands beside names first, and which names stand more than once.

ghost use Rattle.std.specs.Prelude.{◌≡◌, ℕ, List, Some, option_map, if◌then◌else◌, IfOk, OnOk};
ghost use Rattle.std.specs.Option.{option_copied};
ghost use Rattle.std.specs.Str.{bytes_eq};
ghost use Rattle.name_tables.specs.Names.{named, rows_of, first_of, first_in, first_and, pair_of};

use std::alloc::{AllocError, Global};
use std::collections::BTreeMap;
use std::marker::Model;

/// What stands beside a name first, and whether the name stands again.
pub struct First<T> {
    pub value: T,
    pub is_repeated: bool,
}

impl<T: Copy> Clone for First<T> {
    fn clone(&self) -> Result<First<T>, AllocError> {
        Ok(*self)
    }
}

impl<T: Copy> Copy for First<T> {}

/// Rows that all are put, found by their names: which stands first, and whether another does. The
/// names' bytes are lent, not copied.
#[derive(Drop)]
pub struct FirstRows<'a, T> {
    rows: Vec<(&'a [u8], T)>,
    // In order, and not by a hash of a fixed seed: who writes the names could choose colliding ones.
    by_name: BTreeMap<&'a [u8], First<T>>,
}

impl<'a, T> Model for FirstRows<'a, T> {
    ghost use Rattle.std.specs.Prelude.{List, ℕ};
    ghost use Rattle.name_tables.specs.Names.{rows_of, HasFirsts};

    ghost Value = { List (List ℕ × T) };

    ghost view = { λ table. rows_of table.rows.items };

    ghost invariant = { λ table. HasFirsts table.by_name (rows_of table.rows.items) };
}

impl<'a, T: Copy + Drop> FirstRows<'a, T> {
    pub fn new(alloc: Global, rows: Vec<(&'a [u8], T)>) -> Result<FirstRows<'a, T>, AllocError>
        ensures { IfOk result (λ table. table ≡ rows_of rows.entry.items) }
    {
        let by_name = firsts(alloc, &rows)?;
        Ok(FirstRows { rows, by_name })
    }

    /// What stands beside this name first, and whether the name stands again.
    pub fn get(&self, name: &[u8]) -> Option<First<T>>
        ensures { option_map pair_of result ≡ first_of (named name.now self.now) }
    {
        first_at(&self.by_name, name)
    }
}

fn first_at<T: Copy + Drop>(by_name: &BTreeMap<&[u8], First<T>>, name: &[u8]) -> Option<First<T>>
    ensures { option_map pair_of result ≡ first_in name.now by_name.now }
{
    by_name.get(name).copied()
}

/// What stands beside each name of these rows first.
fn firsts<'a, T: Copy + Drop>(
    alloc: Global,
    rows: &[(&'a [u8], T)],
) -> Result<BTreeMap<&'a [u8], First<T>>, AllocError>
    ensures { IfOk result (λ table. (name : List ℕ) → first_in name table ≡ first_of (named name (rows_of rows.now))) }
{
    let mut by_name = BTreeMap::new(alloc);
    for (name, value) in rows {
        put(&mut by_name, name, *value)?;
    }
    Ok(by_name)
}

/// Puts a value behind those of its name.
fn put<'a, T: Copy + Drop>(
    by_name: &mut BTreeMap<&'a [u8], First<T>>,
    name: &'a [u8],
    value: T,
) -> Result<(), AllocError>
    ensures { (other : List ℕ) → OnOk result (first_in other by_name.new ≡ (if bytes_eq name.now other then Some (first_and (first_in other by_name.old) value) else first_in other by_name.old)) }
{
    let first = match by_name.get(name) {
        Some(first) => First {
            value: first.value,
            is_repeated: true,
        },
        None => First {
            value,
            is_repeated: false,
        },
    };
    by_name.insert(name, first)?;
    Ok(())
}
