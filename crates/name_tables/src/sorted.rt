//! Names that are all put, and found by halving.

ghost use Rattle.std.specs.Prelude.{◌≡◌, ◌<◌, ◌^◌, length, IfOk};
ghost use Rattle.std.specs.Cmp.Lexicographic.{slice_cmp};
ghost use Rattle.std.specs.Map.{lookup, keys_of};
ghost use Rattle.std.specs.List.Sorted.{IsStrictlySortedBy};
ghost use Rattle.std.specs.Ordering.{nat_cmp};
ghost use Rattle.name_tables.specs.Names.{place_of, by_lent_bytes, is_name};

use crate::NameTable;
use std::alloc::{AllocError, Global};
use std::cmp::Ordering;
use std::collections::BTreeMap;
use std::marker::Model;

/// The names of a table, which takes no more of them.
// A `BTreeMap` of lent keys keeps its lifetime, and this may be taken at a shorter one.
#[derive(Drop)]
pub struct SortedNames<'a> {
    names: Vec<&'a [u8]>,
    first_places: Vec<(&'a [u8], usize)>,
}

impl<'a> Model for SortedNames<'a> {
    ghost use Rattle.std.specs.Prelude.{List, ℕ};
    ghost use Rattle.name_tables.specs.Names.{bytes_of, HasSortedPlaces};

    ghost Value = { List (List ℕ) };

    ghost view = { λ table. bytes_of table.names.items };

    ghost invariant = { λ table. HasSortedPlaces table.first_places.items (bytes_of table.names.items) };
}

impl<'a> SortedNames<'a> {
    pub fn new(alloc: Global, table: NameTable<'a>) -> Result<SortedNames<'a>, AllocError>
        ensures { IfOk result (λ sorted. sorted ≡ table.entry) }
    {
        let NameTable {
            names,
            first_places,
        } = table;
        let first_places = entries(alloc, first_places)?;
        Ok(SortedNames {
            names,
            first_places,
        })
    }

    /// How many names there are, the same name as often as it was put.
    pub fn len(&self) -> usize
        ensures len { result ≡ length self.now }
        ensures small { result < 2 ^ 63 }
    {
        self.names.len()
    }

    /// Where the name stands first.
    pub fn place(&self, name: &[u8]) -> Option<usize>
        ensures { result ≡ place_of name.now self.now }
    {
        find(&self.first_places, name)
    }
}

/// What the map holds, in the order of its keys.
fn entries<'a>(
    alloc: Global,
    map: BTreeMap<&'a [u8], usize>,
) -> Result<Vec<(&'a [u8], usize)>, AllocError>
    ensures entries { IfOk result (λ all. all.items ≡ map.entry.entries) }
    ensures ordered { IfOk result (λ all. IsStrictlySortedBy by_lent_bytes (keys_of all.items)) }
{
    map.into_iter().collect(alloc)
}

/// What stands beside the name, among names in order.
fn find(sorted: &[(&[u8], usize)], name: &[u8]) -> Option<usize>
    requires { IsStrictlySortedBy by_lent_bytes (keys_of sorted.now) }
    ensures { result ≡ lookup (is_name name.now) sorted.now }
{
    match sorted.binary_search_by(|entry| order(entry.0, name)) {
        Ok(at) => Some(sorted[at].1),
        Err(_) => None,
    }
}

fn order(name: &[u8], other: &[u8]) -> Ordering
    ensures { result ≡ slice_cmp nat_cmp name.now other.now }
{
    name.cmp(other)
}
