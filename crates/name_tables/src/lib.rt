//! Names in their order, where each stands first, and what stands beside it; and names in the order of their bytes.
#![tactic(auto)]

ghost use Rattle.std.specs.Prelude.{◌≡◌, ◌<◌, ◌^◌, [], ◌∷◌, ◌++◌, length, OnOk, OnErr};
ghost use Rattle.name_tables.specs.Names.{place_of};

use std::alloc::{AllocError, Global};
use std::collections::BTreeMap;
use std::marker::Model;

mod differing;
mod firsts;
mod hashes;
mod order;
mod rows;
mod sorted;

pub use differing::hashes_differ;
pub use firsts::{First, FirstRows};
pub use order::NameOrder;
pub use rows::NameRows;
pub use sorted::SortedNames;

/// Names in their order, and where each stands first. Their bytes are lent, not copied.
#[derive(Drop)]
pub struct NameTable<'a> {
    names: Vec<&'a [u8]>,
    // In order, and not by a hash of a fixed seed: who writes the names could choose colliding ones.
    first_places: BTreeMap<&'a [u8], usize>,
}

impl<'a> Model for NameTable<'a> {
    ghost use Rattle.std.specs.Prelude.{List, ℕ};
    ghost use Rattle.name_tables.specs.Names.{bytes_of, HasFirstPlaces};

    ghost Value = { List (List ℕ) };

    ghost view = { λ table. bytes_of table.names.items };

    ghost invariant = { λ table. HasFirstPlaces table.first_places (bytes_of table.names.items) };
}

impl<'a> NameTable<'a> {
    pub fn new(alloc: Global) -> NameTable<'a>
        ensures { result ≡ [] }
    {
        NameTable {
            names: Vec::new(alloc),
            first_places: BTreeMap::new(alloc),
        }
    }

    /// How many names were put, the same name as often as it was put.
    pub fn len(&self) -> usize
        ensures len { result ≡ length self.now }
        ensures small { result < 2 ^ 63 }
    {
        self.names.len()
    }

    /// Where the name stands first.
    pub fn place(&self, name: &[u8]) -> Option<usize>
        ensures { result ≡ place_of name.now self.now }
    {
        self.first_places.get(name).copied()
    }

    /// Puts a name behind the others.
    pub fn push(&mut self, name: &'a [u8]) -> Result<(), AllocError>
        ensures ok { OnOk result (self.new ≡ self.old ++ name.now ∷ []) }
        ensures err { OnErr result (self.new ≡ self.old) }
    {
        // With room for it first, the last push cannot fail.
        self.names.reserve(1)?;
        let place = self.names.len();
        self.first_places.entry(name)?.or_insert(place);
        self.names.push(name)?;
        Ok(())
    }
}
