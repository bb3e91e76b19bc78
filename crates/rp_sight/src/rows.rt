//! Rows: what is held under a key, beside the grants on it.

ghost use Rattle.std.specs.Prelude.{◌≡◌, ◌<◌, length, filter, map, None, MatchOption, get_or, option_map};
ghost use Rattle.std.specs.List.{find};
ghost use Rattle.sorted_tables.specs.Table.{IsAscending};
ghost use Rattle.sorted_tables.specs.Places.{IsThere};
ghost use Rattle.rp_rows.specs.Rows.{key_cmp, row_key, is_row, key_of};
ghost use Rattle.rp_rows.specs.Sight.{owns};
ghost use Rattle.rp_rows.specs.Alterations.{grants_of};
ghost use Rattle.rp_store.specs.Entries.{entry_key};
ghost use Rattle.rp_sight.specs.Stored.{row_of, joined};
ghost use Rattle.rp_sight.specs.Parts.{is_in, IsPart};

use plain_data::{Rows, Text};
use rp_rows::rows::{Grant, Key};
use rp_store::Keyed;
use std::alloc::AllocError;
use std::marker::Model;

/// A row of both halves.
pub struct RowRef<'a, A> {
    pub key: &'a Key,
    pub holds: &'a A,
    pub grants: &'a [Grant],
}

impl<'a, A> Clone for RowRef<'a, A> {
    fn clone(&self) -> Result<Self, AllocError> {
        Ok(*self)
    }
}

impl<'a, A> Copy for RowRef<'a, A> {}

/// The rows of one owner: from a place on, and before another one.
#[derive(Clone, Copy)]
pub struct Part {
    pub first: usize,
    pub end: usize,
}

impl Part {
    /// Whether the row at a place is among them.
    pub fn has(&self, place: usize) -> bool
        ensures { result ≡ is_in self.now place }
    {
        self.first <= place && place < self.end
    }
}

/// What is held, and beside it the grants on it: two halves with the same keys.
#[derive(Drop)]
pub struct Table<'a, A> {
    held: &'a Keyed<A>,
    rights: &'a Keyed<Rows<Grant>>,
}

impl<'a, A> Model for Table<'a, A> {
    ghost use Rattle.rp_sight.specs.Stored.{Stored, IsTable, joined};

    ghost Value = { Stored A };

    ghost view = { λ t. record { rows = joined t.held.now.entries t.rights.now.entries } };

    ghost invariant = { λ t. IsTable t.held.now.entries t.rights.now.entries };
}

impl<'a, A> Table<'a, A> {
    /// Two halves with the same keys.
    pub fn of(held: &'a Keyed<A>, rights: &'a Keyed<Rows<Grant>>) -> Table<'a, A>
        requires { map entry_key held.now.entries ≡ map entry_key rights.now.entries }
        ensures { result.rows ≡ joined held.now.entries rights.now.entries }
    {
        // (Each half tells that its keys stand in order.)
        let _held = held.len();
        let _rights = rights.len();
        Table { held, rights }
    }

    pub fn len(&self) -> usize
        ensures len { result ≡ length self.now.rows }
        ensures ascending { IsAscending key_cmp row_key self.now.rows }
    {
        self.held.len()
    }

    pub fn row(&self, place: usize) -> RowRef<'a, A>
        requires { place < length self.now.rows }
        ensures { get_or self.now.rows place (row_of result) ≡ row_of result }
    {
        let entry = self.held.entry(place);
        // (The key is taken from the smaller entry: what is held isn't read from memory before it is asked for.)
        let rights = self.rights.entry(place);
        RowRef {
            key: rights.key.get(),
            holds: &entry.value,
            grants: rights.value.as_slice(),
        }
    }

    /// Where the row under the key of this owner and name stands. The rights are searched, whose entries are smaller.
    fn place_for(&self, owner: &Text, name: &Text) -> Option<usize>
        ensures there { MatchOption result (find (is_row (key_of owner.now name.now)) self.now.rows ≡ None) (IsThere key_cmp row_key (key_of owner.now name.now) self.now.rows) }
        ensures ascending { IsAscending key_cmp row_key self.now.rows }
    {
        match self.rights.search_for(owner, name) {
            Ok(place) => Some(place),
            Err(_) => None,
        }
    }

    /// The row under the key of this owner and name.
    pub fn find_for(&self, owner: &Text, name: &Text) -> Option<RowRef<'a, A>>
        ensures found { option_map row_of result ≡ find (is_row (key_of owner.now name.now)) self.now.rows }
        ensures ascending { IsAscending key_cmp row_key self.now.rows }
    {
        let place = self.place_for(owner, name)?;
        Some(self.row(place))
    }

    pub fn find(&self, key: &Key) -> Option<RowRef<'a, A>>
        ensures found { option_map row_of result ≡ find (is_row key.now) self.now.rows }
        ensures ascending { IsAscending key_cmp row_key self.now.rows }
    {
        self.find_for(&key.owner, &key.name)
    }

    /// Where the row under the key stands.
    pub fn place_of(&self, key: &Key) -> Option<usize>
        ensures { MatchOption result (find (is_row key.now) self.now.rows ≡ None) (IsThere key_cmp row_key key.now self.now.rows) }
    {
        self.place_for(&key.owner, &key.name)
    }

    /// The same, where the row is likely to stand at a place: it is looked for there first.
    pub(crate) fn place_near(&self, key: &Key, place: usize) -> Option<usize>
        ensures { MatchOption result (find (is_row key.now) self.now.rows ≡ None) (IsThere key_cmp row_key key.now self.now.rows) }
    {
        let count = self.len();
        if place >= count {
            return self.place_of(key);
        }
        if self.row(place).key.is(key) {
            Some(place)
        } else {
            self.place_of(key)
        }
    }

    /// The grants on what stands under the key.
    pub fn grants_at(&self, key: &Key) -> &'a [Grant]
        ensures { result.now ≡ grants_of (find (is_row key.now) self.now.rows) }
    {
        match self.find(key) {
            Some(row) => row.grants,
            None => &[],
        }
    }

    /// Which rows are the owner's. So a walk over all rows reads no owner's name.
    pub fn part_of(&self, owner: &Text) -> Part
        ensures { IsPart owner.now self.now.rows result }
    {
        Part {
            first: self.rights.first_place(owner),
            end: self.rights.last_place(owner),
        }
    }

    /// How many rows are the owner's.
    pub fn count_of(&self, owner: &Text) -> usize
        ensures { result ≡ length (filter (owns owner.now) self.now.rows) }
    {
        self.held.count_of(owner)
    }
}
