//! What stands under keys, in the order of owner and name.

ghost use Rattle.std.specs.Prelude.{◌≡◌, ◌<◌, ◌≤◌, [], ◌∷◌, ◌++◌, Some, None, length, take, drop, filter, not, is_some, get_or, OnOk, OnErr, IfOk, MatchResult, option_copied, option_map};
ghost use Rattle.std.specs.List.{find};
ghost use Rattle.std.specs.Ordering.{is_lt, is_gt};
ghost use Rattle.std.specs.Str.{bytes_eq};
ghost use Rattle.sorted_tables.specs.Table.{with_row, IsAscending};
ghost use Rattle.sorted_tables.specs.Places.{IsThere, IsAbsent};
ghost use Rattle.rp_rows.specs.Rows.{text_cmp, key_cmp, key_of};
ghost use Rattle.rp_store.specs.Entries.{entry_key, is_entry, with_value, revalued, standing, with_name, without_name};

use plain_data::{Rows, Text};
use rp_rows::rows::Key;
use shared::Shared;
use sorted_tables::{Row, Sought};
use std::alloc::{AllocError, Global};
use std::cmp::Ordering;
use std::collections::VecDeque;
use std::marker::Model;
use std::mem::replace;

/// What stands under a key, which stands in a block of its own: entries that make room for another move in memory.
#[derive(Drop)]
pub struct Entry<B> {
    pub key: Shared<Key>,
    pub value: B,
}

/// Entries in the order of their keys, each key once. They stand in a ring, so that one which comes or goes moves the entries
/// before it or those behind it, whichever are fewer.
#[derive(Drop)]
pub struct Keyed<B> {
    pub(crate) entries: VecDeque<Entry<B>>,
}

impl<B> Model for Keyed<B> {
    ghost use Rattle.std.specs.Prelude.{◌-◌};
    ghost use Rattle.std.specs.VecDeque.{deque_len, deque_capacity};
    ghost use Rattle.sorted_tables.specs.Table.{IsAscending};
    ghost use Rattle.rp_rows.specs.Rows.{key_cmp};
    ghost use Rattle.rp_store.specs.Entries.{Entries, entry_key};

    ghost Value = { Entries B };

    ghost view = { λ k. record {
      entries = k.entries.items;
      room = deque_capacity k.entries - deque_len k.entries;
    } };

    ghost invariant = { λ k. IsAscending key_cmp entry_key k.entries.items };
}

impl<B> Row for Entry<B> {
    ghost use Rattle.rp_rows.specs.Rows.{key_cmp};
    ghost use Rattle.rp_rows.proofs.Keys.{key_total};
    ghost use Rattle.rp_store.specs.Entries.{entry_key};

    type Key = Key;

    ghost key = { entry_key };

    ghost cmp = { key_cmp };

    fn order(&self, other: &Entry<B>) -> Ordering {
        self.key.get().order(other.key.get())
    }

    ghost total = { key_total };
}

/// The key of this owner and name.
#[derive(Clone, Copy)]
struct Parts<'a> {
    owner: &'a Text,
    name: &'a Text,
}

impl<'a, B> Sought<Entry<B>> for Parts<'a> {
    ghost use Rattle.rp_rows.specs.Rows.{key_of};

    ghost sought = { λ p. key_of p.owner.now p.name.now };

    fn order_of(&self, entry: &Entry<B>) -> Ordering {
        entry.key.get().order_to(self.owner, self.name)
    }
}

impl<B> Sought<Entry<B>> for Key {
    ghost sought = { λ k. k };

    fn order_of(&self, entry: &Entry<B>) -> Ordering {
        entry.key.get().order(self)
    }
}

fn is_of_earlier(owner: &Text, key: &Key) -> bool
    ensures { result ≡ is_lt (text_cmp key.now.owner owner.now) }
{
    key.owner.order(owner).is_lt()
}

fn is_not_of_later(owner: &Text, key: &Key) -> bool
    ensures { result ≡ not (is_gt (text_cmp key.now.owner owner.now)) }
{
    key.owner.order(owner).is_le()
}

impl<B> Keyed<B> {
    pub fn new(alloc: Global) -> Keyed<B>
        ensures { result.entries ≡ [] }
    {
        Keyed {
            entries: VecDeque::new(alloc),
        }
    }

    /// How many there are, whose keys ascend.
    pub fn len(&self) -> usize
        ensures len { result ≡ length self.now.entries }
        ensures order { IsAscending key_cmp entry_key self.now.entries }
    {
        self.entries.len()
    }

    pub fn entry(&self, place: usize) -> &Entry<B>
        requires { place < length self.now.entries }
        ensures { result.now ≡ get_or self.now.entries place result.now }
    {
        &self.entries[place]
    }

    /// Where the key of this owner and name stands, or where it is to stand.
    pub fn search_for(&self, owner: &Text, name: &Text) -> Result<usize, usize>
        ensures { MatchResult result (IsThere key_cmp entry_key (key_of owner.now name.now) self.now.entries) (IsAbsent key_cmp entry_key (key_of owner.now name.now) self.now.entries) }
    {
        sorted_rings::search(&self.entries, &Parts { owner, name })
    }

    /// Where the key stands, or where it is to stand.
    pub(crate) fn search(&self, key: &Key) -> Result<usize, usize>
        ensures { MatchResult result (IsThere key_cmp entry_key key.now self.now.entries) (IsAbsent key_cmp entry_key key.now self.now.entries) }
    {
        sorted_rings::search(&self.entries, key)
    }

    /// What stands under the key of this owner and name.
    pub fn find_for(&self, owner: &Text, name: &Text) -> Option<&Entry<B>>
        ensures { option_copied result ≡ find (is_entry (key_of owner.now name.now)) self.now.entries }
    {
        sorted_rings::find(&self.entries, &Parts { owner, name })
    }

    /// What stands under the key.
    pub fn find(&self, key: &Key) -> Option<&Entry<B>>
        ensures { option_copied result ≡ find (is_entry key.now) self.now.entries }
    {
        sorted_rings::find(&self.entries, key)
    }

    /// How many keys are of owners before this one.
    pub fn first_place(&self, owner: &Text) -> usize
        ensures { result ≡ length (filter (λ x. is_lt (text_cmp x.key.owner owner.now)) self.now.entries) }
    {
        self.entries
            .partition_point(|entry| is_of_earlier(owner, entry.key.get()))
    }

    /// How many keys are of owners before this one, or his own.
    pub fn last_place(&self, owner: &Text) -> usize
        ensures { result ≡ length (filter (λ x. not (is_gt (text_cmp x.key.owner owner.now))) self.now.entries) }
    {
        self.entries
            .partition_point(|entry| is_not_of_later(owner, entry.key.get()))
    }

    /// How many keys are the owner's. Those of others aren't walked over.
    pub fn count_of(&self, owner: &Text) -> usize
        ensures { result ≡ length (filter (λ x. bytes_eq x.key.owner owner.now) self.now.entries) }
    {
        self.last_place(owner) - self.first_place(owner)
    }

    /// What stands under the keys of the owner, in two parts, of which the second is mostly empty. Those of others aren't walked
    /// over.
    pub fn of_owner(&self, owner: &Text) -> (&[Entry<B>], &[Entry<B>])
        ensures { result.0.now ++ result.1.now ≡ filter (λ x. bytes_eq x.key.owner owner.now) self.now.entries }
    {
        let first = self.first_place(owner);
        let last = self.last_place(owner);
        sorted_rings::part(&self.entries, first, last)
    }
}

impl<B: Drop> Keyed<B> {
    /// Makes room for one more entry.
    pub fn reserve(&mut self) -> Result<(), AllocError>
        ensures entries { self.new.entries ≡ self.old.entries }
        ensures room { OnOk result (0 < self.new.room) }
    {
        self.entries.reserve(1)
    }

    /// This stands under the key from now on.
    pub fn put(&mut self, key: Shared<Key>, value: B)
        requires { 0 < self.old.room }
        ensures { self.new.entries ≡ with_row key_cmp entry_key key (Some (record { key = key; value = value })) self.old.entries }
    {
        match self.search(key.get()) {
            Ok(place) => self.entries[place] = Entry { key, value },
            Err(place) => sorted_rings::insert(&mut self.entries, place, Entry { key, value }),
        }
    }

    /// This stands under the key from now on, unless something stands there.
    pub fn add(&mut self, key: Shared<Key>, value: B)
        requires { 0 < self.old.room }
        ensures { self.new.entries ≡ with_row key_cmp entry_key key (Some (standing key value (find (is_entry key) self.old.entries))) self.old.entries }
    {
        if let Err(place) = self.search(key.get()) {
            sorted_rings::insert(&mut self.entries, place, Entry { key, value });
        }
    }

    /// This stands under the key from now on, if something stands there.
    pub fn replace(&mut self, key: &Key, value: B)
        ensures { self.new.entries ≡ with_row key_cmp entry_key key.now (option_map (with_value value) (find (is_entry key.now) self.old.entries)) self.old.entries }
    {
        if let Ok(place) = self.search(key) {
            self.entries[place].value = value;
        }
    }

    /// Nothing stands under the key from now on.
    pub fn remove(&mut self, key: &Key)
        ensures { self.new.entries ≡ with_row key_cmp entry_key key.now None self.old.entries }
    {
        sorted_rings::remove(&mut self.entries, key);
    }
}

/// The names without this one. It takes no memory.
fn others(names: Rows<Text>, name: &Text) -> Rows<Text>
    ensures { result ≡ without_name name.now names }
{
    let mut names = names.into_vec();
    names.retain(|other| !other.is(name));
    Rows::from_vec(names)
}

/// The names of the entry without this one. It takes no memory.
fn drop_name(alloc: Global, entry: &mut Entry<Rows<Text>>, name: &Text)
    ensures { entry.new ≡ revalued (without_name name.now) entry.old }
{
    let names = replace(&mut entry.value, Rows::new(alloc));
    entry.value = others(names, name);
}

/// The name is added at the end of those of the entry. Without memory nothing changes.
fn push_name(entry: &mut Entry<Rows<Text>>, name: Text) -> Result<(), AllocError>
    ensures added { OnOk result (entry.new ≡ revalued (with_name name) entry.old) }
    ensures kept { OnErr result (entry.new ≡ entry.old) }
{
    entry.value.push(name)
}

/// The entry of this owner and name under which this is the only name.
fn first_name(
    alloc: Global,
    owner: &Text,
    other: &Text,
    name: Text,
) -> Result<Entry<Rows<Text>>, AllocError>
    ensures { IfOk result (λ entry. entry ≡ record { key = key_of owner.now other.now; value = name ∷ [] }) }
{
    let owner = owner.copy(alloc)?;
    let other = other.copy(alloc)?;
    let mut value = Rows::new(alloc);
    value.push(name)?;
    let key = Shared::new(alloc, Key { owner, name: other })?;
    Ok(Entry { key, value })
}

impl Keyed<Rows<Text>> {
    /// The name isn't among those under the key of this owner and name from now on. It takes no memory.
    pub fn drop_name(&mut self, alloc: Global, owner: &Text, other: &Text, name: &Text)
        ensures { self.new.entries ≡ with_row key_cmp entry_key (key_of owner.now other.now) (option_map (revalued (without_name name.now)) (find (is_entry (key_of owner.now other.now)) self.old.entries)) self.old.entries }
    {
        if let Ok(place) = self.search_for(owner, other) {
            drop_name(alloc, &mut self.entries[place], name);
        }
    }

    /// The name is added at the end of those under the key of this owner and name, of which there may be none. Without memory
    /// nothing changes.
    pub fn add_name(
        &mut self,
        alloc: Global,
        owner: &Text,
        other: &Text,
        name: &Text,
    ) -> Result<(), AllocError>
        ensures added { OnOk result (self.new.entries ≡ with_row key_cmp entry_key (key_of owner.now other.now) (Some (revalued (with_name name.now) (standing (key_of owner.now other.now) [] (find (is_entry (key_of owner.now other.now)) self.old.entries)))) self.old.entries) }
        ensures kept { OnErr result (self.new.entries ≡ self.old.entries) }
    {
        let name = name.copy(alloc)?;
        match self.search_for(owner, other) {
            Ok(place) => push_name(&mut self.entries[place], name),
            Err(place) => {
                let entry = first_name(alloc, owner, other, name)?;
                self.reserve()?;
                sorted_rings::insert(&mut self.entries, place, entry);
                Ok(())
            }
        }
    }
}
