//! Groups, for each partner the names of those that he is granted, and for each model those that may list it.

ghost use Rattle.std.specs.Prelude.{◌≡◌, true, false, ◌<◌, ◌++◌, [], Some, None, OnOk, OnErr};
ghost use Rattle.std.specs.List.{find, list_any};
ghost use Rattle.sorted_tables.specs.Table.{with_row};
ghost use Rattle.rp_rows.specs.declared.rows.Key.{Key as RowKey};
ghost use Rattle.rp_rows.specs.Rows.{Text as Bytes, key_cmp, row_key, is_row, same_key, key_of};
ghost use Rattle.rp_rows.specs.Alterations.{Holds, altered};
ghost use Rattle.rp_rows.specs.Sight.{is_grant_to};
ghost use Rattle.rp_sight.specs.Stored.{granted_row, rewritten};
ghost use Rattle.rp_sight.specs.Granted.{granted_of, names_at, has_name, TellsGranted};
ghost use Rattle.rp_sight.specs.Regrants.{RegrantFits};
ghost use Rattle.rp_sight.specs.Told.{AreTold, KeepsListed};

use crate::rows::Table;
use plain_data::{Rows, Text};
use rp_listers::Listers;
use rp_rows::rows::{Grant, Key, Level, Listing};
use rp_store::{Entry, Keyed};
use shared::Shared;
use std::alloc::{AllocError, Global};
use std::marker::Model;

/// What groups list, beside it the grants on them, under each partner and each owner the names of the owner's groups that the
/// partner is granted, and under each model groups that may list it.
#[derive(Drop)]
pub struct Groups {
    alloc: Global,
    listings: Keyed<Listing>,
    rights: Keyed<Rows<Grant>>,
    granted: Keyed<Rows<Text>>,
    listers: Listers,
}

/// One partner's grant on a group from now on.
#[derive(Drop)]
pub struct Regrant {
    pub level: Option<Level>,
    /// All the grants on the group.
    pub grants: Rows<Grant>,
    /// The partner as its owner, and the owner of the group as its name.
    pub under: Shared<Key>,
    /// The names of the owner's groups that the partner is granted.
    pub names: Rows<Text>,
}

impl Model for Groups {
    ghost use Rattle.rp_sight.specs.Kept.{KeptGroups, AreGroups};
    ghost use Rattle.rp_sight.specs.Stored.{joined};

    ghost Value = { KeptGroups };

    ghost view = { λ g. record {
      rows = joined g.listings.entries g.rights.entries;
      room = g.listings.room;
      right_room = g.rights.room;
      names = g.granted.entries;
      name_room = g.granted.room;
      listers = g.listers;
    } };

    ghost invariant = { λ g. AreGroups g.listings.entries g.rights.entries g.granted.entries g.listers };
}

/// The name of the group is forgotten under all partners who have these grants.
fn forget(alloc: Global, granted: &mut Keyed<Rows<Text>>, grants: &[Grant], key: &Key)
    ensures others { (p : Bytes) (k : RowKey) → same_key key.now k ≡ false → has_name k.name (names_at (key_of p k.owner) granted.new.entries) ≡ has_name k.name (names_at (key_of p k.owner) granted.old.entries) }
    ensures fewer { (p : Bytes) → has_name key.now.name (names_at (key_of p key.now.owner) granted.old.entries) ≡ false → has_name key.now.name (names_at (key_of p key.now.owner) granted.new.entries) ≡ false }
    ensures gone { (p : Bytes) → list_any (is_grant_to p) grants.now ≡ true → has_name key.now.name (names_at (key_of p key.now.owner) granted.new.entries) ≡ false }
{
    for grant in grants {
        granted.drop_name(alloc, &grant.partner, &key.owner, &key.name);
    }
}

/// The name of the group is added under all partners who have these grants: without memory, under some of them.
fn add_names(
    alloc: Global,
    granted: &mut Keyed<Rows<Text>>,
    grants: &[Grant],
    key: &Key,
) -> Result<(), AllocError>
    ensures others { (p : Bytes) (k : RowKey) → same_key key.now k ≡ false → has_name k.name (names_at (key_of p k.owner) granted.new.entries) ≡ has_name k.name (names_at (key_of p k.owner) granted.old.entries) }
    ensures apart { (p : Bytes) → list_any (is_grant_to p) grants.now ≡ false → has_name key.now.name (names_at (key_of p key.now.owner) granted.new.entries) ≡ has_name key.now.name (names_at (key_of p key.now.owner) granted.old.entries) }
    ensures added { OnOk result ((p : Bytes) → list_any (is_grant_to p) grants.now ≡ true → has_name key.now.name (names_at (key_of p key.now.owner) granted.new.entries) ≡ true) }
{
    for grant in grants {
        granted.add_name(alloc, &grant.partner, &key.owner, &key.name)?;
    }
    Ok(())
}

/// The name of a group that there isn't stands under all partners who have these grants from now on: without memory, under
/// nobody.
fn list_name(
    alloc: Global,
    granted: &mut Keyed<Rows<Text>>,
    grants: &[Grant],
    key: &Key,
) -> Result<(), AllocError>
    requires { (p : Bytes) → has_name key.now.name (names_at (key_of p key.now.owner) granted.old.entries) ≡ false }
    ensures others { (p : Bytes) (k : RowKey) → same_key key.now k ≡ false → has_name k.name (names_at (key_of p k.owner) granted.new.entries) ≡ has_name k.name (names_at (key_of p k.owner) granted.old.entries) }
    ensures listed { OnOk result ((p : Bytes) → has_name key.now.name (names_at (key_of p key.now.owner) granted.new.entries) ≡ list_any (is_grant_to p) grants.now) }
    ensures unlisted { OnErr result ((p : Bytes) → has_name key.now.name (names_at (key_of p key.now.owner) granted.new.entries) ≡ false) }
{
    match add_names(alloc, granted, grants, key) {
        Ok(()) => Ok(()),
        Err(error) => {
            forget(alloc, granted, grants, key);
            Err(error)
        }
    }
}

/// What the group of the key lists.
fn members_at<'a>(listings: &'a Keyed<Listing>, key: &Key) -> &'a [Key] {
    match listings.find(key) {
        Some(entry) => entry.value.members.as_slice(),
        None => &[],
    }
}

impl Groups {
    pub fn new(alloc: Global) -> Groups
        ensures { result.rows ≡ [] }
    {
        Groups {
            alloc,
            listings: Keyed::new(alloc),
            rights: Keyed::new(alloc),
            granted: Keyed::new(alloc),
            listers: Listers::new(alloc),
        }
    }

    /// The groups in the order of owner and name.
    pub fn table(&self) -> Table<'_, Listing>
        ensures { result.rows ≡ self.now.rows }
    {
        Table::of(&self.listings, &self.rights)
    }

    /// The owners who grant groups to the partner, each with the names of those, in two parts.
    pub fn granted_to(&self, partner: &Text) -> (&[Entry<Rows<Text>>], &[Entry<Rows<Text>>])
        ensures are { result.0.now ++ result.1.now ≡ granted_of partner.now self.now.names }
        ensures whole { TellsGranted partner.now (result.0.now ++ result.1.now) self.now.rows }
    {
        self.granted.of_owner(partner)
    }

    /// The names of this owner's groups that the partner is granted.
    pub fn names_for(&self, partner: &Text, owner: &Text) -> &[Text]
        ensures { result.now ≡ names_at (key_of partner.now owner.now) self.now.names }
    {
        match self.granted.find_for(partner, owner) {
            Some(entry) => entry.value.as_slice(),
            None => &[],
        }
    }

    /// Which groups may list a model: of those that do none is missing.
    pub(crate) fn listers(&self) -> &Listers
        ensures are { result.now ≡ self.now.listers }
        ensures whole { KeepsListed self.now.listers self.now.rows }
    {
        &self.listers
    }

    /// Makes room for one more group that lists this, and for each model that it lists tells of it from now on.
    pub fn reserve(&mut self, alloc: Global, key: &Key, listing: &Listing) -> Result<(), AllocError>
        ensures rows { self.new.rows ≡ self.old.rows }
        ensures names { self.new.names ≡ self.old.names }
        ensures room { OnOk result (0 < self.new.room) }
        ensures right_room { OnOk result (0 < self.new.right_room) }
        ensures told { OnOk result (AreTold key.now listing.now.members self.new.listers) }
    {
        self.listings.reserve()?;
        self.rights.reserve()?;
        self.listers.list(alloc, key, listing.members.as_slice())
    }

    /// Makes room for the names of one more partner and owner.
    pub fn reserve_names(&mut self) -> Result<(), AllocError>
        ensures rows { self.new.rows ≡ self.old.rows }
        ensures names { self.new.names ≡ self.old.names }
        ensures room { OnOk result (0 < self.new.name_room) }
    {
        self.granted.reserve()
    }

    /// From now on the group of the key lists this: its grants stay, or it is new and has none. It takes no memory.
    pub fn put(&mut self, key: Shared<Key>, again: Shared<Key>, listing: Listing)
        requires same { again ≡ key }
        requires room { 0 < self.old.room }
        requires right_room { 0 < self.old.right_room }
        requires told { AreTold key listing.members self.old.listers }
        ensures { self.new.rows ≡ altered key (Holds (Some listing)) self.old.rows }
    {
        let former = members_at(&self.listings, key.get());
        self.listers
            .unlist(key.get(), former, listing.members.as_slice());
        self.rights.add(again, Rows::new(self.alloc));
        self.listings.put(key, listing);
    }

    /// No group stands under the key from now on. It takes no memory.
    pub fn remove(&mut self, key: &Key)
        ensures { self.new.rows ≡ altered key.now (Holds None) self.old.rows }
    {
        let grants = Table::of(&self.listings, &self.rights).grants_at(key);
        forget(self.alloc, &mut self.granted, grants, key);
        self.listers
            .unlist(key, members_at(&self.listings, key), &[]);
        self.listings.remove(key);
        self.rights.remove(key);
    }

    /// One partner's grant on the group of the key is this from now on. It takes no memory.
    pub fn regrant(&mut self, key: &Key, regrant: Regrant)
        requires { RegrantFits key.now regrant self.old }
        ensures { self.new.rows ≡ rewritten key.now (λ x. record x { grants = regrant.grants }) self.old.rows }
    {
        let Regrant {
            level: _,
            grants,
            under,
            names,
        } = regrant;
        if Table::of(&self.listings, &self.rights).find(key).is_some() {
            self.granted.put(under, names);
        }
        self.rights.replace(key, grants);
    }

    /// The group stands under its key from now on, with all the grants on it: each partner's list of names is made longer, and
    /// none is copied. Without memory no row changes.
    pub fn hold(
        &mut self,
        alloc: Global,
        key: Key,
        listing: Listing,
        grants: Rows<Grant>,
    ) -> Result<(), AllocError>
        requires { find (is_row key) self.old.rows ≡ None }
        ensures held { OnOk result (self.new.rows ≡ with_row key_cmp row_key key (Some (granted_row key listing grants)) self.old.rows) }
        ensures kept { OnErr result (self.new.rows ≡ self.old.rows) }
    {
        let key = Shared::new(alloc, key)?;
        let again = key.share()?;
        self.reserve(alloc, key.get(), &listing)?;
        list_name(alloc, &mut self.granted, grants.as_slice(), key.get())?;
        self.rights.put(again, grants);
        self.listings.put(key, listing);
        Ok(())
    }
}
