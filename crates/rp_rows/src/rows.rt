//! What rows are made of.

ghost use Rattle.std.specs.Prelude.{◌≡◌, IfOk};
ghost use Rattle.rp_rows.specs.Rows.{key_of, key_cmp, same_key};

use plain_data::{Rows, Text};
use rp_content::Content;
use std::alloc::{AllocError, Global};
use std::cmp::Ordering;

/// What a row goes by: its owner, and its name among his.
#[derive(Drop)]
pub struct Key {
    pub owner: Text,
    pub name: Text,
}

impl Key {
    /// Whether the two have the same owner and the same name.
    pub fn is(&self, other: &Key) -> bool
        ensures { result ≡ same_key self.now other.now }
    {
        other.owner.is(&self.owner) && other.name.is(&self.name)
    }

    /// The order of owners, and of one owner's names.
    pub fn order(&self, other: &Key) -> Ordering
        ensures { result ≡ key_cmp self.now other.now }
    {
        self.order_to(&other.owner, &other.name)
    }

    /// Its order with the key of this owner and name.
    pub fn order_to(&self, owner: &Text, name: &Text) -> Ordering
        ensures { result ≡ key_cmp self.now (key_of owner.now name.now) }
    {
        self.owner.order(owner).then(self.name.order(name))
    }

    pub fn copy(&self, alloc: Global) -> Result<Key, AllocError>
        ensures { IfOk result (λ key. key ≡ self.now) }
    {
        let owner = self.owner.copy(alloc)?;
        let name = self.name.copy(alloc)?;
        Ok(Key { owner, name })
    }
}

/// What a partner may do with what is granted to him, from least to greatest.
#[derive(Clone, Copy, PartialEq, Eq)]
pub enum Level {
    Read,
    /// Also to list a model in groups of his own.
    Group,
    Write,
}

/// What a partner may do with what stands under a name, from least to greatest.
#[derive(Clone, Copy, PartialEq, Eq)]
pub enum Right {
    /// Nothing: for him it isn't there.
    Unseen,
    Reads,
    Groups,
    Writes,
    Owns,
}

/// A partner's level.
#[derive(Drop)]
pub struct Grant {
    pub partner: Text,
    pub level: Level,
}

/// What a model holds.
#[derive(Drop)]
pub struct ModelContent {
    /// The schema's name, in upper case.
    pub schema: Text,
    /// The greatest instance name that was ever used in it, at first 0.
    pub greatest: u64,
    /// What the last file said, by the schema; at first the default header and no instance.
    pub content: Content,
}

/// What a group holds.
#[derive(Drop)]
pub struct Listing {
    /// The schema's name, in upper case.
    pub schema: Text,
    /// The models that it lists, in order of owner and name.
    pub members: Rows<Key>,
}
