//! Changes, and why they are refused.

use plain_data::{Items, Text};
use rp_content::{Content, Entities, Instance, Spare};
use rp_index::{Index, Indexed};
use rp_rows::rows::Key;
use rp_value::Value;
use shared::Shared;
use std::alloc::AllocError;

/// A change of the model of a key, or of one instance in it.
#[derive(Drop)]
pub enum Change {
    /// A model that nothing was put into. Its schema's name is in upper case.
    Create(Key, Text),
    Remove(Key),
    /// Another content in place of the former.
    Put(Key, Content),
    /// One instance more, under the greatest name and one.
    Add(Key, Entities, Items<Value>),
    /// Another instance in place of the one of its name.
    Set(Key, Instance),
    DropInstance(Key, u64),
}

/// What is done to what a model holds, with all the memory that it takes and the index of what it then holds. The model has none
/// from when this is made: if it is let go, the next change makes another.
#[derive(Drop)]
pub enum Edit {
    /// Another content in place of the former.
    Refill(Content, Option<Index>),
    /// The instance stands under its name. Where it is one more and there is no room for it, all move into the spare.
    Place(Instance, Spare, Option<Index>),
    Drop(u64, Option<Index>),
}

/// A change that nothing refuses, with all the memory that it takes. Dropped, it changes nothing.
#[derive(Drop)]
pub enum Prepared {
    /// The model stands under the key from now on.
    Hold(Shared<Key>, Indexed),
    Remove(Key),
    Alter(Key, Edit),
}

/// Why a change is refused.
#[derive(Clone, Copy, PartialEq, Eq)]
pub enum StoreFault {
    /// The key has a model.
    Exists,
    /// The key has none.
    Absent,
    /// The content has more instances or links than a model may, or the model all instances that it may, or its last name is used.
    TooMany,
    NoSuchInstance,
    /// Another instance of the model refers to the instance.
    InUse,
    NoMemory,
}

impl From<AllocError> for StoreFault {
    ghost use Rattle.std.specs.Prelude.{◌≡◌};
    ghost use Rattle.rp_store.specs.declared.changes.StoreFault.TheVariants.{NoMemory};

    ghost from_gives = { λ _ e. e ≡ NoMemory };

    fn from(_error: AllocError) -> StoreFault {
        StoreFault::NoMemory
    }
}
