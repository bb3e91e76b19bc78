//! The models, and what is done to them once room is made.
#![tactic(auto, unfolding(crate::specs::Kept::Fits))]

ghost use Rattle.std.specs.Prelude.{◌≡◌, ◌<◌, [], OnOk, option_copied};
ghost use Rattle.std.specs.List.{find};
ghost use Rattle.rp_store.specs.Entries.{is_entry};
ghost use Rattle.rp_store.specs.Models.{instance_at};
ghost use Rattle.rp_store.specs.Kept.{made, Fits};

use crate::changes::Prepared;
use crate::keyed::{Entry, Keyed};
use rp_content::Instance;
use rp_index::Indexed;
use rp_rows::rows::Key;
use std::alloc::{AllocError, Global};
use std::marker::Model;

/// What models hold, in the order of owner and name, each key once.
#[derive(Drop)]
pub struct Store {
    pub(crate) models: Keyed<Indexed>,
}

impl Model for Store {
    ghost use Rattle.rp_rows.specs.declared.rows.ModelContent.{ModelContent};
    ghost use Rattle.rp_store.specs.Entries.{Entries};

    ghost Value = { Entries ModelContent };

    ghost use Rattle.std.specs.Coded.{codes};
    ghost use Rattle.rp_rows.specs.contracts.rows.ModelContent as content_type;

    ghost coded = { Prim.hlevel (codes, content_type.the_row.coded) };

    ghost view = { λ s. s.models };
}

impl Store {
    pub fn new(alloc: Global) -> Store
        ensures { result.entries ≡ [] }
    {
        Store {
            models: Keyed::new(alloc),
        }
    }

    /// The models in the order of owner and name.
    pub fn models(&self) -> &Keyed<Indexed>
        ensures { result.now ≡ self.now }
    {
        &self.models
    }

    /// The model of this key.
    pub(crate) fn find(&self, key: &Key) -> Option<&Entry<Indexed>>
        ensures { option_copied result ≡ find (is_entry key.now) self.now.entries }
    {
        self.models.find(key)
    }

    /// The instance of this name in the model of this key.
    pub(crate) fn get(&self, key: &Key, name: u64) -> Option<&Instance>
        ensures { option_copied result ≡ instance_at key.now name self.now.entries }
    {
        match self.find(key) {
            Some(model) => model.value.get().content.instances.get(name),
            None => None,
        }
    }

    /// Makes room for one model more.
    pub fn reserve(&mut self) -> Result<(), AllocError>
        ensures models { self.new.entries ≡ self.old.entries }
        ensures room { OnOk result (0 < self.new.room) }
    {
        self.models.reserve()
    }

    /// Makes a prepared change, if nothing has changed since. It takes no memory.
    pub fn commit(&mut self, prepared: Prepared)
        requires { Fits self.old prepared }
        ensures { self.new.entries ≡ made prepared self.old.entries }
    {
        match prepared {
            Prepared::Hold(key, model) => self.models.put(key, model),
            Prepared::Remove(key) => self.models.remove(&key),
            Prepared::Alter(key, change) => self.models.alter(&key, change),
        }
    }
}
