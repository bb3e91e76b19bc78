//! How changes are prepared.
#![tactic(auto, unfolding(crate::specs::Kept::Fits))]

ghost use Rattle.std.specs.Prelude.{◌≡◌, ◌≢◌, ◌+◌, ◌<◌, Some, None, MatchResult, IfOk, ◌||◌, option_map};
ghost use Rattle.rp_store.specs.declared.changes.Change.TheVariants as c;
ghost use Rattle.rp_store.specs.Entries.{HasAt};
ghost use Rattle.rp_store.specs.Models.{held_at};
ghost use Rattle.rp_store.specs.declared.changes.StoreFault.TheVariants.{NoMemory};
ghost use Rattle.rp_store.specs.Changes.{tested, holds_too_many, is_full, fault};
ghost use Rattle.rp_store.specs.Contents.{HasRoomIn};
ghost use Rattle.rp_store.specs.Kept.{HasRoomFor, Prepares};

use crate::changes::{Change, Edit, Prepared, StoreFault};
use crate::store::Store;
use crate::uses::is_used_in;
use plain_data::{Items, Text};
use rp_content::{Content, Entities, Instance, Instances, Spare};
use rp_index::{Indexed, index_of};
use rp_rows::limits::{MAX_INSTANCES, MAX_LINKS, MAX_NAME};
use rp_rows::rows::{Key, ModelContent};
use rp_value::Value;
use shared::Shared;
use std::alloc::{AllocError, Global};

/// Whether it is more than a model may hold.
fn is_too_much(content: &Content) -> bool
    ensures { result ≡ holds_too_many content.now }
{
    content.instances.len() > MAX_INSTANCES || content.links.len() > MAX_LINKS
}

impl Store {
    /// A model that nothing was put into. Its schema's name is in upper case.
    fn create(&mut self, alloc: Global, key: Key, schema: Text) -> Result<Prepared, StoreFault>
        ensures models { self.new.entries ≡ self.old.entries }
        ensures prepares { Prepares (c.Create key schema) self.old.entries result }
        ensures room { IfOk result (λ _. 0 < self.new.room) }
    {
        if self.find(&key).is_some() {
            return Err(StoreFault::Exists);
        }
        let content = Content::new(alloc)?;
        self.models.reserve()?;
        let model = ModelContent {
            schema,
            greatest: 0,
            content,
        };
        let indexed = Indexed::new(alloc, model)?;
        let key = Shared::new(alloc, key)?;
        Ok(Prepared::Hold(key, indexed))
    }

    /// Without the model of this key.
    fn remove(&self, key: Key) -> Result<Prepared, StoreFault>
        ensures { Prepares (c.Remove key) self.now.entries result }
    {
        match self.find(&key) {
            Some(_) => Ok(Prepared::Remove(key)),
            None => Err(StoreFault::Absent),
        }
    }

    /// Another content in place of that of the model.
    fn put(&self, alloc: Global, key: Key, content: Content) -> Result<Prepared, StoreFault>
        ensures { Prepares (c.Put key content) self.now.entries result }
    {
        if self.find(&key).is_none() {
            return Err(StoreFault::Absent);
        }
        if is_too_much(&content) {
            return Err(StoreFault::TooMany);
        }
        let index = index_of(alloc, &content)?;
        Ok(Prepared::Alter(key, Edit::Refill(content, index)))
    }

    /// The name of the next instance of the model.
    fn next_name(&self, key: &Key) -> Result<u64, StoreFault>
        ensures { MatchResult result (λ name. (tested is_full (held_at key.now self.now.entries) ≡ None) × (option_map (λ h. h.greatest + 1) (held_at key.now self.now.entries) ≡ Some name)) (λ why. tested is_full (held_at key.now self.now.entries) ≡ Some why) }
    {
        let Some(model) = self.find(key) else {
            return Err(StoreFault::Absent);
        };
        let held = model.value.get();
        if held.greatest >= MAX_NAME || held.content.instances.len() >= MAX_INSTANCES {
            return Err(StoreFault::TooMany);
        }
        Ok(held.greatest + 1)
    }

    /// Room for one instance more of the model of this key.
    fn spare_in(&self, alloc: Global, key: &Key) -> Result<Spare, AllocError>
        ensures { IfOk result (λ spare. HasAt (HasRoomIn spare) key.now self.now.entries) }
    {
        match self.find(key) {
            Some(model) => model.value.get().content.instances.spare(alloc),
            None => Ok(Spare::none(alloc)),
        }
    }

    /// One instance more of the model, under its greatest name and one.
    fn add(
        &mut self,
        alloc: Global,
        key: Key,
        entities: Entities,
        values: Items<Value>,
    ) -> Result<Prepared, StoreFault>
        ensures models { self.new.entries ≡ self.old.entries }
        ensures prepares { Prepares (c.Add key entities values) self.old.entries result }
    {
        let name = self.next_name(&key)?;
        let spare = self.spare_in(alloc, &key)?;
        let instance = Instance {
            name,
            entities,
            values,
        };
        let index = self.models.take_index_with(alloc, &key, &instance)?;
        Ok(Prepared::Alter(key, Edit::Place(instance, spare, index)))
    }

    /// Another instance in place of the one of its name.
    fn set(&mut self, alloc: Global, key: Key, instance: Instance) -> Result<Prepared, StoreFault>
        ensures models { self.new.entries ≡ self.old.entries }
        ensures prepares { Prepares (c.Set key instance) self.old.entries result }
    {
        if self.find(&key).is_none() {
            return Err(StoreFault::Absent);
        }
        if self.get(&key, instance.name).is_none() {
            return Err(StoreFault::NoSuchInstance);
        }
        let spare = Spare::none(alloc);
        let index = self.models.take_index_with(alloc, &key, &instance)?;
        Ok(Prepared::Alter(key, Edit::Place(instance, spare, index)))
    }

    /// That the model has an instance of this name, and no other refers to it.
    fn can_drop(&self, alloc: Global, key: &Key, name: u64) -> Result<(), StoreFault>
        ensures { MatchResult result (λ _. fault (c.DropInstance key.now name) self.now.entries ≡ None) (λ why. why ≢ NoMemory → fault (c.DropInstance key.now name) self.now.entries ≡ Some why) }
    {
        let Some(model) = self.find(key) else {
            return Err(StoreFault::Absent);
        };
        if model.value.get().content.instances.get(name).is_none() {
            return Err(StoreFault::NoSuchInstance);
        }
        if is_used_in(alloc, name, &model.value)? {
            return Err(StoreFault::InUse);
        }
        Ok(())
    }

    /// Without the instance of this name.
    fn drop_instance(&mut self, alloc: Global, key: Key, name: u64) -> Result<Prepared, StoreFault>
        ensures models { self.new.entries ≡ self.old.entries }
        ensures prepares { Prepares (c.DropInstance key name) self.old.entries result }
    {
        self.can_drop(alloc, &key, name)?;
        let index = self.models.take_index_without(alloc, &key, name)?;
        Ok(Prepared::Alter(key, Edit::Drop(name, index)))
    }

    /// Makes all the room that a change takes, and changes nothing that is seen.
    ///
    /// # Errors
    ///
    /// The first that holds of why it is refused; or `NoMemory`.
    pub fn prepare(&mut self, alloc: Global, change: Change) -> Result<Prepared, StoreFault>
        ensures models { self.new.entries ≡ self.old.entries }
        ensures prepares { Prepares change self.old.entries result }
        ensures room { IfOk result (λ _. HasRoomFor change self.new.room) }
    {
        match change {
            Change::Create(key, schema) => self.create(alloc, key, schema),
            Change::Remove(key) => self.remove(key),
            Change::Put(key, content) => self.put(alloc, key, content),
            Change::Add(key, entities, values) => self.add(alloc, key, entities, values),
            Change::Set(key, instance) => self.set(alloc, key, instance),
            Change::DropInstance(key, name) => self.drop_instance(alloc, key, name),
        }
    }
}
