//! What is done to what a model holds, and to its index.

ghost use Rattle.std.specs.Prelude.{◌≡◌, IfOk, option_map};
ghost use Rattle.std.specs.List.{find};
ghost use Rattle.sorted_tables.specs.Table.{with_row};
ghost use Rattle.rp_rows.specs.Rows.{key_cmp};
ghost use Rattle.rp_rows.specs.Instances.{with_instance, without_instance};
ghost use Rattle.rp_store.specs.Contents.{edited_by, EditFits, IsIndexAfter};
ghost use Rattle.rp_store.specs.Entries.{entry_key, is_entry, revalued, HasAt};

use crate::changes::Edit;
use crate::keyed::Keyed;
use rp_content::Instance;
use rp_index::{Index, Indexed};
use rp_rows::rows::Key;
use std::alloc::{AllocError, Global};

/// What a model holds is changed so. It takes no memory.
fn alter(model: &mut Indexed, change: Edit)
    requires { EditFits change model.old }
    ensures { model.new ≡ edited_by change model.old }
{
    match change {
        Edit::Refill(content, index) => model.refill(content, index),
        Edit::Place(instance, spare, index) => model.place(instance, spare, index),
        Edit::Drop(name, index) => model.drop_instance(name, index),
    }
}

impl Keyed<Indexed> {
    /// What the model of the key holds is changed so, if there is one. It takes no memory.
    pub(crate) fn alter(&mut self, key: &Key, change: Edit)
        requires { HasAt (EditFits change) key.now self.old.entries }
        ensures { self.new.entries ≡ with_row key_cmp entry_key key.now (option_map (revalued (edited_by change)) (find (is_entry key.now) self.old.entries)) self.old.entries }
    {
        if let Ok(place) = self.search(key) {
            alter(&mut self.entries[place].value, change);
        }
    }

    /// The index of the model of the key for when this instance stands in it. The model has none from then on, and is else the same.
    pub(crate) fn take_index_with(
        &mut self,
        alloc: Global,
        key: &Key,
        instance: &Instance,
    ) -> Result<Option<Index>, AllocError>
        ensures same { self.new.entries ≡ self.old.entries }
        ensures index { IfOk result (λ index. HasAt (IsIndexAfter (with_instance instance.now) index) key.now self.old.entries) }
    {
        match self.search(key) {
            Ok(place) => self.entries[place].value.take_index_with(alloc, instance),
            Err(_) => Ok(None),
        }
    }

    /// The index of the model of the key for when no instance of this name stands in it. The model has none from then on, and is else
    /// the same.
    pub(crate) fn take_index_without(
        &mut self,
        alloc: Global,
        key: &Key,
        name: u64,
    ) -> Result<Option<Index>, AllocError>
        ensures same { self.new.entries ≡ self.old.entries }
        ensures index { IfOk result (λ index. HasAt (IsIndexAfter (without_instance name) index) key.now self.old.entries) }
    {
        match self.search(key) {
            Ok(place) => self.entries[place].value.take_index_without(alloc, name),
            Err(_) => Ok(None),
        }
    }
}
