//! Who may do what with models, and groups.

ghost use Rattle.std.specs.Prelude.{◌≡◌};

use crate::changes::{AccessFault, Change};
use crate::faults::{is_listable, is_new, is_there, is_unlistable};
use crate::regranted::regranted_for;
use crate::relisting::{excluding, including};
use crate::steps::{Altered, GroupStep, group_step, make_group_step};
use plain_data::{Rows, Text};
use rp_index::Indexed;
use rp_rows::limits::{MAX_GROUPS, MAX_MODELS};
use rp_rows::rows::{Grant, Key, Level, Listing, Right};
use rp_sight::{
    Groups, Member, Seen, Table, group_right, level, members_of, visible_groups, visible_models,
};
use rp_store::{Keyed, Store};
use shared::Shared;
use std::alloc::{AllocError, Global};
use std::marker::Model;

/// The grants on models, under the key of each, and groups with the grants on them.
#[derive(Drop)]
pub struct Access {
    models: Keyed<Rows<Grant>>,
    groups: Groups,
}

impl Model for Access {
    ghost use Rattle.rp_access.specs.Kept.{KeptAccess};

    ghost Value = { KeptAccess };

    ghost view = { λ a. record { models = a.models; groups = a.groups } };
}

/// A change with all the memory that it takes.
#[derive(Drop)]
pub enum Prepared {
    Nothing,
    /// There are rights on the model from now on, and these grants.
    Open(Shared<Key>, Rows<Grant>),
    Close(Key),
    /// All the grants on the model.
    Regrant(Key, Rows<Grant>),
    OfGroup(Shared<Key>, GroupStep),
}

/// The reason, and the change is let go: those with the same parts in one arm, which is half of what each in its own takes.
fn refused(change: Change, reason: AccessFault) -> AccessFault
    ensures { result ≡ reason }
{
    match change {
        Change::CreateModel(_key) | Change::RemoveModel(_key) | Change::RemoveGroup(_key) => {}
        Change::CreateGroup(_key, _text)
        | Change::GrantModel(_key, _text, _)
        | Change::GrantGroup(_key, _text)
        | Change::RevokeModel(_key, _text)
        | Change::RevokeGroup(_key, _text) => {}
        Change::Include(_key, _model) | Change::Exclude(_key, _model) => {}
    }
    reason
}

impl Access {
    ghost use Rattle.std.specs.Prelude.{◌≡◌, ◌≢◌, [], Some, None, map, filter, OnOk, OnErr, IfOk, IfErr};
    ghost use Rattle.std.specs.List.{find};
    ghost use Rattle.sorted_tables.specs.Table.{with_row, IsAscending};
    ghost use Rattle.rp_rows.specs.Rows.{key_cmp, row_key, is_row, key_of};
    ghost use Rattle.rp_rows.specs.Listings.{with_member, without_member};
    ghost use Rattle.rp_rows.specs.Sight as sight;
    ghost use Rattle.rp_rows.specs.Alterations.{altered};
    ghost use Rattle.rp_store.specs.Entries.{entry_key};
    ghost use Rattle.rp_sight.specs.Stored.{granted_row, joined};
    ghost use Rattle.rp_sight.specs.Listed.{members_in, member_of};
    ghost use Rattle.rp_sight.specs.Seen.{seen_model, seen_group, seen_of};
    ghost use Rattle.rp_access.specs.Changes.{models_after, groups_after, fault, granted, granted_on, regranted_on, grants_at, relisted_at, right_on_model, right_on_group};
    ghost use Rattle.rp_access.specs.declared.changes.AccessFault.TheVariants.{NoMemory};
    ghost use Rattle.rp_access.specs.Steps.{prepared_models, prepared_groups, PreparedFits, alteration_of};

    /// No rights and no group.
    pub fn new(alloc: Global) -> Access
        ensures models { result.models.entries ≡ [] }
        ensures groups { result.groups.rows ≡ [] }
    {
        Access {
            models: Keyed::new(alloc),
            groups: Groups::new(alloc),
        }
    }

    /// The models of a store, each with the grants on it.
    pub fn models<'a>(&'a self, store: &'a Store) -> Table<'a, Indexed>
        requires { map entry_key store.now.entries ≡ map entry_key self.now.models.entries }
        ensures { result.rows ≡ joined store.now.entries self.now.models.entries }
    {
        Table::of(store.models(), &self.models)
    }

    pub fn groups(&self) -> &Groups
        ensures { result.now ≡ self.now.groups }
    {
        &self.groups
    }

    /// What the partner may do with the model of this owner and name. Of groups only those are looked at that he is granted.
    pub fn right_on_model(
        &self,
        models: &Table<'_, Indexed>,
        partner: &Text,
        owner: &Text,
        name: &Text,
    ) -> Right
        ensures right { result ≡ right_on_model self.now.groups.rows partner.now (find (is_row (key_of owner.now name.now)) models.now.rows) }
        ensures order { IsAscending key_cmp row_key models.now.rows }
    {
        match models.find_for(owner, name) {
            Some(model) => level(&self.groups, partner, &model),
            None => Right::Unseen,
        }
    }

    /// What the partner may do with the group of this owner and name.
    pub fn right_on_group(&self, partner: &Text, owner: &Text, name: &Text) -> Right
        ensures right { result ≡ right_on_group partner.now (find (is_row (key_of owner.now name.now)) self.now.groups.rows) }
        ensures order { IsAscending key_cmp row_key self.now.groups.rows }
    {
        match self.groups.table().find_for(owner, name) {
            Some(group) => group_right(partner, &group),
            None => Right::Unseen,
        }
    }

    /// The models that the partner sees, in the order of owner and name.
    pub fn visible_models<'a>(
        &self,
        alloc: Global,
        models: &Table<'a, Indexed>,
        partner: &Text,
    ) -> Result<Vec<Seen<'a, Indexed>>, AllocError>
        ensures { IfOk result (λ seen. map seen_of seen.items ≡ map (seen_model self.now.groups.rows partner.now) (filter (sight.sees self.now.groups.rows partner.now) models.now.rows)) }
    {
        visible_models(alloc, models, &self.groups, partner)
    }

    /// The groups that the partner sees, in the order of owner and name.
    pub fn visible_groups(
        &self,
        alloc: Global,
        partner: &Text,
    ) -> Result<Vec<Seen<'_, Listing>>, AllocError>
        ensures { IfOk result (λ seen. map seen_of seen.items ≡ map (seen_group partner.now) (filter (sight.sees_group partner.now) self.now.groups.rows)) }
    {
        visible_groups(alloc, &self.groups, partner)
    }

    /// The models that the group of the key lists, in the order of owner and name, and which of them count.
    pub fn members(
        &self,
        alloc: Global,
        models: &Table<'_, Indexed>,
        key: &Key,
    ) -> Result<Vec<Member<'_>>, AllocError>
        ensures members { IfOk result (λ out. map member_of out.items ≡ members_in models.now.rows (find (is_row key.now) self.now.groups.rows)) }
        ensures order { IsAscending key_cmp row_key self.now.groups.rows }
    {
        match self.groups.table().find(key) {
            Some(group) => members_of(alloc, models, &group),
            None => Ok(Vec::new(alloc)),
        }
    }

    // ---- changes

    /// Why the change isn't made, if there is a reason.
    fn fault_of(&self, change: &Change) -> Option<AccessFault>
        ensures { result ≡ fault self.now.models.entries self.now.groups.rows change.now }
    {
        let groups = self.groups.table();
        match change {
            Change::CreateModel(key) => is_new(
                self.models.find(key).is_some(),
                self.models.count_of(&key.owner),
                MAX_MODELS,
            ),
            Change::CreateGroup(key, _) => is_new(
                groups.find(key).is_some(),
                groups.count_of(&key.owner),
                MAX_GROUPS,
            ),
            Change::RemoveModel(key)
            | Change::GrantModel(key, _, _)
            | Change::RevokeModel(key, _) => is_there(self.models.find(key).is_some()),
            Change::RemoveGroup(key) | Change::GrantGroup(key, _) | Change::RevokeGroup(key, _) => {
                is_there(groups.find(key).is_some())
            }
            Change::Include(group, model) => {
                if self.models.find(model).is_none() {
                    return Some(AccessFault::Absent);
                }
                is_listable(model, groups.find(group))
            }
            Change::Exclude(group, model) => is_unlistable(model, groups.find(group)),
        }
    }

    /// The grants on the model of the key.
    fn grants_on(&self, key: &Key) -> &[Grant]
        ensures { result.now ≡ grants_at key.now self.now.models.entries }
    {
        match self.models.find(key) {
            Some(entry) => entry.value.as_slice(),
            None => &[],
        }
    }

    /// One partner's grant on the model of the key, or none.
    fn regrant_model(
        &self,
        alloc: Global,
        key: Key,
        to: Text,
        level: Option<Level>,
    ) -> Result<Prepared, AllocError>
        ensures fits { IfOk result (λ prepared. PreparedFits self.now prepared) }
        ensures models { IfOk result (λ prepared. prepared_models prepared self.now.models.entries ≡ regranted_on key to level self.now.models.entries) }
        ensures groups { IfOk result (λ prepared. prepared_groups prepared self.now.groups.rows ≡ self.now.groups.rows) }
    {
        let grants = regranted_for(alloc, to, level, self.grants_on(&key))?;
        Ok(Prepared::Regrant(key, grants))
    }

    /// One partner's grant on the model of the key, unless he is its owner.
    fn grant_model(
        &self,
        alloc: Global,
        key: Key,
        to: Text,
        level: Level,
    ) -> Result<Prepared, AllocError>
        ensures fits { IfOk result (λ prepared. PreparedFits self.now prepared) }
        ensures models { IfOk result (λ prepared. prepared_models prepared self.now.models.entries ≡ granted_on key to level self.now.models.entries) }
        ensures groups { IfOk result (λ prepared. prepared_groups prepared self.now.groups.rows ≡ self.now.groups.rows) }
    {
        if to.is(&key.owner) {
            return Ok(Prepared::Nothing);
        }
        self.regrant_model(alloc, key, to, Some(level))
    }

    /// The group of the key is changed so.
    fn alter_group(
        &mut self,
        alloc: Global,
        key: Key,
        change: Altered<Listing>,
    ) -> Result<Prepared, AllocError>
        ensures models { self.new.models.entries ≡ self.old.models.entries }
        ensures groups { self.new.groups.rows ≡ self.old.groups.rows }
        ensures fits { IfOk result (λ prepared. PreparedFits self.new prepared) }
        ensures model_rows { IfOk result (λ prepared. prepared_models prepared self.old.models.entries ≡ self.old.models.entries) }
        ensures group_rows { IfOk result (λ prepared. prepared_groups prepared self.old.groups.rows ≡ altered key (alteration_of change) self.old.groups.rows) }
    {
        let key = Shared::new(alloc, key)?;
        let step = group_step(alloc, &mut self.groups, &key, change)?;
        Ok(Prepared::OfGroup(key, step))
    }

    /// A partner may read the group of the key, unless he is its owner.
    fn grant_group(&mut self, alloc: Global, key: Key, to: Text) -> Result<Prepared, AllocError>
        ensures models { self.new.models.entries ≡ self.old.models.entries }
        ensures groups { self.new.groups.rows ≡ self.old.groups.rows }
        ensures fits { IfOk result (λ prepared. PreparedFits self.new prepared) }
        ensures model_rows { IfOk result (λ prepared. prepared_models prepared self.old.models.entries ≡ self.old.models.entries) }
        ensures group_rows { IfOk result (λ prepared. prepared_groups prepared self.old.groups.rows ≡ granted key to Level.Read self.old.groups.rows) }
    {
        if to.is(&key.owner) {
            return Ok(Prepared::Nothing);
        }
        self.alter_group(alloc, key, Altered::Grants(to, Some(Level::Read)))
    }

    /// What the group of the key lists, with the model.
    fn include(&mut self, alloc: Global, group: Key, model: &Key) -> Result<Prepared, AllocError>
        ensures models { self.new.models.entries ≡ self.old.models.entries }
        ensures groups { self.new.groups.rows ≡ self.old.groups.rows }
        ensures fits { IfOk result (λ prepared. PreparedFits self.new prepared) }
        ensures model_rows { IfOk result (λ prepared. prepared_models prepared self.old.models.entries ≡ self.old.models.entries) }
        ensures group_rows { IfOk result (λ prepared. prepared_groups prepared self.old.groups.rows ≡ relisted_at group (with_member model.now) (find (is_row group) self.old.groups.rows) self.old.groups.rows) }
    {
        let listing = match self.groups.table().find(&group) {
            Some(row) => including(alloc, row.holds, model)?,
            None => return Ok(Prepared::Nothing),
        };
        self.alter_group(alloc, group, Altered::Hold(listing))
    }

    /// What the group of the key lists, without the model.
    fn exclude(&mut self, alloc: Global, group: Key, model: &Key) -> Result<Prepared, AllocError>
        ensures models { self.new.models.entries ≡ self.old.models.entries }
        ensures groups { self.new.groups.rows ≡ self.old.groups.rows }
        ensures fits { IfOk result (λ prepared. PreparedFits self.new prepared) }
        ensures model_rows { IfOk result (λ prepared. prepared_models prepared self.old.models.entries ≡ self.old.models.entries) }
        ensures group_rows { IfOk result (λ prepared. prepared_groups prepared self.old.groups.rows ≡ relisted_at group (without_member model.now) (find (is_row group) self.old.groups.rows) self.old.groups.rows) }
    {
        let listing = match self.groups.table().find(&group) {
            Some(row) => excluding(alloc, row.holds, model)?,
            None => return Ok(Prepared::Nothing),
        };
        self.alter_group(alloc, group, Altered::Hold(listing))
    }

    /// Rights on one model more, with room for them.
    fn open(&mut self, alloc: Global, key: Key) -> Result<Prepared, AllocError>
        ensures models { self.new.models.entries ≡ self.old.models.entries }
        ensures groups { self.new.groups ≡ self.old.groups }
        ensures fits { IfOk result (λ prepared. PreparedFits self.new prepared) }
        ensures opened { IfOk result (λ prepared. prepared ≡ Prepared.Open key []) }
    {
        self.models.reserve()?;
        let key = Shared::new(alloc, key)?;
        Ok(Prepared::Open(key, Rows::new(alloc)))
    }

    /// The change with room for it, whether or not there is a reason against it.
    fn with_room(&mut self, alloc: Global, change: Change) -> Result<Prepared, AllocError>
        ensures models { self.new.models.entries ≡ self.old.models.entries }
        ensures groups { self.new.groups.rows ≡ self.old.groups.rows }
        ensures fits { IfOk result (λ prepared. PreparedFits self.new prepared) }
        ensures model_rows { IfOk result (λ prepared. prepared_models prepared self.old.models.entries ≡ models_after change self.old.models.entries) }
        ensures group_rows { IfOk result (λ prepared. prepared_groups prepared self.old.groups.rows ≡ groups_after change self.old.groups.rows) }
    {
        match change {
            Change::CreateModel(key) => self.open(alloc, key),
            Change::CreateGroup(key, schema) => {
                let members = Rows::new(alloc);
                self.alter_group(alloc, key, Altered::Hold(Listing { schema, members }))
            }
            Change::RemoveModel(key) => Ok(Prepared::Close(key)),
            Change::RemoveGroup(key) => self.alter_group(alloc, key, Altered::Remove),
            Change::GrantModel(key, to, level) => self.grant_model(alloc, key, to, level),
            Change::GrantGroup(key, to) => self.grant_group(alloc, key, to),
            Change::RevokeModel(key, to) => self.regrant_model(alloc, key, to, None),
            Change::RevokeGroup(key, to) => {
                self.alter_group(alloc, key, Altered::Grants(to, None))
            }
            Change::Include(group, model) => self.include(alloc, group, &model),
            Change::Exclude(group, model) => self.exclude(alloc, group, &model),
        }
    }

    /// The same, where want of memory is the reason against it.
    fn allowed(&mut self, alloc: Global, change: Change) -> Result<Prepared, AccessFault>
        ensures models { self.new.models.entries ≡ self.old.models.entries }
        ensures groups { self.new.groups.rows ≡ self.old.groups.rows }
        ensures fits { IfOk result (λ prepared. PreparedFits self.new prepared) }
        ensures model_rows { IfOk result (λ prepared. prepared_models prepared self.old.models.entries ≡ models_after change self.old.models.entries) }
        ensures group_rows { IfOk result (λ prepared. prepared_groups prepared self.old.groups.rows ≡ groups_after change self.old.groups.rows) }
        ensures wanting { IfErr result (λ reason. reason ≡ NoMemory) }
    {
        Ok(self.with_room(alloc, change)?)
    }

    /// What the change needs, with all the room that it takes. Nothing that is seen is changed.
    ///
    /// # Errors
    ///
    /// The reason against it; or `NoMemory`.
    pub fn prepare(&mut self, alloc: Global, change: Change) -> Result<Prepared, AccessFault>
        ensures models { self.new.models.entries ≡ self.old.models.entries }
        ensures groups { self.new.groups.rows ≡ self.old.groups.rows }
        ensures allowed { IfOk result (λ _. fault self.old.models.entries self.old.groups.rows change ≡ None) }
        ensures fits { IfOk result (λ prepared. PreparedFits self.new prepared) }
        ensures model_rows { IfOk result (λ prepared. prepared_models prepared self.old.models.entries ≡ models_after change self.old.models.entries) }
        ensures group_rows { IfOk result (λ prepared. prepared_groups prepared self.old.groups.rows ≡ groups_after change self.old.groups.rows) }
        ensures refused { IfErr result (λ reason. reason ≢ NoMemory → fault self.old.models.entries self.old.groups.rows change ≡ Some reason) }
    {
        match self.fault_of(&change) {
            Some(reason) => Err(refused(change, reason)),
            None => self.allowed(alloc, change),
        }
    }

    /// Makes a change that was prepared for what is held. It takes no memory.
    pub fn commit(&mut self, prepared: Prepared)
        requires { PreparedFits self.old prepared }
        ensures models { self.new.models.entries ≡ prepared_models prepared self.old.models.entries }
        ensures groups { self.new.groups.rows ≡ prepared_groups prepared self.old.groups.rows }
    {
        match prepared {
            Prepared::Nothing => {}
            Prepared::Open(key, grants) => self.models.add(key, grants),
            Prepared::Close(key) => self.models.remove(&key),
            Prepared::Regrant(key, grants) => self.models.replace(&key, grants),
            Prepared::OfGroup(key, step) => make_group_step(&mut self.groups, key, step),
        }
    }

    // ---- what was kept elsewhere is held again

    /// These are the grants on the model of the key from now on. Without memory nothing changes.
    pub fn hold_model(&mut self, key: Shared<Key>, grants: Rows<Grant>) -> Result<(), AllocError>
        ensures held { OnOk result (self.new.models.entries ≡ with_row key_cmp entry_key key (Some (record { key = key; value = grants })) self.old.models.entries) }
        ensures kept { OnErr result (self.new.models.entries ≡ self.old.models.entries) }
        ensures groups { self.new.groups ≡ self.old.groups }
    {
        self.models.reserve()?;
        self.models.put(key, grants);
        Ok(())
    }

    /// A group that there isn't stands under its key from now on, with all the grants on it. Without memory no group changes.
    pub fn hold_group(
        &mut self,
        alloc: Global,
        key: Key,
        listing: Listing,
        grants: Rows<Grant>,
    ) -> Result<(), AllocError>
        requires { find (is_row key) self.old.groups.rows ≡ None }
        ensures held { OnOk result (self.new.groups.rows ≡ with_row key_cmp row_key key (Some (granted_row key listing grants)) self.old.groups.rows) }
        ensures kept { OnErr result (self.new.groups.rows ≡ self.old.groups.rows) }
        ensures models { self.new.models ≡ self.old.models }
    {
        self.groups.hold(alloc, key, listing, grants)
    }
}
