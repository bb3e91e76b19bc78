//! What a partner's requests are told of groups.
#![tactic(auto, unfolding(crate::specs::Told::told))]

ghost use Rattle.std.specs.Prelude.{◌≡◌, map, option_map, option_copied, IfOk};
ghost use Rattle.rp_rows.specs.Rows.{key_of};
ghost use Rattle.rp_plain.specs.Plain.{group_at};
ghost use Rattle.rp_plain.specs.Groups.{members_of as MembersOf};
ghost use Rattle.rp_plain.specs.Populations.{member};
ghost use Rattle.rp_sight.specs.Listed.{member_of};
ghost use Rattle.rp_sight.specs.Stored.{row_of};
ghost use Rattle.rp_readers.specs.Told.{plain_of, told, member_told};

use crate::readers::Readers;
use plain_data::{Rows, Text};
use rp_plain::lists::Member;
use rp_rows::rows::{Key, Listing, Right};
use rp_sight::{Member as Listed, RowRef, sees_group};
use std::alloc::{AllocError, Global};

/// The members of a group as they are told.
fn told_members(alloc: Global, members: &[Listed<'_>]) -> Result<Rows<Member>, AllocError>
    ensures { IfOk result (λ rows. rows ≡ map (λ m. member_told (member_of m)) members.now) }
{
    let mut rows = Vec::with_capacity(alloc, members.len())?;
    for member in members {
        let model = member.model.copy(alloc)?;
        rows.push(Member {
            model,
            counts: member.counts,
        })?;
    }
    Ok(Rows::from_vec(rows))
}

impl<'a, 's> Readers<'a, 's> {
    /// The group of this owner and name, if the partner sees it.
    fn group_of(&self, owner: &Text, name: &Text) -> Option<RowRef<'a, Listing>>
        ensures { option_map row_of result ≡ group_at (plain_of self.now) self.now.caller.now (key_of owner.now name.now) }
    {
        let group = self.access.groups().table().find_for(owner, name)?;
        if sees_group(self.caller, &group) {
            Some(group)
        } else {
            None
        }
    }

    /// The group, if the partner sees it.
    pub fn group(&self, key: &Key) -> Option<RowRef<'a, Listing>>
        ensures { option_map row_of result ≡ group_at (plain_of self.now) self.now.caller.now key.now }
    {
        self.group_of(&key.owner, &key.name)
    }

    /// What the partner may do with the group of this owner and name.
    fn right_on_group(&self, owner: &Text, name: &Text) -> Right
        ensures { result ≡ (told self.now).group_right (key_of owner.now name.now) }
    {
        self.access.right_on_group(self.caller, owner, name)
    }

    /// What the partner may do with the group.
    pub fn group_right(&self, key: &Key) -> Right
        ensures { result ≡ (told self.now).group_right key.now }
    {
        self.right_on_group(&key.owner, &key.name)
    }

    /// What the partner may do with his own group of this name. No key is made for it.
    pub fn own_group_right(&self, name: &Text) -> Right
        ensures { result ≡ (told self.now).group_right (key_of self.now.caller.now name.now) }
    {
        self.right_on_group(self.caller, name)
    }

    /// What the group lists, if the partner sees it.
    pub fn listing(&self, key: &Key) -> Option<&'a Listing>
        ensures { option_copied result ≡ (told self.now).listing key.now }
    {
        match self.group(key) {
            Some(group) => Some(group.holds),
            None => None,
        }
    }

    /// What the partner's own group of this name lists. No key is made for it.
    pub fn own_listing(&self, name: &Text) -> Option<&'a Listing>
        ensures { option_copied result ≡ (told self.now).listing (key_of self.now.caller.now name.now) }
    {
        match self.group_of(self.caller, name) {
            Some(group) => Some(group.holds),
            None => None,
        }
    }

    /// The members of the group, and whether each counts, if the partner sees it.
    pub fn members(&self, alloc: Global, key: &Key) -> Result<Rows<Member>, AllocError>
        ensures { IfOk result (λ rows. rows ≡ map (member ((told self.now).counted key.now)) (MembersOf ((told self.now).listing key.now))) }
    {
        match self.group(key) {
            Some(_) => {
                // (The table tells that its rows stand in order.)
                let _count = self.models.len();
                let members = self.access.members(alloc, self.models, key)?;
                told_members(alloc, &members)
            }
            None => Ok(Rows::new(alloc)),
        }
    }
}
