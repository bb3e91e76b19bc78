//! What a partner may do with a row, and what he sees.

ghost use Rattle.std.specs.Prelude.{◌≡◌, option_copied};
ghost use Rattle.std.specs.List.{list_any, find};
ghost use Rattle.rp_rows.specs.Sight as sight;
ghost use Rattle.rp_rows.specs.Listings.{lists_key};
ghost use Rattle.rp_sight.specs.Stored.{row_of};
ghost use Rattle.rp_sight.specs.Listed.{fits};

use crate::rows::RowRef;
use plain_data::Text;
use rp_index::Indexed;
use rp_rows::rows::{Grant, Key, Level, Listing, Right};

pub fn owns<A>(caller: &Text, row: &RowRef<'_, A>) -> bool
    ensures { result ≡ sight.owns caller.now (row_of row.now) }
{
    row.key.owner.is(caller)
}

pub fn grant_to<'a>(caller: &Text, grants: &'a [Grant]) -> Option<&'a Grant>
    ensures { option_copied result ≡ find (sight.is_grant_to caller.now) grants.now }
{
    grants.iter().find(|grant| grant.partner.is(caller))
}

pub fn is_granted(caller: &Text, grants: &[Grant]) -> bool
    ensures { result ≡ list_any (sight.is_grant_to caller.now) grants.now }
{
    grants.iter().any(|grant| grant.partner.is(caller))
}

pub fn sees_group(caller: &Text, group: &RowRef<'_, Listing>) -> bool
    ensures { result ≡ sight.sees_group caller.now (row_of group.now) }
{
    owns(caller, group) || is_granted(caller, group.grants)
}

pub fn group_right(caller: &Text, group: &RowRef<'_, Listing>) -> Right
    ensures { result ≡ sight.group_right caller.now (row_of group.now) }
{
    group_right_where(caller, group, owns(caller, group))
}

/// What the partner may do with the group, where it is his or isn't.
pub fn group_right_where(caller: &Text, group: &RowRef<'_, Listing>, owned: bool) -> Right
    requires { owned ≡ sight.owns caller.now (row_of group.now) }
    ensures { result ≡ sight.group_right caller.now (row_of group.now) }
{
    if owned {
        Right::Owns
    } else if is_granted(caller, group.grants) {
        Right::Reads
    } else {
        Right::Unseen
    }
}

pub fn has_key(key: &Key, keys: &[Key]) -> bool
    ensures { result ≡ lists_key key.now keys.now }
{
    keys.iter().any(|other| key.is(other))
}

fn is_group_level(level: Level) -> bool
    ensures { result ≡ sight.is_group_level level }
{
    match level {
        Level::Read => false,
        Level::Group | Level::Write => true,
    }
}

fn is_granted_group(partner: &Text, grants: &[Grant]) -> bool
    ensures { result ≡ list_any (sight.is_group_grant partner.now) grants.now }
{
    grants.iter().any(|grant| grant.partner.is(partner) && is_group_level(grant.level))
}

fn may_group(partner: &Text, model: &RowRef<'_, Indexed>) -> bool
    ensures { result ≡ sight.may_group partner.now (row_of model.now) }
{
    owns(partner, model) || is_granted_group(partner, model.grants)
}

/// Whether the model counts in the group, if the group lists it.
pub fn counts_if_listed(model: &RowRef<'_, Indexed>, group: &RowRef<'_, Listing>) -> bool
    ensures { result ≡ fits (row_of group.now) (row_of model.now) }
{
    model.holds.get().schema.is(&group.holds.schema) && may_group(&group.key.owner, model)
}

/// Whether the model counts in the group.
pub fn counts(model: &RowRef<'_, Indexed>, group: &RowRef<'_, Listing>) -> bool
    ensures { result ≡ sight.counts (row_of model.now) (row_of group.now) }
{
    has_key(model.key, group.holds.members.as_slice()) && counts_if_listed(model, group)
}

pub fn right_of(level: Level) -> Right
    ensures { result ≡ sight.right_of level }
{
    match level {
        Level::Read => Right::Reads,
        Level::Group => Right::Groups,
        Level::Write => Right::Writes,
    }
}

fn rank(right: Right) -> usize
    ensures { result ≡ sight.rank right }
{
    match right {
        Right::Unseen => 0,
        Right::Reads => 1,
        Right::Groups => 2,
        Right::Writes => 3,
        Right::Owns => 4,
    }
}

pub fn at_least(needed: Right, right: Right) -> bool
    ensures { result ≡ sight.at_least needed right }
{
    rank(needed) <= rank(right)
}
