//! Why a change of groups and rights isn't made.

ghost use Rattle.std.specs.Prelude.{◌≡◌, option_map};
ghost use Rattle.rp_sight.specs.Stored.{row_of};
ghost use Rattle.rp_access.specs.Changes as changes;

use crate::changes::AccessFault;
use rp_rows::limits::MAX_MEMBERS;
use rp_rows::rows::{Key, Listing};
use rp_sight::{RowRef, has_key};

/// Of an item that is there, or whose owner has as many as he may.
pub fn is_new(there: bool, count: usize, most: usize) -> Option<AccessFault>
    ensures { result ≡ changes.is_new there count most }
{
    if there {
        Some(AccessFault::Exists)
    } else if count >= most {
        Some(AccessFault::TooMany)
    } else {
        None
    }
}

/// Of an item that isn't there.
pub fn is_there(there: bool) -> Option<AccessFault>
    ensures { result ≡ changes.is_there there }
{
    if there {
        None
    } else {
        Some(AccessFault::Absent)
    }
}

/// Of a group that isn't there, or can't list the model more.
pub fn is_listable(model: &Key, group: Option<RowRef<'_, Listing>>) -> Option<AccessFault>
    ensures { result ≡ changes.is_listable model.now (option_map row_of group.entry) }
{
    let Some(group) = group else {
        return Some(AccessFault::Absent);
    };
    let members = group.holds.members.as_slice();
    if has_key(model, members) {
        return Some(AccessFault::Membership);
    }
    if members.len() >= MAX_MEMBERS {
        return Some(AccessFault::TooMany);
    }
    None
}

/// Of a group that isn't there, or doesn't list the model.
pub fn is_unlistable(model: &Key, group: Option<RowRef<'_, Listing>>) -> Option<AccessFault>
    ensures { result ≡ changes.is_unlistable model.now (option_map row_of group.entry) }
{
    let Some(group) = group else {
        return Some(AccessFault::Absent);
    };
    if has_key(model, group.holds.members.as_slice()) {
        None
    } else {
        Some(AccessFault::Membership)
    }
}
