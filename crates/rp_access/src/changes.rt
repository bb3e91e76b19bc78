//! Changes of who may do what with models, and of groups.

use plain_data::Text;
use rp_rows::rows::{Key, Level};
use std::alloc::AllocError;

/// A change of groups, or of who may do what with models and groups.
#[derive(Drop)]
pub enum Change {
    /// Rights on one model more, with no grant.
    CreateModel(Key),
    /// A group of a schema, without members.
    CreateGroup(Key, Text),
    /// Its grants are gone.
    RemoveModel(Key),
    RemoveGroup(Key),
    /// The partner has this level on it from now on.
    GrantModel(Key, Text, Level),
    /// The partner may read it from now on.
    GrantGroup(Key, Text),
    RevokeModel(Key, Text),
    RevokeGroup(Key, Text),
    /// The group, and the model that it lists from now on.
    Include(Key, Key),
    Exclude(Key, Key),
}

/// Why a change isn't made.
#[derive(Clone, Copy, PartialEq, Eq)]
pub enum AccessFault {
    /// An item of that owner and name is there.
    Exists,
    /// No such item is there.
    Absent,
    /// The model is a member, or none that is excluded.
    Membership,
    /// The owner has as many items as he may, or the group as many members.
    TooMany,
    NoMemory,
}

impl From<AllocError> for AccessFault {
    ghost use Rattle.std.specs.Prelude.{◌≡◌};
    ghost use Rattle.rp_access.specs.declared.changes.AccessFault.TheVariants.{NoMemory};

    ghost from_gives = { λ _ e. e ≡ NoMemory };

    fn from(_error: AllocError) -> AccessFault {
        AccessFault::NoMemory
    }
}
