//! Changes of groups, and what is still to be done of one, with all the memory that it takes.

ghost use Rattle.std.specs.Prelude.{◌≡◌, IfOk};
ghost use Rattle.rp_rows.specs.Rows.{key_of};
ghost use Rattle.rp_rows.specs.Alterations.{altered};
ghost use Rattle.rp_sight.specs.Regrants.{RegrantFits};
ghost use Rattle.rp_access.specs.Steps.{alteration_of, group_stepped, GroupFits};

use crate::regranted::regranted_for;
use crate::relisted::relisted;
use plain_data::Text;
use rp_rows::rows::{Key, Level, Listing};
use rp_sight::{Groups, Regrant};
use shared::Shared;
use std::alloc::{AllocError, Global};

/// What is done to what stands under a key.
#[derive(Drop)]
pub enum Altered<A> {
    Hold(A),
    Remove,
    /// One partner's grant.
    Grants(Text, Option<Level>),
}

/// A change of the group of a key, with all the memory that it takes.
#[derive(Drop)]
pub enum GroupStep {
    /// The key once more, and what is held there.
    Put(Shared<Key>, Listing),
    Remove,
    Regrant(Regrant),
}

/// One partner's grant on a group, with room for it.
fn regrant_for(
    alloc: Global,
    groups: &mut Groups,
    key: &Key,
    to: Text,
    level: Option<Level>,
) -> Result<Regrant, AllocError>
    ensures rows { groups.new.rows ≡ groups.old.rows }
    ensures fits { IfOk result (λ r. RegrantFits key.now r groups.new) }
    ensures under { IfOk result (λ r. r.under ≡ key_of to key.now.owner) }
    ensures level { IfOk result (λ r. r.level ≡ level) }
{
    let owner = key.owner.copy(alloc)?;
    let names = relisted(alloc, &key.name, level, groups.names_for(&to, &owner))?;
    let again = to.copy(alloc)?;
    let grants = regranted_for(alloc, to, level, groups.table().grants_at(key))?;
    groups.reserve_names()?;
    let under = Shared::new(
        alloc,
        Key {
            owner: again,
            name: owner,
        },
    )?;
    Ok(Regrant {
        level,
        grants,
        under,
        names,
    })
}

/// The step that a change of a group comes to, with room for it.
pub fn group_step(
    alloc: Global,
    groups: &mut Groups,
    key: &Shared<Key>,
    change: Altered<Listing>,
) -> Result<GroupStep, AllocError>
    ensures rows { groups.new.rows ≡ groups.old.rows }
    ensures fits { IfOk result (λ step. GroupFits key.now step groups.new) }
    ensures makes { IfOk result (λ step. group_stepped key.now step groups.old.rows ≡ altered key.now (alteration_of change) groups.old.rows) }
{
    match change {
        Altered::Hold(listing) => {
            let again = key.share()?;
            groups.reserve(alloc, key.get(), &listing)?;
            Ok(GroupStep::Put(again, listing))
        }
        Altered::Remove => Ok(GroupStep::Remove),
        Altered::Grants(to, level) => {
            let regrant = regrant_for(alloc, groups, key.get(), to, level)?;
            Ok(GroupStep::Regrant(regrant))
        }
    }
}

/// Makes the step. It takes no memory.
pub fn make_group_step(groups: &mut Groups, key: Shared<Key>, step: GroupStep)
    requires { GroupFits key step groups.old }
    ensures { groups.new.rows ≡ group_stepped key step groups.old.rows }
{
    match step {
        GroupStep::Put(again, listing) => groups.put(key, again, listing),
        GroupStep::Remove => groups.remove(key.get()),
        GroupStep::Regrant(regrant) => groups.regrant(key.get(), regrant),
    }
}
