//! What a partner may do with models. Of groups only those are looked at that he is granted, or those that may list the model:
//! in one of his own nothing counts but what is his or granted to him.

ghost use Rattle.std.specs.Prelude.{◌≡◌, false, None, option_copied, if◌then◌else◌};
ghost use Rattle.std.specs.List.{find, list_any};
ghost use Rattle.sorted_tables.specs.Table.{IsAscending};
ghost use Rattle.rp_rows.specs.Rows.{key_cmp, row_key, is_row, key_of};
ghost use Rattle.rp_rows.specs.Sight as sight;
ghost use Rattle.rp_sight.specs.Stored.{row_of};
ghost use Rattle.rp_sight.specs.Seen.{level_by};
ghost use Rattle.rp_listers.specs.Kept as kept;
ghost use Rattle.rp_sight.specs.Granted.{granted_of, TellsGranted, shows, counts_under, counts_in_any};
ghost use Rattle.rp_sight.specs.Told.{KeepsListed, shows_at, shows_first, counts_told};

use crate::groups::Groups;
use crate::rows::{RowRef, Table};
use crate::sight::{counts, grant_to, is_granted, owns, right_of};
use plain_data::{Rows, Text};
use rp_index::Indexed;
use rp_listers::{Lister, number_of};
use rp_rows::rows::{Listing, Right};
use rp_store::Entry;

/// Whether the model counts in the group of this owner and name, and the partner is granted the group.
fn counts_at(
    groups: &Table<'_, Listing>,
    caller: &Text,
    model: &RowRef<'_, Indexed>,
    owner: &Text,
    name: &Text,
) -> bool
    ensures { result ≡ shows caller.now (row_of model.now) (find (is_row (key_of owner.now name.now)) groups.now.rows) }
{
    match groups.find_for(owner, name) {
        Some(group) => is_granted(caller, group.grants) && counts(model, &group),
        None => false,
    }
}

fn counts_among(
    groups: &Table<'_, Listing>,
    caller: &Text,
    model: &RowRef<'_, Indexed>,
    names: &Entry<Rows<Text>>,
) -> bool
    ensures { result ≡ counts_under caller.now groups.now.rows names.now (row_of model.now) }
{
    names.value.as_slice().iter().any(|name| counts_at(
        groups,
        caller,
        model,
        &names.key.get().name,
        name,
    ))
}

fn counts_among_these(
    groups: &Table<'_, Listing>,
    caller: &Text,
    model: &RowRef<'_, Indexed>,
    granted: &[Entry<Rows<Text>>],
) -> bool
    ensures { result ≡ counts_in_any caller.now groups.now.rows granted.now (row_of model.now) }
{
    granted
        .iter()
        .any(|names| counts_among(groups, caller, model, names))
}

/// Whether the model counts in a group that the partner is granted, by a walk over all that he is granted.
fn counts_in_granted(groups: &Groups, caller: &Text, model: &RowRef<'_, Indexed>) -> bool
    ensures counts { result ≡ counts_in_any caller.now groups.now.rows (granted_of caller.now groups.now.names) (row_of model.now) }
    ensures whole { TellsGranted caller.now (granted_of caller.now groups.now.names) groups.now.rows }
    ensures order { IsAscending key_cmp row_key groups.now.rows }
{
    let table = groups.table();
    // (Its length is asked for since that call promises that the rows stand in order.)
    let _count = table.len();
    let (front, back) = groups.granted_to(caller);
    counts_among_these(&table, caller, model, front)
        || counts_among_these(&table, caller, model, back)
}

/// Whether the model counts in the group of a lister, and the partner is granted the group.
fn counts_for(
    groups: &Table<'_, Listing>,
    caller: &Text,
    model: &RowRef<'_, Indexed>,
    lister: &Lister,
) -> bool
    ensures { result ≡ shows_at caller.now groups.now.rows (row_of model.now) lister.now }
{
    let key = lister.get();
    counts_at(groups, caller, model, &key.owner, &key.name)
}

fn counts_for_first(
    groups: &Table<'_, Listing>,
    caller: &Text,
    model: &RowRef<'_, Indexed>,
    lister: Option<&Lister>,
) -> bool
    ensures { result ≡ shows_first caller.now groups.now.rows (row_of model.now) (option_copied lister.entry) }
{
    match lister {
        Some(lister) => counts_for(groups, caller, model, lister),
        None => false,
    }
}

fn counts_for_one(
    groups: &Table<'_, Listing>,
    caller: &Text,
    model: &RowRef<'_, Indexed>,
    listers: &[Lister],
) -> bool
    ensures { result ≡ list_any (shows_at caller.now groups.now.rows (row_of model.now)) listers.now }
{
    listers
        .iter()
        .any(|lister| counts_for(groups, caller, model, lister))
}

/// Whether the model counts in a group that the partner is granted, by a walk over the groups that may list it.
fn counts_in_listers(
    groups: &Groups,
    caller: &Text,
    model: &RowRef<'_, Indexed>,
    number: u64,
) -> bool
    requires { number ≡ kept.number_of (row_key (row_of model.now)) }
    ensures counts { result ≡ counts_told caller.now groups.now.rows groups.now.listers (row_of model.now) }
    ensures whole { KeepsListed groups.now.listers groups.now.rows }
    ensures order { IsAscending key_cmp row_key groups.now.rows }
{
    let table = groups.table();
    // (as in counts_in_granted)
    let _count = table.len();
    let listers = groups.listers();
    let first = listers.first(number);
    let others = listers.others(number);
    counts_for_first(&table, caller, model, first) || counts_for_one(&table, caller, model, others)
}

/// How many names more than these would be as many as this, if there are fewer.
fn left_of(count: usize, granted: &[Entry<Rows<Text>>]) -> usize {
    let mut left = count;
    for names in granted {
        left = left.saturating_sub(names.value.len());
        if left == 0 {
            return 0;
        }
    }
    left
}

/// Whether the partner is granted fewer groups than this.
fn is_granted_fewer(groups: &Groups, caller: &Text, count: usize) -> bool {
    let (front, back) = groups.granted_to(caller);
    0 < left_of(left_of(count, front), back)
}

/// Whether the model, which is neither the partner's nor granted to him, counts in a group that he sees. Either walk tells, that
/// over the groups that may list the model or that over those that he is granted: the shorter one is taken.
fn is_counted(groups: &Groups, caller: &Text, model: &RowRef<'_, Indexed>) -> bool
    requires apart { sight.owns caller.now (row_of model.now) ≡ false }
    requires none { find (sight.is_grant_to caller.now) model.now.grants.now ≡ None }
    ensures { result ≡ sight.is_counted groups.now.rows caller.now (row_of model.now) }
{
    let number = number_of(model.key);
    let others = groups.listers().others(number);
    if is_granted_fewer(groups, caller, others.len()) {
        counts_in_granted(groups, caller, model)
    } else {
        counts_in_listers(groups, caller, model, number)
    }
}

/// What the partner may do with the model, where it is his or isn't and counts so in groups that he is granted.
pub fn level_where(caller: &Text, model: &RowRef<'_, Indexed>, owned: bool, counted: bool) -> Right
    requires { owned ≡ sight.owns caller.now (row_of model.now) }
    ensures { result ≡ level_by caller.now (row_of model.now) counted }
{
    if owned {
        return Right::Owns;
    }
    match grant_to(caller, model.grants) {
        Some(grant) => right_of(grant.level),
        None => { if counted { Right::Reads } else { Right::Unseen } }
    }
}

/// What the partner may do with the model.
pub fn level(groups: &Groups, caller: &Text, model: &RowRef<'_, Indexed>) -> Right
    ensures { result ≡ sight.level groups.now.rows caller.now (row_of model.now) }
{
    if owns(caller, model) {
        return Right::Owns;
    }
    match grant_to(caller, model.grants) {
        Some(grant) => right_of(grant.level),
        None => {
            if is_counted(groups, caller, model) {
                Right::Reads
            } else {
                Right::Unseen
            }
        }
    }
}
