//! Requests to grant and to revoke.

ghost use Rattle.std.specs.Prelude.{◌≡◌, ℕ, List, false, codes};
ghost use Rattle.std.specs.Str.{bytes_eq};
ghost use Rattle.serde_json.specs.View.{members_view};
ghost use Rattle.rp_requests.specs.Asks.{text_in, kind_of, kind_in, level_of, level_in, grant_for, grant_of, revoke_for, revoke_of};

use crate::members::{Members, take_text};
use plain_data::Text;
use rp_plain::messages::Request;
use rp_rows::rows::Level;
use shallow_json::has_only_keys;

/// What may be granted.
#[derive(Clone, Copy)]
pub(crate) enum ItemKind {
    Model,
    Group,
}

pub(crate) fn grant(mut members: Members) -> Option<Request>
    ensures { result ≡ grant_of (members_view members.entries) }
{
    if !has_only_keys(&members, &["kind", "level", "name", "to"]) {
        return None;
    }
    let kind = take_kind(&mut members)?;
    let level = take_level(&mut members)?;
    let name = take_text(&mut members, "name")?;
    let to = take_text(&mut members, "to")?;
    grant_for(kind, name, to, level)
}

pub(crate) fn revoke(mut members: Members) -> Option<Request>
    ensures { result ≡ revoke_of (members_view members.entries) }
{
    if !has_only_keys(&members, &["kind", "name", "to"]) {
        return None;
    }
    let kind = take_kind(&mut members)?;
    let name = take_text(&mut members, "name")?;
    let to = take_text(&mut members, "to")?;
    Some(revoke_for(kind, name, to))
}

/// A group may be granted to be read alone.
fn grant_for(kind: ItemKind, name: Text, to: Text, level: Level) -> Option<Request>
    ensures { result ≡ grant_for kind name to level }
{
    match (kind, level) {
        (ItemKind::Model, _) => Some(Request::GrantModel { name, to, level }),
        (ItemKind::Group, Level::Read) => Some(Request::GrantGroup { name, to }),
        (ItemKind::Group, _) => None,
    }
}

fn revoke_for(kind: ItemKind, name: Text, to: Text) -> Request
    ensures { result ≡ revoke_for kind name to }
{
    match kind {
        ItemKind::Model => Request::RevokeModel { name, to },
        ItemKind::Group => Request::RevokeGroup { name, to },
    }
}

/// Takes out the kind of an item.
fn take_kind(members: &mut Members) -> Option<ItemKind>
    ensures kind { result ≡ kind_in (members_view members.old.entries) }
    ensures others { (other : List ℕ) → bytes_eq (codes "kind") other ≡ false
        → text_in other (members_view members.new.entries)
        ≡ text_in other (members_view members.old.entries) }
{
    match take_text(members, "kind") {
        Some(word) => kind_of(word.as_str()),
        None => None,
    }
}

fn kind_of(word: &str) -> Option<ItemKind>
    ensures { result ≡ kind_of word.now }
{
    match word {
        "model" => Some(ItemKind::Model),
        "group" => Some(ItemKind::Group),
        _ => None,
    }
}

/// Takes out a level.
fn take_level(members: &mut Members) -> Option<Level>
    ensures level { result ≡ level_in (members_view members.old.entries) }
    ensures others { (other : List ℕ) → bytes_eq (codes "level") other ≡ false
        → text_in other (members_view members.new.entries)
        ≡ text_in other (members_view members.old.entries) }
{
    match take_text(members, "level") {
        Some(word) => level_of(word.as_str()),
        None => None,
    }
}

fn level_of(word: &str) -> Option<Level>
    ensures { result ≡ level_of word.now }
{
    match word {
        "read" => Some(Level::Read),
        "group" => Some(Level::Group),
        "write" => Some(Level::Write),
        _ => None,
    }
}
