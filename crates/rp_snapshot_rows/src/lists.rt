//! The lists of rows: their items, and each list whole.
#![tactic(auto, unfolding(crate::specs::Reading::grant_at, crate::specs::Reading::reader_at, crate::specs::Reading::member_at, crate::specs::Reading::link_at))]

ghost use Rattle.std.specs.Prelude.{◌≡◌, ◌<◌, ◌++◌, List, length, OnOk};
ghost use Rattle.std.specs.List.{AllByRecursion};
ghost use Rattle.json.specs.Token.{Token as SpecToken};
ghost use Rattle.rp_content.specs.declared.link.Link.{Link as SpecLink};
ghost use Rattle.rp_rows.specs.declared.rows.Grant.{Grant as SpecGrant};
ghost use Rattle.rp_rows.specs.declared.rows.Key.{Key as SpecKey};
ghost use Rattle.rp_snapshot_rows.specs.Reading as spec;
ghost use Rattle.rp_snapshot_rows.specs.Reading.{Gives};
ghost use Rattle.rp_json.specs.Tokens.{listed};
ghost use Rattle.rp_snapshot_rows.specs.Tokens.{grant_tokens, reader_tokens, member_tokens, link_tokens};
ghost use Rattle.rp_snapshot_rows.specs.Again.{Again, HasNumbers, IsToRead};

use crate::lack::Lack;
use crate::members::numbered;
use crate::tokens::{begin_array, begin_object, end_array, end_object, string};
use json::Reader;
use plain_data::{Failure, Items, Rows, Text};
use rp_content::Link;
use rp_rows::rows::{Grant, Key, Level};
use std::alloc::Global;

fn level_of(word: &str) -> Option<Level>
    ensures { result ≡ spec.level_of word.now }
{
    match word {
        "read" => Some(Level::Read),
        "group" => Some(Level::Group),
        "write" => Some(Level::Write),
        _ => None,
    }
}

/// A list of two texts.
#[tactic(auto, unfolding(crate::specs::Reading::pair_at))]
fn pair<'a>(reader: &mut Reader<'a>) -> Result<(&'a str, &'a str), Failure<Lack>>
    ensures read { Gives (λ p. (p.0.now, p.1.now)) result reader.new (spec.pair_at reader.old) }
    ensures shorter { OnOk result (length reader.new < length reader.old) }
{
    begin_array(reader)?;
    let first = string(reader)?;
    let second = string(reader)?;
    end_array(reader)?;
    Ok((first, second))
}

/// A grant on a model.
fn grant(alloc: Global, reader: &mut Reader<'_>) -> Result<Grant, Failure<Lack>>
    ensures read { Gives (λ g. g) result reader.new (spec.grant_at reader.old) }
    ensures shorter { OnOk result (length reader.new < length reader.old) }
{
    let (partner, word) = pair(reader)?;
    let Some(level) = level_of(word) else {
        return Err(Failure::Fault(Lack::Level));
    };
    let partner = Text::from_str(alloc, partner)?;
    Ok(Grant { partner, level })
}

/// A grant on a group.
fn group_grant(alloc: Global, reader: &mut Reader<'_>) -> Result<Grant, Failure<Lack>>
    ensures read { Gives (λ g. g) result reader.new (spec.reader_at reader.old) }
    ensures shorter { OnOk result (length reader.new < length reader.old) }
{
    let partner = string(reader)?;
    let partner = Text::from_str(alloc, partner)?;
    Ok(Grant {
        partner,
        level: Level::Read,
    })
}

/// A model that a group lists.
fn member(alloc: Global, reader: &mut Reader<'_>) -> Result<Key, Failure<Lack>>
    ensures read { Gives (λ k. k) result reader.new (spec.member_at reader.old) }
    ensures shorter { OnOk result (length reader.new < length reader.old) }
{
    let (owner, name) = pair(reader)?;
    let owner = Text::from_str(alloc, owner)?;
    let name = Text::from_str(alloc, name)?;
    Ok(Key { owner, name })
}

/// A link.
fn link(alloc: Global, reader: &mut Reader<'_>) -> Result<Link, Failure<Lack>>
    ensures read { Gives (λ l. l) result reader.new (spec.link_at reader.old) }
    ensures shorter { OnOk result (length reader.new < length reader.old) }
{
    begin_object(reader)?;
    let (target, model) = numbered(reader, "instance", "model")?;
    let (name, owner) = numbered(reader, "name", "owner")?;
    end_object(reader)?;
    let model = Text::from_str(alloc, model)?;
    let owner = Text::from_str(alloc, owner)?;
    Ok(Link {
        name,
        owner,
        model,
        target,
    })
}

/// The grants on a model, behind the bracket that opens their list, and the bracket that closes it.
pub(crate) fn grants(alloc: Global, reader: &mut Reader<'_>) -> Result<Rows<Grant>, Failure<Lack>>
    ensures again { (gs : List SpecGrant) (rest : List SpecToken) → reader.old ≡ listed grant_tokens gs ++ rest → Again (λ x. x) result gs reader.new rest }
    ensures shorter { OnOk result (length reader.new < length reader.old) }
{
    let mut grants = Rows::new(alloc);
    'grants: while !reader.take_end_array() {
        let grant = grant(alloc, reader)?;
        grants.push(grant)?;
    }
    Ok(grants)
}

/// The grants on a group, behind the bracket that opens their list, and the bracket that closes it.
pub(crate) fn group_grants(
    alloc: Global,
    reader: &mut Reader<'_>,
) -> Result<Rows<Grant>, Failure<Lack>>
    ensures again { (gs : List SpecGrant) (rest : List SpecToken) → AllByRecursion IsToRead gs → reader.old ≡ listed reader_tokens gs ++ rest → Again (λ x. x) result gs reader.new rest }
    ensures shorter { OnOk result (length reader.new < length reader.old) }
{
    let mut grants = Rows::new(alloc);
    'grants: while !reader.take_end_array() {
        let grant = group_grant(alloc, reader)?;
        grants.push(grant)?;
    }
    Ok(grants)
}

/// The models that a group lists, behind the bracket that opens their list, and the bracket that closes it.
pub(crate) fn members(alloc: Global, reader: &mut Reader<'_>) -> Result<Rows<Key>, Failure<Lack>>
    ensures again { (ks : List SpecKey) (rest : List SpecToken) → reader.old ≡ listed member_tokens ks ++ rest → Again (λ x. x) result ks reader.new rest }
    ensures shorter { OnOk result (length reader.new < length reader.old) }
{
    let mut members = Rows::new(alloc);
    'members: while !reader.take_end_array() {
        let member = member(alloc, reader)?;
        members.push(member)?;
    }
    Ok(members)
}

/// The links of a model, behind the bracket that opens their list, and the bracket that closes it.
pub(crate) fn links(alloc: Global, reader: &mut Reader<'_>) -> Result<Items<Link>, Failure<Lack>>
    ensures again { (ls : List SpecLink) (rest : List SpecToken) → AllByRecursion HasNumbers ls → reader.old ≡ listed link_tokens ls ++ rest → Again (λ x. x) result ls reader.new rest }
    ensures shorter { OnOk result (length reader.new < length reader.old) }
{
    let mut links = Items::new(alloc);
    'links: while !reader.take_end_array() {
        let link = link(alloc, reader)?;
        links.push(link)?;
    }
    Ok(links)
}
