//! Rows from tokens.
#![tactic(auto, unfolding(crate::specs::Reading::file_at, crate::specs::Reading::greatest_at, crate::specs::Reading::tail_at))]

ghost use Rattle.std.specs.Prelude.{◌≡◌, ◌<◌, ◌++◌, ◌∷◌, ℕ, List, length, OnOk};
ghost use Rattle.std.specs.List.{AllByRecursion};
ghost use Rattle.json.specs.Token.{Token as SpecToken, begin_object, begin_array, key as key_token};
ghost use Rattle.rp_rows.specs.Rows.{Model as SpecModel, GroupRow as SpecGroup};
ghost use Rattle.rp_snapshot_rows.specs.Reading as spec;
ghost use Rattle.rp_snapshot_rows.specs.Reading.{Gives};
ghost use Rattle.rp_snapshot_rows.specs.Written.{model_data, group_data};
ghost use Rattle.rp_json.specs.Tokens.{tokens_of};
ghost use Rattle.rp_snapshot_rows.specs.Tokens.{behind_file};
ghost use Rattle.rp_snapshot_rows.specs.Again.{Again, Passed, saved_model, saved_group, HasModelNumbers, IsToRead};

use crate::lack::Lack;
use crate::lists::{grants, group_grants, links, members};
use crate::members::{first_list_at, list_at, text, whole};
use crate::rows::{SavedGroup, SavedModel};
use crate::tokens::{begin_object, end_object};
use json::Reader;
use plain_data::{Failure, Text};
use rp_rows::rows::{Key, Listing};
use std::alloc::Global;

/// The brace of an object, and the bracket that opens its first list, which is of this name.
pub fn first_list(reader: &mut Reader<'_>, name: &str) -> Result<(), Failure<Lack>>
    ensures again { (rest : List SpecToken) → reader.old ≡ begin_object ∷ key_token name.now ∷ begin_array ∷ rest → Passed result reader.new rest }
    ensures shorter { OnOk result (length reader.new < length reader.old) }
{
    first_list_at(reader, name)
}

/// The bracket that opens the list of this name.
pub fn list(reader: &mut Reader<'_>, name: &str) -> Result<(), Failure<Lack>>
    ensures again { (rest : List SpecToken) → reader.old ≡ key_token name.now ∷ begin_array ∷ rest → Passed result reader.new rest }
    ensures shorter { OnOk result (length reader.new < length reader.old) }
{
    list_at(reader, name)
}

/// What a model has between its grants and its links: its greatest name.
fn greatest(reader: &mut Reader<'_>) -> Result<u64, Failure<Lack>>
    ensures read { Gives (λ n. n) result reader.new (spec.greatest_at reader.old) }
    ensures shorter { OnOk result (length reader.new < length reader.old) }
{
    let greatest = whole(reader, "greatest")?;
    list_at(reader, "links")?;
    Ok(greatest)
}

/// The name, the owner and the schema of a row, and its end: its key and its schema.
fn tail(alloc: Global, reader: &mut Reader<'_>) -> Result<(Key, Text), Failure<Lack>>
    ensures read { Gives (λ t. t) result reader.new (spec.tail_at reader.old) }
    ensures shorter { OnOk result (length reader.new < length reader.old) }
{
    let name = text(reader, "name")?;
    let owner = text(reader, "owner")?;
    let schema = text(reader, "schema")?;
    end_object(reader)?;
    let name = Text::from_str(alloc, name)?;
    let owner = Text::from_str(alloc, owner)?;
    let schema = Text::from_str(alloc, schema)?;
    Ok((Key { owner, name }, schema))
}

fn file<'a>(reader: &mut Reader<'a>) -> Result<&'a str, Failure<Lack>>
    ensures read { Gives (λ file. file.now) result reader.new (spec.file_at reader.old) }
    ensures shorter { OnOk result (length reader.new < length reader.old) }
{
    begin_object(reader)?;
    text(reader, "file")
}

/// The file of a model, whose row begins here.
///
/// # Errors
///
/// No model's row begins here.
pub fn model_file<'a>(reader: &mut Reader<'a>) -> Result<&'a str, Failure<Lack>>
    ensures again { (written : List ℕ) (m : SpecModel) (rest : List SpecToken) → reader.old ≡ tokens_of (model_data written m) ++ rest → Again (λ s. s.now) result written reader.new (behind_file m ++ rest) }
    ensures shorter { OnOk result (length reader.new < length reader.old) }
{
    file(reader)
}

/// The row of a model, behind its file.
///
/// # Errors
///
/// What the tokens lack, or want of memory.
pub fn model_row(alloc: Global, reader: &mut Reader<'_>) -> Result<SavedModel, Failure<Lack>>
    ensures again { (m : SpecModel) (rest : List SpecToken) → HasModelNumbers m → reader.old ≡ behind_file m ++ rest → Again (λ x. x) result (saved_model m) reader.new rest }
    ensures shorter { OnOk result (length reader.new < length reader.old) }
{
    list_at(reader, "grants")?;
    let grants = grants(alloc, reader)?;
    let greatest = greatest(reader)?;
    let links = links(alloc, reader)?;
    let (key, schema) = tail(alloc, reader)?;
    Ok(SavedModel {
        key,
        schema,
        greatest,
        grants,
        links,
    })
}

/// The row of a group.
///
/// # Errors
///
/// What the tokens lack, or want of memory.
pub fn group_row(alloc: Global, reader: &mut Reader<'_>) -> Result<SavedGroup, Failure<Lack>>
    ensures again { (g : SpecGroup) (rest : List SpecToken) → AllByRecursion IsToRead g.grants → reader.old ≡ tokens_of (group_data g) ++ rest → Again (λ x. x) result (saved_group g) reader.new rest }
    ensures shorter { OnOk result (length reader.new < length reader.old) }
{
    first_list_at(reader, "grants")?;
    let grants = group_grants(alloc, reader)?;
    list_at(reader, "members")?;
    let members = members(alloc, reader)?;
    let (key, schema) = tail(alloc, reader)?;
    Ok(SavedGroup {
        key,
        listing: Listing { schema, members },
        grants,
    })
}
