//! What a partner is told in lists: the schemas, and the models and groups that he sees.
#![tactic(auto, unfolding(crate::specs::Told::told))]

ghost use Rattle.std.specs.Prelude.{◌≡◌, map, IfOk};
ghost use Rattle.rp_plain.specs.Lists.{schema_names};
ghost use Rattle.rp_sight.specs.Seen.{seen_of};
ghost use Rattle.rp_readers.specs.Told.{told, model_told, group_told};

use crate::readers::Readers;
use crate::schemas::sorted_names;
use plain_data::{Rows, Text};
use rp_index::Indexed;
use rp_plain::lists::Item;
use rp_rows::rows::{Key, Listing, Right};
use rp_sight::Seen;
use std::alloc::{AllocError, Global};

fn item(alloc: Global, key: &Key, schema: &Text, right: Right) -> Result<Item, AllocError>
    ensures { IfOk result (λ item. item ≡ record { owner = key.now.owner; name = key.now.name; schema = schema.now; right = right }) }
{
    let owner = key.owner.copy(alloc)?;
    let name = key.name.copy(alloc)?;
    let schema = schema.copy(alloc)?;
    Ok(Item {
        owner,
        name,
        schema,
        right,
    })
}

/// The models that a partner sees, as they are told.
fn model_rows(alloc: Global, seen: &[Seen<'_, Indexed>]) -> Result<Rows<Item>, AllocError>
    ensures { IfOk result (λ rows. rows ≡ map (λ s. model_told (seen_of s)) seen.now) }
{
    let mut rows = Vec::with_capacity(alloc, seen.len())?;
    for model in seen {
        let holds = model.row.holds.get();
        rows.push(item(alloc, model.row.key, &holds.schema, model.right)?)?;
    }
    Ok(Rows::from_vec(rows))
}

/// The groups that a partner sees, as they are told.
fn group_rows(alloc: Global, seen: &[Seen<'_, Listing>]) -> Result<Rows<Item>, AllocError>
    ensures { IfOk result (λ rows. rows ≡ map (λ s. group_told (seen_of s)) seen.now) }
{
    let mut rows = Vec::with_capacity(alloc, seen.len())?;
    for group in seen {
        let holds = group.row.holds;
        rows.push(item(alloc, group.row.key, &holds.schema, group.right)?)?;
    }
    Ok(Rows::from_vec(rows))
}

impl<'a, 's> Readers<'a, 's> {
    /// The names of the schemas, in byte order.
    pub fn schema_names(&self, alloc: Global) -> Result<Rows<Text>, AllocError>
        ensures { IfOk result (λ names. names ≡ schema_names (told self.now).schemas) }
    {
        sorted_names(alloc, self.schemas)
    }

    /// The models that the partner sees.
    pub fn model_items(&self, alloc: Global) -> Result<Rows<Item>, AllocError>
        ensures { IfOk result (λ rows. rows ≡ (told self.now).models) }
    {
        let seen = self.access.visible_models(alloc, self.models, self.caller)?;
        model_rows(alloc, &seen)
    }

    /// The groups that the partner sees.
    pub fn group_items(&self, alloc: Global) -> Result<Rows<Item>, AllocError>
        ensures { IfOk result (λ rows. rows ≡ (told self.now).groups) }
    {
        let seen = self.access.visible_groups(alloc, self.caller)?;
        group_rows(alloc, &seen)
    }
}
