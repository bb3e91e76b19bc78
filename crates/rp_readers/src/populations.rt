//! The populations of groups: the instances of an entity, and the users of an instance.

ghost use Rattle.std.specs.Prelude.{◌≡◌, ◌==◌, ◌&&◌, map, option_copied, IfOk};
ghost use Rattle.std.specs.List.{list_any};
ghost use Rattle.rp_content.specs.declared.instance.Instance.{Instance};
ghost use Rattle.rp_rows.specs.Sight as sight;
ghost use Rattle.rp_population.specs.Populations.{population, places, has_place as HasPlace};
ghost use Rattle.rp_population.specs.Entities as entities;
ghost use Rattle.rp_population.specs.Uses as uses;
ghost use Rattle.rp_plain.specs.Populations as of_populations;
ghost use Rattle.rp_sight.specs.Stored.{row_of};
ghost use Rattle.rp_readers.specs.Listed.{counted_of};
ghost use Rattle.rp_readers.specs.Told.{told};

use crate::readers::Readers;
use ex_loaded::LoadedSchema;
use plain_data::{Rows, Text};
use rp_content::Instances;
use rp_index::Indexed;
use rp_population::{Extent, Place, Users};
use rp_rows::rows::{Key, Listing};
use rp_sight::{RowRef, counts};
use std::alloc::{AllocError, Global};

/// The schema of the group, if the partner sees it.
pub fn group_schema<'s>(asked: &Readers<'_, 's>, key: &Key) -> Option<&'s LoadedSchema<'s>>
    ensures { option_copied result ≡ of_populations.group_schema (told asked.now).schemas ((told asked.now).listing key.now) }
{
    match asked.listing(key) {
        Some(listing) => asked.schema_named(&listing.schema),
        None => None,
    }
}

// ---- extents

/// The instances in some models, one model after another, of what is looked for.
#[tactic(auto, using(crate::proofs::Walking::extent_walked))]
fn extent_in(
    alloc: Global,
    mut extent: Extent<'_>,
    counted: &[RowRef<'_, Indexed>],
) -> Result<Rows<Place>, AllocError>
    ensures { IfOk result (λ rows. rows ≡ places (entities.extent_of extent.entry.schema extent.entry.entity (population (map counted_of counted.now)))) }
{
    let mut found = Vec::new(alloc);
    for model in counted {
        extent.push(alloc, &mut found, model.key, model.holds)?;
    }
    Ok(Rows::from_vec(found))
}

/// The instances of an entity in models of this schema.
pub fn extent_by<'s>(
    alloc: Global,
    schema: Option<&'s LoadedSchema<'s>>,
    entity: &Text,
    counted: &[RowRef<'_, Indexed>],
) -> Result<Rows<Place>, AllocError>
    ensures { IfOk result (λ rows. rows ≡ places (of_populations.extent_by (option_copied schema.entry) entity.now (population (map counted_of counted.now)))) }
{
    let Some(schema) = schema else {
        return Ok(Rows::new(alloc));
    };
    let extent = Extent::of(alloc, schema.dictionary(), entity)?;
    extent_in(alloc, extent, counted)
}

// ---- users

/// Whether an instance has this name. The others aren't walked over.
fn has_instance(name: u64, instances: &Instances) -> bool
    ensures { result ≡ list_any (λ (i : Instance). i.name == name) instances.now }
{
    instances.get(name).is_some()
}

/// Whether the model counts in the group, and has the instance.
fn counts_with(model: &RowRef<'_, Indexed>, group: &RowRef<'_, Listing>, instance: u64) -> bool
    ensures { result ≡ (sight.counts (row_of model.now) (row_of group.now) && list_any (λ (i : Instance). i.name == instance) model.now.holds.now.content.instances) }
{
    counts(model, group) && has_instance(instance, &model.holds.get().content.instances)
}

/// Whether an instance of the group's population stands at the place, if the partner sees the group. No list of the
/// population is made for it.
pub fn has_place(asked: &Readers<'_, '_>, group: &Key, place: &Place) -> bool
    ensures { result ≡ HasPlace (population ((told asked.now).counted group.now)) place.now }
{
    let Some(group) = asked.group(group) else {
        return false;
    };
    match asked.models.find(place.key()) {
        Some(model) => counts_with(&model, &group, place.instance),
        None => false,
    }
}

/// The users in some models, one model after another, of what is asked of.
#[tactic(auto, using(crate::proofs::Walking::users_walked))]
fn users_in(
    alloc: Global,
    mut users: Users<'_>,
    counted: &[RowRef<'_, Indexed>],
) -> Result<Rows<Place>, AllocError>
    ensures { IfOk result (λ rows. rows ≡ places (uses.users_in users.entry.schema users.entry.role users.entry.of (population (map counted_of counted.now)))) }
{
    let mut found = Vec::new(alloc);
    for model in counted {
        users.push(alloc, &mut found, model.key, model.holds)?;
    }
    Ok(Rows::from_vec(found))
}

/// The users of an instance in models of this schema.
pub fn users_by<'s>(
    alloc: Global,
    schema: Option<&'s LoadedSchema<'s>>,
    role: &Text,
    place: &Place,
    counted: &[RowRef<'_, Indexed>],
) -> Result<Rows<Place>, AllocError>
    ensures { IfOk result (λ rows. rows ≡ places (of_populations.users_by (option_copied schema.entry) role.now place.now (population (map counted_of counted.now)))) }
{
    let Some(schema) = schema else {
        return Ok(Rows::new(alloc));
    };
    let users = Users::of(alloc, schema.dictionary(), role, place)?;
    users_in(alloc, users, counted)
}
