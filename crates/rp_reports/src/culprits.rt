//! Culprits by their places.

ghost use Rattle.std.specs.Prelude.{◌≡◌, map, IfOk, IfSome};
ghost use Rattle.rp_positions.specs.Positions.{counted_key};

use crate::ruled_schema::RuledSchema;
use ex_named::AttributePlace;
use ex_types::CheckedSchema;
use plain_data::{Items, Rows, Text};
use rp_group_domain::{CountedModel, PlacedInstance};
use rp_meaning::Culprit;
use rp_plain::reports::ToldCulprit;
use rp_rows::rows::Key;
use shared::Shared;
use sqlite_items::at;
use std::alloc::{AllocError, Global};

/// What tells who stands at a position of a population of a schema.
pub(crate) struct Telling<'a, 's> {
    schema: &'a RuledSchema<'s>,
    population: &'a [PlacedInstance<'a>],
    /// Of the models of the population, in their order. All culprits of a model share its key.
    keys: Items<Shared<Key>>,
}

impl<'a, 's> Drop for Telling<'a, 's> {
    fn drop(self) {
        let Telling {
            schema: _,
            population: _,
            keys,
        } = self;
        drop(keys);
    }
}

/// The keys of models.
fn keys_of(alloc: Global, models: &[CountedModel<'_>]) -> Result<Items<Shared<Key>>, AllocError>
    ensures { IfOk result (λ keys. keys ≡ map counted_key models.now) }
{
    let mut keys = Items::from_vec(Vec::with_capacity(alloc, models.len())?);
    for model in models {
        let key = model.key.copy(alloc)?;
        keys.push(Shared::new(alloc, key)?)?;
    }
    Ok(keys)
}

/// The key among these, which are in their order.
fn held<'k>(keys: &'k [Shared<Key>], key: &Key) -> Option<&'k Shared<Key>>
    ensures { IfSome result (λ shared. shared.now ≡ key.now) }
{
    match keys.binary_search_by(|other| other.get().order(key)) {
        Ok(place) => Some(&keys[place]),
        Err(_) => None,
    }
}

/// The key, which is shared with the one among these.
fn shared_key(alloc: Global, keys: &[Shared<Key>], key: &Key) -> Result<Shared<Key>, AllocError>
    ensures { IfOk result (λ shared. shared ≡ key.now) }
{
    match held(keys, key) {
        Some(shared) => shared.share(),
        None => Shared::new(alloc, key.copy(alloc)?),
    }
}

impl<'a, 's> Telling<'a, 's> {
    ghost use Rattle.std.specs.Prelude.{◌≡◌, ◌++◌, IfOk, OnOk};
    ghost use Rattle.std.specs.Option.{option_and_then, option_to_list};
    ghost use Rattle.rp_plain.specs.Reports as spec;

    /// Of the population of these models of a schema.
    pub(crate) fn of(
        alloc: Global,
        schema: &'a RuledSchema<'s>,
        models: &[CountedModel<'_>],
        population: &'a [PlacedInstance<'a>],
    ) -> Result<Telling<'a, 's>, AllocError>
        ensures schema { IfOk result (λ telling. telling.schema.now ≡ schema.now) }
        ensures population { IfOk result (λ telling. telling.population.now ≡ population.now) }
    {
        let keys = keys_of(alloc, models)?;
        Ok(Telling {
            schema,
            population,
            keys,
        })
    }

    /// The schema of the population.
    pub(crate) fn schema(&self) -> &'s CheckedSchema
        ensures { result.now ≡ self.now.schema.now }
    {
        self.schema.checked()
    }

    /// What an attribute is called, where one is told.
    fn attribute_name(
        &self,
        attribute: Option<AttributePlace>,
    ) -> Result<Option<Shared<Text>>, AllocError>
        ensures { IfOk result (λ name. name ≡ option_and_then (spec.attribute_name self.now.schema.now) attribute) }
    {
        let Some(attribute) = attribute else {
            return Ok(None);
        };
        match self.schema.attribute_name(&attribute) {
            None => Ok(None),
            Some(name) => Ok(Some(name.share()?)),
        }
    }

    /// Adds who stands at the position.
    fn push_told(
        &self,
        alloc: Global,
        found: &mut Rows<ToldCulprit>,
        culprit: &Culprit,
    ) -> Result<(), AllocError>
        ensures { OnOk result (found.new ≡ found.old ++ option_to_list (spec.told_culprit self.now.schema.now self.now.population.now culprit.now)) }
    {
        let Some(instance) = at(self.population, culprit.instance) else {
            return Ok(());
        };
        let attribute = self.attribute_name(culprit.attribute)?;
        found.push(ToldCulprit {
            model: shared_key(alloc, self.keys.as_slice(), instance.model)?,
            instance: instance.instance.name,
            attribute,
        })
    }

    /// Culprits by their places.
    pub(crate) fn culprits(
        &self,
        alloc: Global,
        culprits: &[Culprit],
    ) -> Result<Rows<ToldCulprit>, AllocError>
        ensures { IfOk result (λ found. found ≡ spec.told_culprits self.now.schema.now self.now.population.now culprits.now) }
    {
        let mut found = Rows::from_vec(Vec::with_capacity(alloc, culprits.len())?);
        for culprit in culprits {
            self.push_told(alloc, &mut found, culprit)?;
        }
        Ok(found)
    }
}
