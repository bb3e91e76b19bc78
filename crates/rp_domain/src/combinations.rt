//! What is shared by instances of the same entities, found once for all of a population.

ghost use Rattle.std.specs.Prelude.{◌≡◌, IsTrue};

use crate::combination::{Combination, shared_by};
use crate::others::are_same_others;
use crate::places::Places;
use plain_data::Items;
use rp_meaning::{ReadValue, Schema};
use shared::Shared;
use std::alloc::{AllocError, Global};
use std::collections::BTreeMap;
use std::marker::Model;

/// A schema, with what was found in it for the instances so far. Nothing tells what was found.
pub(crate) struct Combinations<'s> {
    schema: &'s Schema,
    found: Vec<Shared<Combination>>,
    // Where one stands of these, by its entities, and where one does by the last of its entities, which mostly tells. Nothing is
    // proved of either: what stands there is compared.
    places: BTreeMap<Vec<usize>, usize>,
    guesses: Places,
    /// Of the instance before.
    last: usize,
    // By their places, what is read in the last of the instances that share it. Nothing is proved of this either.
    others: Vec<Shared<Items<ReadValue>>>,
}

impl<'s> Drop for Combinations<'s> {
    fn drop(self) {
        let Combinations {
            schema: _,
            found,
            places,
            guesses,
            last: _,
            others,
        } = self;
        drop(found);
        drop(places);
        drop(guesses);
        drop(others);
    }
}

impl<'s> Model for Combinations<'s> {
    ghost use Rattle.rp_meaning.specs.declared.schema.Schema.{Schema};
    ghost use Rattle.rp_domain.specs.Combinations.{AreCombinations};
    ghost use Rattle.std.specs.Coded.{codes};
    ghost use Rattle.rp_meaning.specs.contracts.schema.Schema as declared;

    ghost Value = { Schema };

    ghost coded = { Prim.hlevel (codes, declared.the_row.coded) };

    ghost view = { λ c. c.schema.now };

    ghost invariant = { λ c. AreCombinations c.schema.now c.found.items };
}

/// Whether the numbers are the same.
fn are_same(numbers: &[usize], others: &[usize]) -> bool
    ensures { IsTrue result → numbers.now ≡ others.now }
{
    numbers == others
}

impl<'s> Combinations<'s> {
    ghost use Rattle.std.specs.Prelude.{◌≡◌, IfOk, IfSome};
    ghost use Rattle.rp_domain.specs.Combinations as spec;

    pub(crate) fn new(alloc: Global, schema: &'s Schema) -> Combinations<'s>
        ensures { result ≡ schema.now }
    {
        Combinations {
            schema,
            found: Vec::new(alloc),
            places: BTreeMap::new(alloc),
            guesses: Places::new(alloc),
            last: 0,
            others: Vec::new(alloc),
        }
    }

    /// What instances of these entities share, if it stands at a place.
    fn known(&self, place: usize, entities: &[usize]) -> Option<&Shared<Combination>>
        ensures { IfSome result (λ found. found.now ≡ spec.combination self.now entities.now) }
    {
        match self.found.get(place) {
            Some(found) if are_same(found.get().entities.get().as_slice(), entities) => Some(found),
            _ => None,
        }
    }

    /// Where what instances of these entities share may stand.
    fn place(&self, entities: &[usize]) -> usize {
        match self.places.get(entities) {
            Some(place) => *place,
            None => self.found.len(),
        }
    }

    /// The same by the last of them.
    fn guess(&self, entities: &[usize]) -> usize {
        match entities.last() {
            Some(entity) => self.guesses.get(*entity),
            None => self.found.len(),
        }
    }

    /// Finds what instances of these entities share, and keeps it.
    fn find(
        &mut self,
        alloc: Global,
        entities: Items<usize>,
    ) -> Result<Shared<Combination>, AllocError>
        ensures same { self.new ≡ self.old }
        ensures found { IfOk result (λ found. found ≡ spec.combination self.old entities) }
    {
        let key = Vec::from_slice(alloc, entities.as_slice())?;
        self.guesses
            .set_last(&key, self.schema.entities.len(), self.found.len())?;
        let combination = shared_by(alloc, self.schema, entities)?;
        self.places.insert(key, self.found.len())?;
        self.found.push(combination.share()?)?;
        Ok(combination)
    }

    /// What instances of these entities share.
    pub(crate) fn of(
        &mut self,
        alloc: Global,
        entities: Items<usize>,
    ) -> Result<Shared<Combination>, AllocError>
        ensures same { self.new ≡ self.old }
        ensures found { IfOk result (λ found. found ≡ spec.combination self.old entities) }
    {
        let numbers = entities.as_slice();
        self.last = self.guess(numbers);
        if let Some(found) = self.known(self.last, numbers) {
            return found.share();
        }
        self.last = self.place(numbers);
        if let Some(found) = self.known(self.last, numbers) {
            return found.share();
        }
        self.find(alloc, entities)
    }

    /// What was found to be read in an instance, which it shares with the last one of the same entities where the same is read in
    /// that.
    pub(crate) fn shared(
        &mut self,
        alloc: Global,
        found: &mut Vec<ReadValue>,
    ) -> Result<Shared<Items<ReadValue>>, AllocError>
        ensures same { self.new ≡ self.old }
        ensures shared { IfOk result (λ s. s ≡ found.old.items) }
    {
        match self.others.get(self.last) {
            Some(others) if are_same_others(others.get().as_slice(), found.as_slice()) => {
                others.share()
            }
            _ => self.keep(alloc, found),
        }
    }

    /// Keeps what was found to be read in an instance.
    fn keep(
        &mut self,
        alloc: Global,
        found: &mut Vec<ReadValue>,
    ) -> Result<Shared<Items<ReadValue>>, AllocError>
        ensures same { self.new ≡ self.old }
        ensures shared { IfOk result (λ s. s ≡ found.old.items) }
    {
        let mut items = Vec::with_capacity(alloc, found.len())?;
        items.append(found)?;
        let found = Shared::new(alloc, Items::from_vec(items))?;
        let kept = found.share()?;
        if self.last < self.others.len() {
            self.others[self.last] = kept;
        } else {
            self.others.push(kept)?;
        }
        Ok(found)
    }
}
