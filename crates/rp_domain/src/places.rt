//! Where things stand, by the numbers of entities. Nothing is proved of it: what stands there is compared.

use std::alloc::{AllocError, Global};

/// Where nothing stands.
const NOWHERE: usize = usize::MAX;

pub(crate) struct Places {
    places: Vec<usize>,
}

impl Drop for Places {
    fn drop(self) {
        let Places { places } = self;
        drop(places);
    }
}

impl Places {
    pub(crate) fn new(alloc: Global) -> Places {
        Places {
            places: Vec::new(alloc),
        }
    }

    pub(crate) fn get(&self, entity: usize) -> usize {
        match self.places.get(entity) {
            Some(place) => *place,
            None => NOWHERE,
        }
    }

    /// Something of an entity, which is one of so many, stands at a place.
    pub(crate) fn set(
        &mut self,
        entity: usize,
        count: usize,
        place: usize,
    ) -> Result<(), AllocError> {
        if entity >= count {
            return Ok(());
        }
        if entity >= self.places.len() {
            self.places.resize(entity + 1, NOWHERE)?;
        }
        self.places[entity] = place;
        Ok(())
    }

    /// The same of the last of some entities.
    pub(crate) fn set_last(
        &mut self,
        entities: &[usize],
        count: usize,
        place: usize,
    ) -> Result<(), AllocError> {
        match entities.last() {
            Some(entity) => self.set(*entity, count, place),
            None => Ok(()),
        }
    }
}
