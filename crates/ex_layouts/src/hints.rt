//! Places in a list, by numbers that tell where to look first.

use std::alloc::{AllocError, Global};

/// What stands in no list.
const NOWHERE: usize = usize::MAX;

/// Places in a list, by the numbers below a count. Nothing is proved of them: who looks there tests what stands there.
#[derive(Drop)]
pub struct Hints {
    places: Vec<usize>,
}

impl Hints {
    /// For the numbers below the count, of which none has a place.
    pub fn new(alloc: Global, count: usize) -> Result<Hints, AllocError> {
        let mut places = Vec::with_capacity(alloc, count)?;
        places.resize(count, NOWHERE)?;
        Ok(Hints { places })
    }

    /// The place by this number, or one that no list has.
    pub fn place(&self, number: usize) -> usize {
        match self.places.get(number) {
            Some(place) => *place,
            None => NOWHERE,
        }
    }

    /// Whether a number below the count has no place.
    pub fn is_free(&self, number: usize) -> bool {
        match self.places.get(number) {
            Some(place) => *place == NOWHERE,
            None => false,
        }
    }

    /// Gives a number below the count a place.
    pub fn put(&mut self, number: usize, place: usize) {
        if number < self.places.len() {
            self.places[number] = place;
        }
    }
}
