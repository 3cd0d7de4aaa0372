//! Hints where in a list the entry of a number may stand, in place of a table by hashes (Briggs and Torczon 1993).
use std::alloc::{AllocError, Global};

/// A place for each number below some bound. A place may be wrong, so whoever takes it looks whether the number stands there.
#[derive(Drop)]
pub(crate) struct Hints {
    places: Vec<u32>,
}

impl Hints {
    /// Hints for no number.
    pub fn new(alloc: Global) -> Hints {
        Hints {
            places: Vec::new(alloc),
        }
    }

    /// Makes room for the numbers below the bound.
    pub fn reserve(&mut self, bound: usize) -> Result<(), AllocError> {
        if self.places.len() < bound {
            self.places.resize(bound, 0)?;
        }
        Ok(())
    }

    /// Where the number's entry may stand.
    pub fn get(&self, number: u32) -> usize {
        match self.places.get(number as usize) {
            Some(place) => *place as usize,
            None => 0,
        }
    }

    /// Notes where the number's entry stands. What there is no room for isn't noted.
    pub fn note(&mut self, number: u32, place: usize) {
        let Ok(place) = u32::try_from(place) else {
            return;
        };
        if let Some(noted) = self.places.get_mut(number as usize) {
            *noted = place;
        }
    }
}
