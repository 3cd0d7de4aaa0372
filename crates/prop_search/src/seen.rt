//! Sequents whose searches found proofs, with how many sequents these visited.
ghost use Rattle.std.specs.Prelude.{◌≡◌, ◌<◌, List, length, IfOk, IfSome};
ghost use Rattle.std.specs.List.{All};
ghost use Rattle.search_laws.specs.Search.{walk};
ghost use Rattle.prop_search.specs.Deciding.{IsProvedIn};
ghost use Rattle.fol.specs.Syntax.{Formula as Meaning};
ghost use Rattle.prop_search.specs.Formulas.{sequent_of};
ghost use Rattle.prop_search.specs.Seen.{AreSeen, IsVisited};

use crate::bits;
use crate::numbered::Numbered;
use crate::numbering::Numbering;
use std::alloc::{AllocError, Global};
use std::mem;

/// How many words the sequents of a table have together.
const CAPACITY: usize = 1 << 19;

/// How many sequents a table has at most.
const PLACES: usize = 1 << 12;

/// A search that visits fewer sequents is done again rather than kept.
const LEAST: u64 = 8;

/// The first one that is kept visits so many. So a small search makes no table.
const LEAST_FIRST: u64 = 64;

/// A sequent with how many sequents the search for its proof visits; 0 for none.
#[derive(Drop)]
pub(crate) struct Visited {
    sequent: Numbered,
    visits: u64,
}

/// Sequents whose searches found proofs. Each has the one place that its fingerprint gives it, and of two with one place the later is kept,
/// so that the table doesn't grow with the search.
#[derive(Drop)]
pub(crate) struct Seen {
    places: Vec<Visited>,
    // Sequents that are done with, for their memory.
    spare: Vec<Numbered>,
}

// Places with no sequent, for sequents of that many words.
fn empty_places(alloc: Global, words: usize) -> Result<Vec<Visited>, AllocError>
    ensures { (fs : List Meaning) → IfOk result (λ places. All (IsVisited fs) places.items) }
{
    let mut places = Vec::new(alloc);
    for _place in 0..(CAPACITY / words.max(1)).clamp(1, PLACES) {
        let sequent = Numbered::new(alloc, 0)?;
        places.push(Visited { sequent, visits: 0 })?;
    }
    Ok(places)
}

impl Seen {
    /// A table with no sequent.
    pub fn new(alloc: Global) -> Seen
        ensures { (fs : List Meaning) → AreSeen fs result }
    {
        Seen {
            places: Vec::new(alloc),
            spare: Vec::new(alloc),
        }
    }

    // The place of a sequent, where there are places.
    fn place(&self, sequent: &Numbered) -> Option<usize>
        ensures { IfSome result (λ i. i < length self.now.places.items) }
    {
        if self.places.is_empty() {
            return None;
        }
        Some(bits::fingerprint(sequent.words()) as usize % self.places.len())
    }

    /// How many sequents the search for a proof of the sequent visits, where that is known.
    pub fn visits(&self, numbering: &Numbering, sequent: &Numbered) -> Option<u64>
        requires { AreSeen numbering.now self.now }
        ensures { IfSome result (λ n. IsProvedIn n (walk (sequent_of numbering.now sequent.now))) }
    {
        let _numbering = numbering;
        let place = self.place(sequent)?;
        let visited = &self.places[place];
        if visited.visits > 0 && visited.sequent.is_same(sequent) {
            Some(visited.visits)
        } else {
            None
        }
    }

    /// The same sequent once more.
    pub fn copy(&mut self, alloc: Global, sequent: &Numbered) -> Result<Numbered, AllocError>
        ensures copy { IfOk result (λ copy. copy ≡ sequent.now) }
        ensures seen { (fs : List Meaning) → AreSeen fs self.old → AreSeen fs self.new }
    {
        match self.spare.pop() {
            Some(spare) => {
                let mut copy = spare;
                copy.assign(sequent)?;
                Ok(copy)
            }
            None => sequent.copy(alloc),
        }
    }

    /// Takes the memory of a sequent that is done with.
    pub fn recycle(&mut self, sequent: Numbered)
        ensures { (fs : List Meaning) → AreSeen fs self.old → AreSeen fs self.new }
    {
        drop(self.spare.push(sequent));
    }

    // Whether a search that visits so many sequents isn't kept.
    fn is_small(&self, visits: u64) -> bool {
        visits < LEAST || self.places.is_empty() && visits < LEAST_FIRST
    }

    // Makes places for sequents of that many words, unless they are there.
    fn prepare(&mut self, alloc: Global, words: usize) -> Result<(), AllocError>
        ensures { (fs : List Meaning) → AreSeen fs self.old → AreSeen fs self.new }
    {
        if self.places.is_empty() {
            self.places = empty_places(alloc, words)?;
        }
        Ok(())
    }

    /// Keeps how many sequents the search for a proof of the sequent visits.
    pub fn note(
        &mut self,
        alloc: Global,
        numbering: &Numbering,
        sequent: Numbered,
        visits: u64,
    ) -> Result<(), AllocError>
        requires seen { AreSeen numbering.now self.old }
        requires proved { IsProvedIn visits (walk (sequent_of numbering.now sequent)) }
        ensures { AreSeen numbering.now self.new }
    {
        let _numbering = numbering;
        if self.is_small(visits) {
            self.recycle(sequent);
            return Ok(());
        }
        self.prepare(alloc, sequent.words().len())?;
        if let Some(place) = self.place(&sequent) {
            let later = Visited { sequent, visits };
            let earlier = mem::replace(&mut self.places[place], later);
            self.recycle(earlier.sequent);
        }
        Ok(())
    }
}
