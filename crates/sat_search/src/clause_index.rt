//! Clauses by their literals.

use crate::clauses::Clauses;
use crate::literal::Literal;
use crate::literal_set::LiteralSet;
use crate::tables::{at, narrow, put};
use fol::mix;
use std::alloc::{AllocError, Global};

/// A hash table of clauses, which are numbered from 0. A clause without literals isn't found.
#[derive(Drop)]
pub(crate) struct ClauseIndex {
    // The last clause of each slot, and the one before each clause.
    last: Vec<Option<u32>>,
    before: Vec<Option<u32>>,
}

impl ClauseIndex {
    /// The index of these clauses, for so many at most.
    pub fn new(alloc: Global, clauses: &Clauses, most: usize) -> Result<ClauseIndex, AllocError> {
        let mut index = ClauseIndex {
            last: vec![in alloc; None; most]?,
            before: Vec::with_capacity(alloc, most)?,
        };
        for number in 0..clauses.len() {
            let number = narrow(number)?;
            index.add(clauses.literals(number), number)?;
        }
        Ok(index)
    }

    // The slot of some literals, whatever their order.
    fn slot(&self, literals: &[Literal]) -> usize {
        let mut sum: u64 = 0;
        for literal in literals {
            let place = literal.place() as u64;
            sum = sum.wrapping_add(mix(place, mix(1, place)));
        }
        if self.last.is_empty() {
            0
        } else {
            mix(1, sum) as usize % self.last.len()
        }
    }

    /// Adds the next clause, which has these literals.
    pub fn add(&mut self, literals: &[Literal], number: u32) -> Result<(), AllocError> {
        if literals.is_empty() {
            self.before.push(None)?;
            return Ok(());
        }
        let slot = self.slot(literals);
        self.before.push(at(&self.last, slot, None))?;
        put(&mut self.last, slot, Some(number));
        Ok(())
    }

    /// A clause with just these literals.
    pub fn find(&self, clauses: &Clauses, literals: &LiteralSet) -> Option<u32> {
        let mut next = at(&self.last, self.slot(literals.as_slice()), None);
        for _turn in 0..self.before.len() {
            let clause = next?;
            if literals.is_equal(clauses.literals(clause)) {
                return Some(clause);
            }
            next = at(&self.before, clause as usize, None);
        }
        None
    }
}
