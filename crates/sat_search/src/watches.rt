//! Which clauses are looked at when a literal becomes false.

use crate::literal::Literal;
use crate::tables::at;
use std::alloc::{AllocError, Global};
use std::mem;

/// A clause that watches a literal, and another of its literals: while that is true, the clause isn't looked at.
#[derive(Clone, Copy)]
pub(crate) struct Watch {
    pub clause: u32,
    pub other: Literal,
}

/// The watches of each literal. A clause watches its first two literals.
#[derive(Drop)]
pub(crate) struct Watches {
    alloc: Global,
    lists: Vec<Vec<Watch>>,
}

impl Watches {
    /// No watches, for so many atoms.
    pub fn new(alloc: Global, atoms: usize) -> Result<Watches, AllocError> {
        let mut lists = Vec::with_capacity(alloc, atoms.saturating_mul(2))?;
        for _literal in 0..atoms.saturating_mul(2) {
            lists.push(Vec::new(alloc))?;
        }
        Ok(Watches { alloc, lists })
    }

    /// Makes a clause watch a literal, beside another of its literals.
    pub fn add(&mut self, literal: Literal, clause: u32, other: Literal) -> Result<(), AllocError> {
        let place = literal.place();
        if place < self.lists.len() {
            let list = &mut self.lists[place];
            list.push(Watch { clause, other })?;
        }
        Ok(())
    }

    /// Takes the watches of a literal away.
    pub fn take(&mut self, literal: Literal) -> Vec<Watch> {
        let place = literal.place();
        let none = Vec::new(self.alloc);
        if place < self.lists.len() {
            mem::replace(&mut self.lists[place], none)
        } else {
            none
        }
    }

    /// Puts watches back that were taken away.
    pub fn put(&mut self, literal: Literal, list: Vec<Watch>) {
        let place = literal.place();
        if place < self.lists.len() {
            self.lists[place] = list;
        }
    }
}
