//! Sets of literals.

use crate::literal::Literal;
use crate::tables::{at, narrow, put};
use std::alloc::{AllocError, Global};

/// A set of literals, in which a literal is found at once.
#[derive(Drop)]
pub(crate) struct LiteralSet {
    literals: Vec<Literal>,
    // Where each literal stands among them.
    places: Vec<Option<u32>>,
}

impl LiteralSet {
    /// No literals, of so many atoms.
    pub fn new(alloc: Global, atoms: usize) -> Result<LiteralSet, AllocError> {
        Ok(LiteralSet {
            literals: Vec::new(alloc),
            places: vec![in alloc; None; atoms.saturating_mul(2)]?,
        })
    }

    /// The literals, in no order.
    pub fn as_slice(&self) -> &[Literal] {
        &self.literals
    }

    /// Whether a literal is in the set.
    pub fn has(&self, literal: Literal) -> bool {
        at(&self.places, literal.place(), None).is_some()
    }

    /// Adds a literal, unless the set has it.
    pub fn add(&mut self, literal: Literal) -> Result<(), AllocError> {
        if !self.has(literal) {
            let place = narrow(self.literals.len())?;
            put(&mut self.places, literal.place(), Some(place));
            self.literals.push(literal)?;
        }
        Ok(())
    }

    /// Adds literals.
    pub fn add_all(&mut self, literals: &[Literal]) -> Result<(), AllocError> {
        for literal in literals {
            self.add(*literal)?;
        }
        Ok(())
    }

    /// Takes a literal out, where the set has it.
    pub fn remove(&mut self, literal: Literal) {
        if let Some(place) = at(&self.places, literal.place(), None)
            && let Some(last) = self.literals.pop()
        {
            put(&mut self.literals, place as usize, last);
            put(&mut self.places, last.place(), Some(place));
            put(&mut self.places, literal.place(), None);
        }
    }

    /// Takes all literals out.
    pub fn clear(&mut self) {
        for literal in &self.literals {
            put(&mut self.places, literal.place(), None);
        }
        self.literals.clear();
    }

    /// Whether these different literals are just those of the set.
    pub fn is_equal(&self, literals: &[Literal]) -> bool {
        literals.len() == self.literals.len() && literals.iter().all(|literal| self.has(*literal))
    }
}
