//! How the resolutions of a refutation are found.

use crate::clause_index::ClauseIndex;
use crate::clauses::Clauses;
use crate::derivations::Link;
use crate::literal::Literal;
use crate::literal_set::LiteralSet;
use crate::plan::{Plan, Resolution};
use crate::recycling::Kept;
use crate::tables::{at, put};
use std::alloc::{AllocError, Global};

/// The resolutions of a refutation, and the clauses that they derive. The numbers of these follow those of the input clauses, and no two of
/// them have the same literals.
#[derive(Drop)]
pub(crate) struct Resolutions {
    // How many input clauses there are.
    inputs: usize,
    items: Vec<Resolution>,
    clauses: Clauses,
    index: ClauseIndex,
    // The number of each derived clause of the search.
    numbers: Vec<u32>,
    // The clause at hand: its number and its literals.
    last: u32,
    here: LiteralSet,
}

impl Resolutions {
    /// No resolutions, for so many at most, of these input clauses with so many atoms, and for so many derivations.
    pub fn new(
        alloc: Global,
        inputs: Clauses,
        atoms: usize,
        most: usize,
        derivations: usize,
    ) -> Result<Resolutions, AllocError> {
        let mut clauses = inputs;
        let inputs = clauses.len();
        clauses.reserve(most)?;
        Ok(Resolutions {
            inputs,
            items: Vec::with_capacity(alloc, most)?,
            index: ClauseIndex::new(alloc, &clauses, inputs.saturating_add(most))?,
            clauses,
            numbers: vec![in alloc; 0u32; derivations]?,
            last: 0,
            here: LiteralSet::new(alloc, atoms)?,
        })
    }

    // The number of a clause of the search.
    fn number(&self, clause: u32) -> u32 {
        match (clause as usize).checked_sub(self.inputs) {
            Some(derivation) => at(&self.numbers, derivation, 0),
            None => clause,
        }
    }

    // Goes to a clause.
    fn visit(&mut self, clause: u32) -> Result<(), AllocError> {
        self.last = clause;
        self.here.clear();
        self.here.add_all(self.clauses.literals(clause))
    }

    // Resolves the clause at hand with another one, where each has its literal. Where one lacks it, that one already is stronger
    // than what was derived.
    fn resolve(&mut self, literal: Literal, other: u32) -> Result<(), AllocError> {
        if !self.here.has(literal) {
            return Ok(());
        }
        if !self.clauses.literals(other).contains(&literal.negated()) {
            return self.visit(other);
        }
        self.here.remove(literal);
        for more in self.clauses.literals(other) {
            if *more != literal.negated() {
                self.here.add(*more)?;
            }
        }
        self.last = match self.index.find(&self.clauses, &self.here) {
            Some(known) => known,
            None => self.derive(literal, other)?,
        };
        Ok(())
    }

    // The resolution that derives the literals at hand.
    fn derive(&mut self, literal: Literal, other: u32) -> Result<u32, AllocError> {
        let number = self.clauses.add(self.here.as_slice(), 0)?;
        self.index.add(self.here.as_slice(), number)?;
        let (positive, negative) = if literal.is_negative() {
            (other, self.last)
        } else {
            (self.last, other)
        };
        self.items.push(Resolution {
            positive,
            negative,
            atom: literal.number(),
        })?;
        Ok(number)
    }

    // Makes the resolutions of a derivation.
    fn replay(&mut self, derivation: (u32, u32, &[Link])) -> Result<(), AllocError> {
        let (number, first, links) = derivation;
        self.visit(self.number(first))?;
        for link in links.iter().rev() {
            self.resolve(link.literal, self.number(link.clause))?;
        }
        put(&mut self.numbers, number as usize, self.last);
        Ok(())
    }

    /// Makes the resolutions of all derivations.
    pub fn replay_all(&mut self, kept: &Kept) -> Result<(), AllocError> {
        for place in (0..kept.len()).rev() {
            if let Some(derivation) = kept.get(place) {
                self.replay(derivation)?;
            }
        }
        Ok(())
    }

    /// The resolutions alone.
    pub fn into_plan(self) -> Plan {
        Plan::new(self.inputs, self.items, self.last)
    }
}
