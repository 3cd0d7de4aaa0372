//! How the clauses of a search were derived.

use crate::literal::Literal;
use crate::tables::narrow;
use std::alloc::{AllocError, Global};

/// Resolution with a clause: the literal goes from the clause so far, and its negation from this one.
#[derive(Clone, Copy)]
pub(crate) struct Link {
    pub literal: Literal,
    pub clause: u32,
}

/// The first clause of a derivation, and where its links end.
#[derive(Clone, Copy)]
struct Chain {
    first: u32,
    end: u32,
}

/// The derivations of the clauses that aren't input clauses, in the order of their numbers.
#[derive(Drop)]
pub(crate) struct Derivations {
    chains: Vec<Chain>,
    links: Vec<Link>,
}

impl Derivations {
    /// No derivations.
    pub fn new(alloc: Global) -> Derivations {
        Derivations {
            chains: Vec::new(alloc),
            links: Vec::new(alloc),
        }
    }

    /// One more resolution of the derivation that is being made.
    pub fn link(&mut self, literal: Literal, clause: u32) -> Result<(), AllocError> {
        self.links.push(Link { literal, clause })?;
        Ok(())
    }

    /// Ends a derivation, which begins with this clause.
    pub fn end(&mut self, first: u32) -> Result<(), AllocError> {
        let end = narrow(self.links.len())?;
        self.chains.push(Chain { first, end })?;
        Ok(())
    }

    /// How many derivations there are.
    pub fn len(&self) -> usize {
        self.chains.len()
    }

    /// A derivation: its first clause and its links.
    pub fn get(&self, number: usize) -> Option<(u32, &[Link])> {
        if number >= self.chains.len() {
            return None;
        }
        let start = if number == 0 {
            0
        } else {
            self.chains[number - 1].end as usize
        };
        let chain = self.chains[number];
        let links = self.links.get(start..chain.end as usize)?;
        Some((chain.first, links))
    }
}
