//! Which resolutions of a refutation are needed.

use crate::derivations::{Derivations, Link};
use crate::literal::Literal;
use crate::literal_set::LiteralSet;
use crate::tables::narrow;
use std::alloc::{AllocError, Global};
use std::mem;

/// So many safe literals of a clause are kept at most, those that were found last: along a chain of clauses there would be more and more.
const MOST_SAFE: usize = 100;

/// What is left of a derivation: its number, its first clause, and where its links end.
#[derive(Clone, Copy)]
struct Chain {
    number: u32,
    first: u32,
    end: u32,
}

/// What is left of derivations: the last one stands first, and of each one the last link.
#[derive(Drop)]
pub(crate) struct Kept {
    chains: Vec<Chain>,
    links: Vec<Link>,
}

impl Kept {
    fn new(alloc: Global) -> Kept {
        Kept {
            chains: Vec::new(alloc),
            links: Vec::new(alloc),
        }
    }

    /// How many derivations there are.
    pub fn len(&self) -> usize {
        self.chains.len()
    }

    /// How many links they have.
    pub fn links(&self) -> usize {
        self.links.len()
    }

    /// A derivation: its number, its first clause and its links.
    pub fn get(&self, place: usize) -> Option<(u32, u32, &[Link])> {
        if place >= self.chains.len() {
            return None;
        }
        let start = if place == 0 {
            0
        } else {
            self.chains[place - 1].end as usize
        };
        let chain = self.chains[place];
        let links = self.links.get(start..chain.end as usize)?;
        Some((chain.number, chain.first, links))
    }
}

/// The safe literals of clauses: those that are resolved away on each path from a clause to the empty clause, and so may stay in it.
#[derive(Drop)]
struct Recycling {
    alloc: Global,
    // How many input clauses there are.
    inputs: usize,
    // The safe literals of each derived clause on the paths so far; none where there is no path.
    safe: Vec<Option<Vec<Literal>>>,
    // Those of the clause at hand.
    here: LiteralSet,
}

impl Recycling {
    /// Only the last of so many derivations has a path, which is empty.
    fn new(
        alloc: Global,
        inputs: usize,
        atoms: usize,
        derivations: usize,
    ) -> Result<Recycling, AllocError> {
        let mut safe = Vec::with_capacity(alloc, derivations)?;
        for _derivation in 1..derivations {
            safe.push(None)?;
        }
        safe.push(Some(Vec::new(alloc)))?;
        Ok(Recycling {
            alloc,
            inputs,
            safe,
            here: LiteralSet::new(alloc, atoms)?,
        })
    }

    // The safe literals of a derived clause, which are taken away.
    fn take(&mut self, number: usize) -> Option<Vec<Literal>> {
        if number < self.safe.len() {
            mem::replace(&mut self.safe[number], None)
        } else {
            None
        }
    }

    // One more path from a clause, which goes on at the clause at hand. Input clauses have nothing to be left out.
    fn meet(&mut self, clause: u32) -> Result<(), AllocError> {
        let Some(number) = (clause as usize).checked_sub(self.inputs) else {
            return Ok(());
        };
        let mut met = Vec::new(self.alloc);
        match self.take(number) {
            Some(safe) => {
                for literal in &safe {
                    if self.here.has(*literal) {
                        met.push(*literal)?;
                    }
                }
            }
            None => {
                let here = self.here.as_slice();
                let start = here.len().saturating_sub(MOST_SAFE);
                met.extend_from_slice(&here[start..])?
            }
        }
        if number < self.safe.len() {
            self.safe[number] = Some(met);
        }
        Ok(())
    }

    // The same, where a literal of that clause is resolved away first.
    fn meet_without(&mut self, literal: Literal, clause: u32) -> Result<(), AllocError> {
        self.here.add(literal)?;
        self.meet(clause)?;
        self.here.remove(literal);
        Ok(())
    }

    // Keeps what is needed of the derivation of the clause at hand. A link isn't needed where its literal is safe; and where its negation is,
    // the derivation may begin with the link's clause.
    fn keep(
        &mut self,
        kept: &mut Kept,
        number: usize,
        derivation: (u32, &[Link]),
    ) -> Result<(), AllocError> {
        let (start, links) = derivation;
        let mut first = start;
        for link in links.iter().rev() {
            if self.here.has(link.literal.negated()) {
                first = link.clause;
                break;
            }
            if !self.here.has(link.literal) {
                self.meet_without(link.literal.negated(), link.clause)?;
                self.here.add(link.literal)?;
                kept.links.push(*link)?;
            }
        }
        self.meet(first)?;
        kept.chains.push(Chain {
            number: narrow(number)?,
            first,
            end: narrow(kept.links.len())?,
        })?;
        Ok(())
    }
}

/// What the last of some derivations needs, where there are so many input clauses and atoms: "recycle pivots", after Bar-Ilan, Fuhrmann, Hoory,
/// Shacham and Strichman (2008), "with intersection", after Fontaine, Merz and Woltzenlogel Paleo (2011). A literal that is resolved upon twice
/// on each path to the empty clause is resolved upon once.
pub(crate) fn recycled(
    alloc: Global,
    derivations: Derivations,
    inputs: usize,
    atoms: usize,
) -> Result<Kept, AllocError> {
    let mut kept = Kept::new(alloc);
    let mut recycling = Recycling::new(alloc, inputs, atoms, derivations.len())?;
    for number in (0..derivations.len()).rev() {
        if let Some(safe) = recycling.take(number)
            && let Some(derivation) = derivations.get(number)
        {
            recycling.here.clear();
            recycling.here.add_all(&safe)?;
            recycling.keep(&mut kept, number, derivation)?;
        }
    }
    Ok(kept)
}
