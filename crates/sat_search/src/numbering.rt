//! The atoms of clauses by number.

use crate::ground::Ground;
use crate::literal::Literal;
use crate::tables::{narrow, put};
use fol::Formula;
use lk_rules::Formulas;
use std::alloc::{AllocError, Global};

/// So many atoms are refused as want of memory.
const TOO_MANY: usize = 1 << 31;

/// A literal where it stands, by the number of that place.
struct Occurrence {
    atom: Formula,
    is_negative: bool,
    place: u32,
}

impl Drop for Occurrence {
    fn drop(self) {
        let Occurrence {
            atom,
            is_negative: _,
            place: _,
        } = self;
        drop(atom);
    }
}

// How many atoms stand in the clauses, each as often as it does.
fn occurrences_in(clauses: &[Ground]) -> usize {
    let mut occurrences: usize = 0;
    for clause in clauses {
        occurrences = occurrences
            .saturating_add(clause.negative.as_slice().len())
            .saturating_add(clause.positive.as_slice().len());
    }
    occurrences
}

// Appends the occurrences of atoms or their negations.
fn push_occurrences(
    occurrences: &mut Vec<Occurrence>,
    atoms: &Formulas,
    is_negative: bool,
) -> Result<(), AllocError> {
    for atom in atoms.as_slice() {
        let place = narrow(occurrences.len())?;
        occurrences.push(Occurrence {
            atom: atom.copy()?,
            is_negative,
            place,
        })?;
    }
    Ok(())
}

/// The atoms of clauses in rising order, and the clauses by number. The number of an atom is its place.
pub(crate) struct Numbering {
    atoms: Vec<Formula>,
    // The literals of all clauses, and where those of each clause end.
    literals: Vec<Literal>,
    ends: Vec<u32>,
}

impl Drop for Numbering {
    fn drop(self) {
        let Numbering {
            atoms,
            literals,
            ends,
        } = self;
        drop(atoms);
        drop(literals);
        drop(ends);
    }
}

impl Numbering {
    /// The numbering of the atoms of these clauses, in O(n log n) comparisons.
    pub fn new(alloc: Global, clauses: &[Ground]) -> Result<Numbering, AllocError> {
        let mut occurrences = Vec::with_capacity(alloc, occurrences_in(clauses))?;
        let mut ends = Vec::with_capacity(alloc, clauses.len())?;
        for clause in clauses {
            push_occurrences(&mut occurrences, &clause.negative, true)?;
            push_occurrences(&mut occurrences, &clause.positive, false)?;
            ends.push(narrow(occurrences.len())?)?;
        }
        occurrences.sort_unstable_by(|one, other| one.atom.cmp(&other.atom));
        let mut numbering = Numbering {
            atoms: Vec::new(alloc),
            literals: vec![in alloc; Literal::new(0, false); occurrences.len()]?,
            ends,
        };
        for occurrence in &occurrences {
            numbering.note(occurrence)?;
        }
        Ok(numbering)
    }

    // Notes an occurrence, whose atom is the last one so far or the next.
    fn note(&mut self, occurrence: &Occurrence) -> Result<(), AllocError> {
        if !self.ends_with(&occurrence.atom) {
            self.atoms.push(occurrence.atom.copy()?)?;
        }
        if self.atoms.len() >= TOO_MANY {
            return Err(AllocError);
        }
        let number = narrow(self.atoms.len().saturating_sub(1))?;
        let literal = Literal::new(number, occurrence.is_negative);
        put(&mut self.literals, occurrence.place as usize, literal);
        Ok(())
    }

    fn ends_with(&self, atom: &Formula) -> bool {
        match self.atoms.last() {
            Some(last) => last == atom,
            None => false,
        }
    }

    /// How many atoms there are.
    pub fn len(&self) -> usize {
        self.atoms.len()
    }

    /// How many literals the clauses have in all.
    pub fn occurrences(&self) -> usize {
        self.literals.len()
    }

    /// The atom with a number.
    pub fn atom(&self, number: u32) -> Option<&Formula> {
        self.atoms.get(number as usize)
    }

    /// The literals of a clause: the negative ones and then the positive ones, in the order of its atoms.
    pub fn literals(&self, clause: usize) -> &[Literal] {
        if clause >= self.ends.len() {
            return &[];
        }
        let start = if clause == 0 {
            0
        } else {
            self.ends[clause - 1] as usize
        };
        match self.literals.get(start..self.ends[clause] as usize) {
            Some(literals) => literals,
            None => &[],
        }
    }
}
