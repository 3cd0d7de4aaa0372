//! What a search notes of the clauses that it keeps. Nothing is claimed of it: it is the plan of a refutation, which is looked at.

use fol::Formula;
use lk_rules::Sequent;
use std::alloc::{AllocError, Global};
use substitution::Subst;

/// Where a clause is from.
#[derive(Drop)]
pub(crate) enum Source {
    /// It is an input clause.
    Input(usize),
    /// It is a resolvent of the clauses of two notes, which were renamed apart first.
    Resolvent {
        positive: usize,
        negative: usize,
        unifier: Subst,
        atom: Formula,
    },
}

/// A clause that was kept.
#[derive(Drop)]
pub(crate) struct Note {
    pub source: Source,
    /// The map that numbers its variables.
    pub numbering: Subst,
    /// The clause, with numbered variables.
    pub clause: Sequent,
}

/// The clauses that were kept, in the order in which they came.
#[derive(Drop)]
pub(crate) struct Notes {
    all: Vec<Note>,
}

impl Notes {
    pub fn new(alloc: Global) -> Notes {
        Notes {
            all: Vec::new(alloc),
        }
    }

    /// One more clause.
    pub fn push(
        &mut self,
        source: Source,
        numbering: Subst,
        clause: &Sequent,
    ) -> Result<(), AllocError> {
        let note = Note {
            source,
            numbering,
            clause: clause.copy()?,
        };
        self.all.push(note)?;
        Ok(())
    }

    pub fn all(&self) -> &[Note] {
        self.all.as_slice()
    }
}
