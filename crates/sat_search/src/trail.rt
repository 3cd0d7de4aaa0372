//! Which literals are true, and why.

use crate::literal::Literal;
use crate::tables::{at, narrow, put};
use std::alloc::{AllocError, Global};

/// The value of a literal.
#[derive(Clone, Copy, PartialEq, Eq)]
pub(crate) enum Truth {
    True,
    False,
    Unset,
}

/// When and why an atom was given its value: the level, how many literals were true before, and the clause whose other literals were false;
/// none where the value was chosen.
#[derive(Clone, Copy)]
pub(crate) struct Assignment {
    pub level: u32,
    pub place: u32,
    pub reason: Option<u32>,
}

const NEVER: Assignment = Assignment {
    level: 0,
    place: 0,
    reason: None,
};

/// The literals that are true, in the order in which they became so. Each choice begins a level.
#[derive(Drop)]
pub(crate) struct Trail {
    truths: Vec<Truth>,
    assignments: Vec<Assignment>,
    // The value that each atom had last.
    phases: Vec<bool>,
    // The values in the longest trail without a conflict since these were forgotten last, and how long it was.
    targets: Vec<Option<bool>>,
    target_size: usize,
    literals: Vec<Literal>,
    levels: Vec<usize>,
    visited: usize,
}

impl Trail {
    /// So many atoms without values.
    pub fn new(alloc: Global, atoms: usize) -> Result<Trail, AllocError> {
        Ok(Trail {
            truths: vec![in alloc; Truth::Unset; atoms.saturating_mul(2)]?,
            assignments: vec![in alloc; NEVER; atoms]?,
            phases: vec![in alloc; false; atoms]?,
            targets: vec![in alloc; None; atoms]?,
            target_size: 0,
            literals: Vec::new(alloc),
            levels: Vec::new(alloc),
            visited: 0,
        })
    }

    /// The value of a literal.
    pub fn truth(&self, literal: Literal) -> Truth {
        at(&self.truths, literal.place(), Truth::Unset)
    }

    /// When and why the literal's atom was given its value.
    pub fn assignment(&self, literal: Literal) -> Assignment {
        at(&self.assignments, literal.atom(), NEVER)
    }

    /// The level at which it was.
    pub fn level_of(&self, literal: Literal) -> usize {
        self.assignment(literal).level as usize
    }

    /// The clause whose other literals were false then.
    pub fn reason_of(&self, literal: Literal) -> Option<u32> {
        self.assignment(literal).reason
    }

    /// The value to choose for an atom: the one in the longest trail without a conflict, or else the one that it had last.
    pub fn phase(&self, atom: usize) -> bool {
        match at(&self.targets, atom, None) {
            Some(target) => target,
            None => at(&self.phases, atom, false),
        }
    }

    /// Notes the values of all levels but the last, in which there is a conflict, where these are more than were noted before.
    pub fn note_targets(&mut self) {
        let size = at(&self.levels, self.levels.len().saturating_sub(1), 0);
        if size > self.target_size {
            self.target_size = size;
            for literal in self.literals.iter().take(size) {
                let target = Some(!literal.is_negative());
                put(&mut self.targets, literal.atom(), target);
            }
        }
    }

    /// Forgets what was noted, and goes on from those values, or else from the other values of all atoms.
    pub fn rephase(&mut self, is_noted: bool) {
        for atom in 0..self.phases.len() {
            let phase = if is_noted {
                self.phase(atom)
            } else {
                !at(&self.phases, atom, false)
            };
            put(&mut self.phases, atom, phase);
            put(&mut self.targets, atom, None);
        }
        self.target_size = 0;
    }

    /// How many levels there are besides level 0.
    pub fn level(&self) -> usize {
        self.levels.len()
    }

    /// The true literals.
    pub fn literals(&self) -> &[Literal] {
        &self.literals
    }

    /// The true literal at a place, which is below their number.
    pub fn literal(&self, place: usize) -> Literal {
        at(&self.literals, place, Literal::new(0, false))
    }

    /// Makes a literal true.
    pub fn assign(&mut self, literal: Literal, reason: Option<u32>) -> Result<(), AllocError> {
        let assignment = Assignment {
            level: narrow(self.levels.len())?,
            place: narrow(self.literals.len())?,
            reason,
        };
        self.literals.push(literal)?;
        put(&mut self.truths, literal.place(), Truth::True);
        put(&mut self.truths, literal.negated().place(), Truth::False);
        put(&mut self.assignments, literal.atom(), assignment);
        put(&mut self.phases, literal.atom(), !literal.is_negative());
        Ok(())
    }

    /// Begins a level.
    pub fn open_level(&mut self) -> Result<(), AllocError> {
        self.levels.push(self.literals.len())?;
        Ok(())
    }

    /// The next true literal that wasn't visited yet.
    pub fn next_visit(&mut self) -> Option<Literal> {
        let next = self.literals.get(self.visited).copied()?;
        self.visited = self.visited.saturating_add(1);
        Some(next)
    }

    /// Takes the value from the last literal, where that is above a level; else the levels above it end.
    pub fn undo_above(&mut self, level: usize) -> Option<Literal> {
        let start = at(&self.levels, level, usize::MAX);
        if self.literals.len() <= start {
            self.levels.truncate(level);
            self.visited = self.visited.min(self.literals.len());
            return None;
        }
        let last = self.literals.pop()?;
        put(&mut self.truths, last.place(), Truth::Unset);
        put(&mut self.truths, last.negated().place(), Truth::Unset);
        Some(last)
    }
}
