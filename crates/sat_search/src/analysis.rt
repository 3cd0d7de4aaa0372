//! The clause that a conflict brings, while it is derived.

use crate::literal::Literal;
use crate::tables::{at, put};
use std::alloc::{AllocError, Global};

/// The literals of the clause so far, and the atoms of all that it had.
#[derive(Drop)]
pub(crate) struct Analysis {
    is_marked: Vec<bool>,
    marked: Vec<usize>,
    // How many literals of the last level there are.
    open: usize,
    // The literals of lower levels.
    lower: Vec<Literal>,
    // Those of level 0, which go at the end.
    fixed: Vec<Literal>,
    // The literals that are implied, and those that come in their place. So many of them have been looked at.
    visited: Vec<Literal>,
    looked_at: usize,
    // The number of the last count that met each level.
    counts: Vec<usize>,
    count: usize,
}

impl Analysis {
    /// The start, for so many atoms.
    pub fn new(alloc: Global, atoms: usize) -> Result<Analysis, AllocError> {
        Ok(Analysis {
            is_marked: vec![in alloc; false; atoms]?,
            marked: Vec::new(alloc),
            open: 0,
            lower: Vec::new(alloc),
            fixed: Vec::new(alloc),
            visited: Vec::new(alloc),
            looked_at: 0,
            counts: vec![in alloc; 0usize; atoms.saturating_add(1)]?,
            count: 0,
        })
    }

    /// Forgets the clause.
    pub fn clear(&mut self) {
        for atom in &self.marked {
            put(&mut self.is_marked, *atom, false);
        }
        self.marked.clear();
        self.lower.clear();
        self.fixed.clear();
        self.visited.clear();
        self.looked_at = 0;
        self.open = 0;
    }

    /// Whether the clause had the literal's atom.
    pub fn is_marked(&self, literal: Literal) -> bool {
        at(&self.is_marked, literal.atom(), false)
    }

    fn mark(&mut self, literal: Literal) -> Result<(), AllocError> {
        self.marked.push(literal.atom())?;
        put(&mut self.is_marked, literal.atom(), true);
        Ok(())
    }

    /// Adds a literal of a level, of which there are so many.
    pub fn add(&mut self, literal: Literal, level: usize, levels: usize) -> Result<(), AllocError> {
        self.mark(literal)?;
        if level == 0 {
            self.fixed.push(literal)?;
        } else if level >= levels {
            self.open = self.open.saturating_add(1);
        } else {
            self.lower.push(literal)?;
        }
        Ok(())
    }

    /// Takes a literal of the last level out, unless it is the only one.
    pub fn resolve(&mut self) -> bool {
        let is_resolved = self.open > 1;
        self.open = self.open.saturating_sub(1);
        is_resolved
    }

    /// The literals of lower levels.
    pub fn lower(&self) -> &[Literal] {
        &self.lower
    }

    /// The literals of level 0.
    pub fn fixed(&self) -> &[Literal] {
        &self.fixed
    }

    /// Begins to count different levels.
    pub fn begin_count(&mut self) {
        self.count = self.count.saturating_add(1);
    }

    /// Counts a level.
    pub fn count(&mut self, level: usize) {
        put(&mut self.counts, level, self.count);
    }

    /// Whether the level was counted.
    pub fn is_counted(&self, level: usize) -> bool {
        at(&self.counts, level, 0) == self.count
    }

    /// Visits a literal of the clause, and gives how many were visited before.
    pub fn visit_first(&mut self, literal: Literal) -> Result<usize, AllocError> {
        let before = self.visited.len();
        self.looked_at = before;
        self.visited.push(literal)?;
        Ok(before)
    }

    /// Visits a literal that comes in the place of one that was visited.
    pub fn visit(&mut self, literal: Literal) -> Result<(), AllocError> {
        self.mark(literal)?;
        self.visited.push(literal)?;
        Ok(())
    }

    /// The next literal that was visited and not looked at.
    pub fn next_visit(&mut self) -> Option<Literal> {
        let next = self.visited.get(self.looked_at).copied()?;
        self.looked_at = self.looked_at.saturating_add(1);
        Some(next)
    }

    /// Forgets all visits but so many, and the marks that these made.
    pub fn forget_visits(&mut self, before: usize) {
        for literal in self.visited.iter().skip(before).skip(1) {
            put(&mut self.is_marked, literal.atom(), false);
        }
        self.visited.truncate(before);
    }

    /// The literals that were visited.
    pub fn visited(&self) -> &[Literal] {
        &self.visited
    }
}
