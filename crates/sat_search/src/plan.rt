//! The plan of a refutation: single resolutions that derive the empty clause.

use crate::tables::{at, put};
use std::alloc::{AllocError, Global};

/// Resolution of two clauses on an atom, all three by number.
#[derive(Clone, Copy)]
pub(crate) struct Resolution {
    pub positive: u32,
    pub negative: u32,
    pub atom: u32,
}

/// Resolutions, the last of which need not be that of the empty clause. The numbers of the clauses that they derive follow those of the input
/// clauses.
#[derive(Drop)]
pub(crate) struct Plan {
    // How many input clauses there are.
    inputs: usize,
    resolutions: Vec<Resolution>,
    // The number of the empty clause.
    last: u32,
}

impl Plan {
    /// These resolutions, after so many input clauses and with the empty clause at this number.
    pub fn new(inputs: usize, resolutions: Vec<Resolution>, last: u32) -> Plan {
        Plan {
            inputs,
            resolutions,
            last,
        }
    }

    /// The resolution that derives the clause of a number, which isn't an input clause.
    pub fn get(&self, clause: usize) -> Option<Resolution> {
        let place = clause.checked_sub(self.inputs)?;
        self.resolutions.get(place).copied()
    }

    /// The uses of clauses by those resolutions that the empty clause needs.
    pub fn uses(&self, alloc: Global) -> Result<Uses, AllocError> {
        let last = self.last as usize;
        let mut uses = Uses {
            left: vec![in alloc; 0u32; last.saturating_add(1)]?,
            needed: 0,
        };
        uses.add(self.last);
        for clause in (self.inputs..uses.len()).rev() {
            if uses.is_left(clause)
                && let Some(resolution) = self.get(clause)
            {
                uses.add(resolution.positive);
                uses.add(resolution.negative);
            }
        }
        Ok(uses)
    }
}

/// The uses of clauses that are still to come. The empty clause, whose number is the last, counts as used once.
#[derive(Drop)]
pub(crate) struct Uses {
    // How many uses of each clause are left.
    left: Vec<u32>,
    // How many clauses have a use.
    needed: usize,
}

impl Uses {
    // One more use of a clause.
    fn add(&mut self, clause: u32) {
        let left = at(&self.left, clause as usize, 0);
        if left == 0 {
            self.needed = self.needed.saturating_add(1);
        }
        put(&mut self.left, clause as usize, left.saturating_add(1));
    }

    /// How many clauses there are up to the empty one.
    pub fn len(&self) -> usize {
        self.left.len()
    }

    /// How many of them are needed.
    pub fn needed(&self) -> usize {
        self.needed
    }

    /// Whether a use of the clause is left.
    pub fn is_left(&self, clause: usize) -> bool {
        at(&self.left, clause, 0) > 0
    }

    /// Takes a use of the clause away, and says whether it was the last.
    pub fn end(&mut self, clause: u32) -> bool {
        let left = at(&self.left, clause as usize, 0).saturating_sub(1);
        put(&mut self.left, clause as usize, left);
        left == 0
    }
}
