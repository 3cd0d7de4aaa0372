//! Clauses with the marks of their atoms, which tell soon that one doesn't subsume another.
ghost use Rattle.std.specs.Prelude.{◌≡◌, false, IfOk, IfSome};
ghost use Rattle.finite.specs.Finite as set;
ghost use Rattle.clause_laws.specs.Subsumption.{Subsumes};
ghost use Rattle.res_prover.specs.Links.{AreLinksOf};
ghost use Rattle.res_prover.specs.Sending.{side_at};

use crate::ground_atoms::some_free;
use crate::links::{Links, clause_links};
use crate::marks::{MarkedAtom, are_within_some, side_marks, with_marks};
use lk_rules::Sequent;
use std::alloc::{AllocError, Global};
use std::marker::Model;
use std::sync::Arc;

/// A clause, and its atoms with their marks.
#[derive(Drop)]
pub(crate) struct MarkedCell {
    clause: Sequent,
    left: Vec<MarkedAtom>,
    right: Vec<MarkedAtom>,
}

/// A clause with its marks. Copies share all but the marks of its sides and its links.
#[derive(Drop)]
pub(crate) struct MarkedClause {
    left_marks: u64,
    right_marks: u64,
    /// The links, unless no atom has a variable.
    links: Option<Links>,
    cell: Arc<MarkedCell>,
}

impl Model for MarkedClause {
    ghost use Rattle.lk_rules.specs.declared.sequent.Sequent.{Sequent as Clause};

    ghost Value = { Clause };

    ghost use Rattle.std.specs.Coded.{codes};
    ghost use Rattle.lk_rules.specs.contracts.sequent.Sequent as sequent;

    ghost coded = { Prim.hlevel (codes, sequent.the_row.coded) };

    ghost use Rattle.res_prover.specs.Marked.{IsMarked};

    ghost view = { λ m. m.cell.value.clause };

    ghost invariant = { IsMarked };
}

// The links of a clause with variables.
fn open_links(alloc: Global, clause: &Sequent) -> Result<Option<Links>, AllocError>
    ensures { IfOk result (λ o. IfSome o (AreLinksOf clause.now)) }
{
    if !some_free(clause.left()) && !some_free(clause.right()) {
        return Ok(None);
    }
    let links = clause_links(alloc, clause)?;
    Ok(Some(links))
}

impl MarkedClause {
    pub fn of(alloc: Global, clause: Sequent) -> Result<MarkedClause, AllocError>
        ensures { IfOk result (λ m. m ≡ clause) }
    {
        let left = with_marks(alloc, clause.left())?;
        let right = with_marks(alloc, clause.right())?;
        let left_marks = side_marks(left.as_slice());
        let right_marks = side_marks(right.as_slice());
        let links = open_links(alloc, &clause)?;
        let cell = MarkedCell {
            clause,
            left,
            right,
        };
        let cell = Arc::new(alloc, cell)?;
        Ok(MarkedClause {
            left_marks,
            right_marks,
            links,
            cell,
        })
    }

    pub fn copy(&self) -> Result<MarkedClause, AllocError>
        ensures { IfOk result (λ m. m ≡ self.now) }
    {
        let cell = Arc::try_clone(&self.cell)?;
        Ok(MarkedClause {
            left_marks: self.left_marks,
            right_marks: self.right_marks,
            links: self.links,
            cell,
        })
    }

    pub fn clause(&self) -> &Sequent
        ensures { result.now ≡ self.now }
    {
        &self.cell.clause
    }

    /// The atoms of one side.
    pub fn side(&self, is_left: bool) -> &[MarkedAtom]
        ensures { result.now ≡ set.listing (side_at is_left self.now) }
    {
        if is_left {
            return self.cell.left.as_slice();
        }
        self.cell.right.as_slice()
    }

    /// Whether the other clause has all marks and links of this one. Else it isn't subsumed.
    pub fn has_marks_within(&self, other: &MarkedClause) -> bool
        ensures { result ≡ false → Subsumes self.now other.now → ⊥ }
    {
        if self.left_marks | other.left_marks != other.left_marks {
            return false;
        }
        if self.right_marks | other.right_marks != other.right_marks {
            return false;
        }
        let Some(links) = self.links else {
            return true;
        };
        let Some(others) = other.links else {
            return true;
        };
        links.needed | others.offered == others.offered
    }

    /// Whether each atom has its marks within those of an atom on the same side of the other clause. Else it doesn't subsume that.
    pub fn has_atoms_within(&self, other: &MarkedClause) -> bool
        ensures { result ≡ false → Subsumes self.now other.now → ⊥ }
    {
        if !are_within_some(self.side(true), other.side(true)) {
            return false;
        }
        are_within_some(self.side(false), other.side(false))
    }
}
