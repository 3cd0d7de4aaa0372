//! What a round prepares of each clause: it is renamed for either place of a resolution, and its atoms are chosen.
ghost use Rattle.std.specs.Prelude.{◌≡◌, IfOk};
ghost use Rattle.std.specs.List.{All};
ghost use Rattle.clause_laws.specs.Subsumption.{IsClause};
ghost use Rattle.res_prover.specs.Kept.{kept_clauses};
ghost use Rattle.res_prover.specs.Partners.{kept_aged, partner_aged, IsPartner};

use crate::choices::choices;
use crate::ground_atoms::{GroundMarks, ground_marks};
use crate::kept::Kept;
use crate::renaming::renamed;
use fol::Formula;
use lk_rules::Sequent;
use std::alloc::{AllocError, Global};

/// A clause that a round takes against the others.
#[derive(Drop)]
pub(crate) struct Partner {
    pub clause: Sequent,
    /// Whether the round before added it.
    pub is_new: bool,
    /// The number of its note.
    pub number: usize,
    /// The clause for the first place, the marks of its right atoms, and the choices of these.
    pub first: Sequent,
    pub right_marks: GroundMarks,
    pub rights: Vec<Vec<Formula>>,
    /// The clause for the second place, the marks of its left atoms, and the choices of these.
    pub second: Sequent,
    pub left_marks: GroundMarks,
    pub lefts: Vec<Vec<Formula>>,
}

// What is prepared of one clause.
fn prepare(alloc: Global, kept: &Kept) -> Result<Partner, AllocError>
    requires { IsClause kept.now.clause }
    ensures clause { IfOk result (λ p. p.clause ≡ kept.now.clause) }
    ensures is_new { IfOk result (λ p. p.is_new ≡ kept.now.is_new) }
    ensures partner { IfOk result IsPartner }
{
    let clause = kept.clause.clause().copy()?;
    let first = renamed(alloc, &clause, false)?;
    let second = renamed(alloc, &clause, true)?;
    let right = first.right();
    let left = second.left();
    let right_marks = ground_marks(right);
    let left_marks = ground_marks(left);
    let rights = choices(alloc, right)?;
    let lefts = choices(alloc, left)?;
    Ok(Partner {
        clause,
        is_new: kept.is_new,
        number: kept.number,
        first,
        right_marks,
        rights,
        second,
        left_marks,
        lefts,
    })
}

/// What is prepared of all clauses.
pub(crate) fn prepare_all(alloc: Global, kept: &[Kept]) -> Result<Vec<Partner>, AllocError>
    requires { All IsClause (kept_clauses kept.now) }
    ensures aged { IfOk result (λ v. partner_aged v.items ≡ kept_aged kept.now) }
    ensures partners { IfOk result (λ v. All IsPartner v.items) }
{
    let mut all = Vec::with_capacity(alloc, kept.len())?;
    for place in 0..kept.len() {
        let one = prepare(alloc, &kept[place])?;
        all.push(one)?;
    }
    Ok(all)
}
