//! Clauses that a search keeps.
ghost use Rattle.std.specs.Prelude.{◌≡◌, true, IfOk};
ghost use Rattle.res_prover.specs.Kept.{kept_clauses};

use crate::marked::MarkedClause;
use lk_rules::Sequent;
use std::alloc::{AllocError, Global};

/// A clause that is kept, with numbered variables.
#[derive(Drop)]
pub(crate) struct Kept {
    pub clause: MarkedClause,
    /// Whether the last round added it.
    pub is_new: bool,
    /// The number of its note.
    pub number: usize,
}

/// The clause as a new one.
pub(crate) fn as_new(alloc: Global, clause: Sequent, number: usize) -> Result<Kept, AllocError>
    ensures clause { IfOk result (λ k. k.clause ≡ clause) }
    ensures is_new { IfOk result (λ k. k.is_new ≡ true) }
{
    let clause = MarkedClause::of(alloc, clause)?;
    Ok(Kept {
        clause,
        is_new: true,
        number,
    })
}

/// The same, whose clause is shared.
pub(crate) fn copied(kept: &Kept) -> Result<Kept, AllocError>
    ensures { IfOk result (λ k. k ≡ kept.now) }
{
    Ok(Kept {
        clause: kept.clause.copy()?,
        is_new: kept.is_new,
        number: kept.number,
    })
}

// The same clause, as one that stood before the round.
fn as_old(kept: &Kept) -> Result<Kept, AllocError>
    ensures { IfOk result (λ k. k.clause ≡ kept.now.clause) }
{
    Ok(Kept {
        clause: kept.clause.copy()?,
        is_new: false,
        number: kept.number,
    })
}

/// The clauses as those that stand before a round.
pub(crate) fn all_as_old(alloc: Global, kept: &[Kept]) -> Result<Vec<Kept>, AllocError>
    ensures { IfOk result (λ v. kept_clauses v.items ≡ kept_clauses kept.now) }
{
    let mut all = Vec::with_capacity(alloc, kept.len())?;
    for place in 0..kept.len() {
        let one = as_old(&kept[place])?;
        all.push(one)?;
    }
    Ok(all)
}

/// The clauses alone, which are shared.
pub(crate) fn clauses_alone(alloc: Global, kept: &[Kept]) -> Result<Vec<Sequent>, AllocError>
    ensures { IfOk result (λ v. v.items ≡ kept_clauses kept.now) }
{
    let mut all = Vec::with_capacity(alloc, kept.len())?;
    for place in 0..kept.len() {
        let clause = kept[place].clause.clause();
        all.push(clause.copy()?)?;
    }
    Ok(all)
}
