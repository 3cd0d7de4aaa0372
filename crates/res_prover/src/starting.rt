//! What is kept before the first round.
ghost use Rattle.std.specs.Prelude.{◌≡◌, [], map, IfOk};
ghost use Rattle.std.specs.List.{All};
ghost use Rattle.clause_laws.specs.Subsumption.{IsClause};
ghost use Rattle.clause_laws.specs.Normal.{normal as normal_of};
ghost use Rattle.clause_laws.specs.Keeping.{with_each};
ghost use Rattle.res_prover.specs.Kept.{kept_clauses, IsNew, WithInput};

use crate::keeping::{in_front, is_covered};
use crate::kept::{Kept, as_new};
use crate::normal::normal;
use crate::notes::{Notes, Source};
use lk_rules::Sequent;
use std::alloc::{AllocError, Global};

// One input clause more, with numbered variables, unless it is covered.
fn with_input(
    alloc: Global,
    kept: Vec<Kept>,
    clause: &Sequent,
    number: usize,
    notes: &mut Notes,
) -> Result<Vec<Kept>, AllocError>
    requires clause { IsClause clause.now }
    requires kept { All IsClause (kept_clauses kept.items) }
    ensures { IfOk result (λ v. WithInput clause.now kept.items v.items) }
{
    let (clause, numbering) = normal(alloc, clause)?;
    let one = as_new(alloc, clause, notes.all().len())?;
    if is_covered(alloc, kept.as_slice(), &one)? {
        return Ok(kept);
    }
    notes.push(Source::Input(number), numbering, one.clause.clause())?;
    let front = in_front(alloc, kept.as_slice(), one)?;
    Ok(front)
}

/// The clauses with numbered variables, without those that others make needless. All are new.
pub(crate) fn start(
    alloc: Global,
    clauses: &[Sequent],
    notes: &mut Notes,
) -> Result<Vec<Kept>, AllocError>
    requires { All IsClause clauses.now }
    ensures clauses { IfOk result (λ v. kept_clauses v.items ≡ with_each [] (map normal_of clauses.now)) }
    ensures is_new { IfOk result (λ v. All IsNew v.items) }
{
    let mut kept = Vec::new(alloc);
    for place in 0..clauses.len() {
        kept = with_input(alloc, kept, &clauses[place], place, notes)?;
    }
    Ok(kept)
}
