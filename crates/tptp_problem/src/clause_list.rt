//! The clauses of a problem.
ghost use Rattle.std.specs.Prelude.{◌≡◌, IfOk};
ghost use Rattle.std.specs.List.{All};
ghost use Rattle.refutations.specs.Clauses.{IsClauseOf};
ghost use Rattle.tptp_problem.specs.ProblemClauses.{clauses_of, IsReadProblem};

use crate::problems::{Language, Problem};
use refutations::{Clause, clause_of};
use std::alloc::{AllocError, Global};

/// The clauses of a problem: its `cnf` entries in order, each with its formula as the matrix, and the variables of that in the order in
/// which each occurs first. The `fof` entries are left out.
pub fn clauses(alloc: Global, problem: &Problem) -> Result<Vec<Clause>, AllocError>
    ensures value { IfOk result (λ cs. cs.items ≡ clauses_of problem.now.entries) }
    // The clauses of a problem that was read are disjunctions of literals.
    ensures clauses { IsReadProblem problem.now → IfOk result (λ cs. All IsClauseOf cs.items) }
{
    let mut clauses = Vec::new(alloc);
    for entry in problem.entries.as_slice() {
        if entry.language == Language::Cnf {
            clauses.push(clause_of(alloc, &entry.formula)?)?;
        }
    }
    Ok(clauses)
}
