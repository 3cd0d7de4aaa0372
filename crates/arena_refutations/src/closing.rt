//! The closures of clauses.
ghost use Rattle.std.specs.Prelude.{◌≡◌, IfOk, map};
ghost use Rattle.std.specs.List.{All};
ghost use Rattle.fol.specs.Formed.{IsFormed};
ghost use Rattle.finite.specs.Finite as set;
ghost use Rattle.arena_cells.specs.Standing.{Extends, HasFormula, HasSequent, formula_at, IsFormulaAt};
ghost use Rattle.arena_cells.specs.Meaning.{formulas_of};
ghost use Rattle.refutations.specs.Clauses.{IsClauseOf, closure_of};
ghost use Rattle.arena_refutations.specs.Standing.{IsClosedAt};

use arena::Arena;
use refutations::Clause;
use std::alloc::{AllocError, Global};
use substitution::close_all;

/// The closures of the clauses, by numbers: of each one, and as a sequent.
#[derive(Drop)]
pub(crate) struct Closed {
    pub closures: Vec<u32>,
    pub end: u32,
}

// The closure of a clause.
fn close(arena: &mut Arena, alloc: Global, clause: &Clause) -> Result<u32, AllocError>
    requires { IsClauseOf clause.now }
    ensures closure { IfOk result (λ n. HasFormula arena.new n (closure_of clause.now)) }
    ensures formed { IfOk result (λ _. IsFormed (closure_of clause.now)) }
    ensures grown { Extends arena.old arena.new }
{
    let closure = close_all(alloc, clause.vars.as_slice(), &clause.matrix)?;
    arena.import_formula(alloc, &closure)
}

// The closure of each clause.
fn close_each(arena: &mut Arena, alloc: Global, clauses: &[Clause]) -> Result<Vec<u32>, AllocError>
    requires { All IsClauseOf clauses.now }
    ensures closures { IfOk result (λ ns. map (formula_at arena.new) ns.items ≡ map closure_of clauses.now) }
    ensures there { IfOk result (λ ns. All (IsFormulaAt arena.new) ns.items) }
    ensures formed { IfOk result (λ _. All (λ c. IsFormed (closure_of c)) clauses.now) }
    ensures grown { Extends arena.old arena.new }
{
    let mut numbers = Vec::with_capacity(alloc, clauses.len())?;
    for clause in clauses {
        numbers.push(close(arena, alloc, clause)?)?;
    }
    Ok(numbers)
}

// The sequent of the formulas on the left, and nothing on the right.
fn put_left(arena: &mut Arena, alloc: Global, formulas: &[u32]) -> Result<u32, AllocError>
    requires { All (IsFormulaAt arena.old) formulas.now }
    ensures sequent { IfOk result (λ n. HasSequent arena.new n (record { left = formulas_of arena.old formulas.now; right = set.empty })) }
    ensures grown { Extends arena.old arena.new }
{
    let left = arena.put_side(alloc, Vec::from_slice(alloc, formulas)?)?;
    let right = arena.put_side(alloc, Vec::new(alloc))?;
    arena.put_sequent(alloc, left, right)
}

/// Closes the clauses.
pub(crate) fn close_clauses(
    arena: &mut Arena,
    alloc: Global,
    clauses: &[Clause],
) -> Result<Closed, AllocError>
    requires { All IsClauseOf clauses.now }
    ensures closed { IfOk result (IsClosedAt arena.new clauses.now) }
    ensures formed { IfOk result (λ _. All (λ c. IsFormed (closure_of c)) clauses.now) }
    ensures grown { Extends arena.old arena.new }
{
    let closures = close_each(arena, alloc, clauses)?;
    let end = put_left(arena, alloc, &closures)?;
    Ok(Closed { closures, end })
}
