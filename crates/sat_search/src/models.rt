//! Models of clauses.
ghost use Rattle.std.specs.Prelude.{◌≡◌, Bool, true, not, IfOk, OnOk};
ghost use Rattle.std.specs.List.{All, list_all, list_any};
ghost use Rattle.finite.specs.Finite as set;
ghost use Rattle.fol.specs.Formed.{IsFormed};
ghost use Rattle.fol.specs.Syntax.{Formula as Atom};
ghost use Rattle.ground_laws.specs.Models.{satisfies, IsModel};
ghost use Rattle.sat_search.specs.Grounds.{clause_of, clauses_of};

use crate::ground::Ground;
use crate::literal::Literal;
use crate::numbering::Numbering;
use crate::solver::Solver;
use fol::Formula;
use lk_rules::Formulas;
use std::alloc::{AllocError, Global};

// Whether one of the formulas isn't among the atoms.
fn lacks_one(atoms: &Formulas, formulas: &Formulas) -> bool
    ensures { result ≡ list_any (λ f. not (set.has atoms.now f)) (set.listing formulas.now) }
{
    formulas.as_slice().iter().any(|atom| !atoms.has(atom))
}

// Whether one of them is.
fn has_one(atoms: &Formulas, formulas: &Formulas) -> bool
    ensures { result ≡ list_any (set.has atoms.now) (set.listing formulas.now) }
{
    formulas.as_slice().iter().any(|atom| atoms.has(atom))
}

// Whether the clause holds where just these atoms are true.
fn holds(atoms: &Formulas, clause: &Ground) -> bool
    ensures { result ≡ satisfies atoms.now (clause_of clause.now) }
{
    has_one(atoms, &clause.positive) || lacks_one(atoms, &clause.negative)
}

// Whether all clauses do.
fn all_hold(atoms: &Formulas, clauses: &[Ground]) -> bool
    ensures { result ≡ list_all (λ clause. satisfies atoms.now (clause_of clause)) clauses.now }
{
    clauses.iter().all(|clause| holds(atoms, clause))
}

// Appends the positive atoms of a clause, with these literals, that a search made true.
fn push_true(
    atoms: &mut Vec<Formula>,
    literals: &[Literal],
    solver: &Solver,
    clause: &Ground,
) -> Result<(), AllocError>
    ensures formed { All IsFormed atoms.old.items → OnOk result (All IsFormed atoms.new.items) }
    ensures own { (p : Atom → Bool) → list_all p (set.listing clause.now.positive) ≡ true → list_all p atoms.old.items ≡ true → OnOk result (list_all p atoms.new.items ≡ true) }
{
    let mut place = clause.negative.as_slice().len();
    for atom in clause.positive.as_slice() {
        if let Some(literal) = literals.get(place)
            && solver.is_true(*literal)
        {
            atoms.push(atom.copy()?)?;
        }
        place = place.saturating_add(1);
    }
    Ok(())
}

/// The model that a search found. Where what it found is none, that is refused as want of memory.
pub(crate) fn model(
    alloc: Global,
    clauses: &[Ground],
    numbering: &Numbering,
    solver: &Solver,
) -> Result<Formulas, AllocError>
    ensures { IfOk result (λ model. IsModel model (clauses_of clauses.now)) }
{
    let mut atoms = Vec::new(alloc);
    let mut number: usize = 0;
    for clause in clauses {
        push_true(&mut atoms, numbering.literals(number), solver, clause)?;
        number = number.saturating_add(1);
    }
    let atoms = Formulas::from_vec(alloc, atoms)?;
    if !all_hold(&atoms, clauses) {
        return Err(AllocError);
    }
    Ok(atoms)
}
