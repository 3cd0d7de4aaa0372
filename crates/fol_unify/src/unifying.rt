//! Most general unifiers.
ghost use Rattle.std.specs.Prelude.{◌≡◌, ◌≢◌, ◌||◌, true, Option, Some, Err, IfOk, is_some, length};
ghost use Rattle.std.specs.FinMap as fin;
ghost use Rattle.fol.specs.declared.symbols.Var.{Var as Variable};
ghost use Rattle.fol.specs.Syntax.{Term as Meaning, free};
ghost use Rattle.free_variables.specs.Occurrence.{is_free_in_term};
ghost use Rattle.substitution.specs.Image.{image_term, IsFormedMap};
ghost use Rattle.unify_laws.specs.Equations.{is_free_in_equations, AreFormed, Unifies};
ghost use Rattle.fol_unify.specs.Solving.{AreSolved};
ghost use Rattle.fol_unify.specs.declared.faults.UnifyFault.TheVariants.{NoUnifier};

use crate::faults::UnifyFault;
use crate::joining::solved_roots;
use crate::values::{all_values, solution};
use arena_cells::Cells;
use fol::Term;
use std::alloc::Global;
use substitution::Subst;
use unify_laws::laws;

// The map of the values of classes, from their roots.
fn map_of(
    alloc: Global,
    cells: &mut Cells,
    pairs: &[(Term, Term)],
    roots: &[u32],
) -> Result<Subst, UnifyFault>
    requires solved { AreSolved cells.old pairs.now roots.now }
    requires count { length roots.now ≡ length cells.old }
    ensures unifies { IfOk result (λ m. Unifies (fin.get m) pairs.now) }
    ensures general { IfOk result (λ m. (h : Variable → Option Meaning) → Unifies h pairs.now → (t : Meaning) → image_term h (image_term (fin.get m) t) ≡ image_term h t) }
    ensures proper { IfOk result (λ m. (v : Variable) (t : Meaning) → fin.get m v ≡ Some t → t ≢ free v) }
    ensures none { result ≡ Err NoUnifier → (h : Variable → Option Meaning) → Unifies h pairs.now → ⊥ }
{
    let marks = all_values(alloc, cells, pairs, roots)?;
    cells.known();
    let map = solution(alloc, cells, pairs, roots, marks.as_slice())?;
    Ok(map)
}

// A map that makes the sides equal, and such that each other one does the same after it as without it. It binds no variable to itself.
fn solve(alloc: Global, pairs: &[(Term, Term)]) -> Result<Subst, UnifyFault>
    ensures unifies { IfOk result (λ m. Unifies (fin.get m) pairs.now) }
    ensures general { IfOk result (λ m. (h : Variable → Option Meaning) → Unifies h pairs.now → (t : Meaning) → image_term h (image_term (fin.get m) t) ≡ image_term h t) }
    ensures proper { IfOk result (λ m. (v : Variable) (t : Meaning) → fin.get m v ≡ Some t → t ≢ free v) }
    ensures none { result ≡ Err NoUnifier → (h : Variable → Option Meaning) → Unifies h pairs.now → ⊥ }
{
    let mut cells = Cells::new(alloc);
    let roots = solved_roots(alloc, &mut cells, pairs)?;
    let map = map_of(alloc, &mut cells, pairs, roots.as_slice())?;
    Ok(map)
}

/// A most general unifier of pairs of terms, where there is a unifier (Robinson 1965): terms by numbers are put into classes (Huet 1976), so
/// that each pair of parts is looked at once, and shared parts of the solution are made once. It has terms for variables of the pairs alone.
pub fn mgu(alloc: Global, pairs: &[(Term, Term)]) -> Result<Subst, UnifyFault>
    requires formed { AreFormed pairs.now }
    ensures unifies { IfOk result (λ m. Unifies (fin.get m) pairs.now) }
    ensures general { IfOk result (λ m. (h : Variable → Option Meaning) → Unifies h pairs.now → (t : Meaning) → image_term h (image_term (fin.get m) t) ≡ image_term h t) }
    ensures bound { IfOk result (λ m. (v : Variable) → is_some (fin.get m v) ≡ true → is_free_in_equations v pairs.now ≡ true) }
    ensures variables { IfOk result (λ m. (v : Variable) (t : Meaning) → is_free_in_term v (image_term (fin.get m) t) ≡ true → (is_free_in_term v t || is_free_in_equations v pairs.now) ≡ true) }
    ensures idempotent { IfOk result (λ m. (t : Meaning) → image_term (fin.get m) (image_term (fin.get m) t) ≡ image_term (fin.get m) t) }
    ensures formed { IfOk result (λ m. IsFormedMap (fin.get m)) }
    ensures none { result ≡ Err NoUnifier → (h : Variable → Option Meaning) → Unifies h pairs.now → ⊥ }
{
    laws::most_general_unifiers();
    laws::no_unifier();
    let map = solve(alloc, pairs)?;
    Ok(map)
}
