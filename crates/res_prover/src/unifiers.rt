//! Most general unifiers of atoms.
ghost use Rattle.std.specs.Prelude.{◌≡◌, ◌∷◌, true, Option, None, Ok, IfOk, IfSome, map};
ghost use Rattle.std.specs.List.{All, list_all};
ghost use Rattle.std.specs.Ordering.{eq_by_cmp};
ghost use Rattle.fol.specs.declared.symbols.Var.{Var as Variable};
ghost use Rattle.fol.specs.Order.{formula_cmp};
ghost use Rattle.fol.specs.Syntax.{Term as Meaning, Formula as Atom};
ghost use Rattle.clause_laws.specs.Unifiers.{set_of, MakesAll, term_of, same_predicate as are_of_one, equations as equations_of};
ghost use Rattle.res_prover.specs.Resolved.{IsAtomFormed, IsUnifierFor};

use clause_laws::laws;
use fol::{Formula, FormulaNode, Term};
use fol_unify::{UnifyFault, mgu};
use std::alloc::{AllocError, Global};
use substitution::Subst;

// An atom as a term.
fn atom_term(alloc: Global, atom: &Formula) -> Result<Term, AllocError>
    ensures { IfOk result (λ t. t ≡ term_of atom.now) }
{
    match atom.node() {
        FormulaNode::Atom(predicate, terms) => {
            Term::app(alloc, predicate.symbol.copy()?, terms.copy()?)
        }
        FormulaNode::Top
        | FormulaNode::Bot
        | FormulaNode::Not(_)
        | FormulaNode::And(..)
        | FormulaNode::Or(..)
        | FormulaNode::Imp(..)
        | FormulaNode::All(_)
        | FormulaNode::Ex(_) => Term::bound(alloc, 0),
    }
}

// Whether both are atoms of one predicate symbol.
fn same_predicate(first: &Formula, other: &Formula) -> bool
    ensures { result ≡ are_of_one first.now other.now }
{
    let FormulaNode::Atom(predicate, _) = first.node() else {
        return false;
    };
    let FormulaNode::Atom(same, _) = other.node() else {
        return false;
    };
    predicate == same
}

fn all_same(first: &Formula, others: &[Formula]) -> bool
    ensures { result ≡ list_all (are_of_one first.now) others.now }
{
    others.iter().all(|other| same_predicate(first, other))
}

// Whether all atoms are equal.
fn all_equal(first: &Formula, others: &[Formula]) -> bool
    ensures { result ≡ list_all (eq_by_cmp formula_cmp first.now) others.now }
{
    others.iter().all(|other| first == other)
}

// The equations between the first atom and each other one.
fn equations(
    alloc: Global,
    first: &Formula,
    others: &[Formula],
) -> Result<Vec<(Term, Term)>, AllocError>
    ensures { IfOk result (λ v. v.items ≡ equations_of first.now others.now) }
{
    let mut pairs = Vec::with_capacity(alloc, others.len())?;
    for place in 0..others.len() {
        let one = atom_term(alloc, first)?;
        let other = atom_term(alloc, &others[place])?;
        pairs.push((one, other))?;
    }
    Ok(pairs)
}

/// A most general unifier of atoms, where there is one.
pub(crate) fn unifier(
    alloc: Global,
    first: &Formula,
    others: &[Formula],
) -> Result<Option<Subst>, AllocError>
    requires { All IsAtomFormed (first.now ∷ others.now) }
    ensures some { IfOk result (λ o. IfSome o (IsUnifierFor first.now others.now)) }
    ensures none { result ≡ Ok None → (h : Variable → Option Meaning) (b : Atom) → MakesAll h (set_of (first.now ∷ others.now)) b → ⊥ }
{
    laws::unifiers_of_atoms();
    if all_equal(first, others) {
        let unchanged = Subst::new(alloc);
        return Ok(Some(unchanged));
    }
    if !all_same(first, others) {
        return Ok(None);
    }
    let pairs = equations(alloc, first, others)?;
    match mgu(alloc, pairs.as_slice()) {
        Ok(map) => Ok(Some(map)),
        Err(UnifyFault::NoUnifier) => Ok(None),
        Err(UnifyFault::Memory) => Err(AllocError),
    }
}
