//! Clauses as sequents.
ghost use Rattle.std.specs.Prelude.{◌≡◌, IfOk};
ghost use Rattle.fol.specs.Formed.{IsFormed};
ghost use Rattle.lk_rules.specs.Sequents.{empty, adds_to};
ghost use Rattle.refutations.specs.Clauses.{literals_of};
ghost use Rattle.proof_trees.specs.FormulaSets.{without as without_atom};
ghost use Rattle.refutations.specs.Refutations.{resolvent as resolvent_of};

use fol::{Formula, FormulaNode};
use lk_rules::{Formulas, Sequent, Side};
use std::alloc::{AllocError, Global};

// The sequent with one formula on one side.
fn one_literal(alloc: Global, side: Side, atom: &Formula) -> Result<Sequent, AllocError>
    requires { IsFormed atom.now }
    ensures { IfOk result (λ s. s ≡ adds_to empty side atom.now) }
{
    let mut sequent = Sequent::empty(alloc);
    sequent.add(side, atom.copy()?)?;
    Ok(sequent)
}

/// The literals of a disjunction of literals: the negated atoms on the left, the others on the right, and nothing for `$false`.
pub fn literals(alloc: Global, matrix: &Formula) -> Result<Sequent, AllocError>
    requires { IsFormed matrix.now }
    ensures { IfOk result (λ s. s ≡ literals_of matrix.now) }
{
    match matrix.node() {
        FormulaNode::Or(first, second) => {
            let first = literals(alloc, first)?;
            let second = literals(alloc, second)?;
            first.union(alloc, &second)
        }
        FormulaNode::Not(atom) => one_literal(alloc, Side::Left, atom),
        FormulaNode::Bot => Ok(Sequent::empty(alloc)),
        FormulaNode::Atom(..)
        | FormulaNode::Top
        | FormulaNode::And(..)
        | FormulaNode::Imp(..)
        | FormulaNode::All(..)
        | FormulaNode::Ex(..) => one_literal(alloc, Side::Right, matrix),
    }
}

// The set without one formula.
fn without(alloc: Global, formulas: &Formulas, atom: &Formula) -> Result<Formulas, AllocError>
    ensures { IfOk result (λ kept. kept ≡ without_atom formulas.now atom.now) }
{
    let mut kept = Vec::new(alloc);
    for formula in formulas.as_slice() {
        if atom != formula {
            kept.push(formula.copy()?)?;
        }
    }
    Formulas::from_vec(alloc, kept)
}

/// What is left of two clauses when the atom goes from the right of the first and from the left of the second.
pub fn resolvent(
    alloc: Global,
    positive: &Sequent,
    negative: &Sequent,
    atom: &Formula,
) -> Result<Sequent, AllocError>
    ensures { IfOk result (λ s. s ≡ resolvent_of positive.now negative.now atom.now) }
{
    let first = Sequent {
        left: positive.left.copy()?,
        right: without(alloc, &positive.right, atom)?,
    };
    let second = Sequent {
        left: without(alloc, &negative.left, atom)?,
        right: negative.right.copy()?,
    };
    first.union(alloc, &second)
}
