//! Instances of quantified formulas, and of their matrices.
ghost use Rattle.std.specs.Prelude.{◌≡◌, true, IfOk};
ghost use Rattle.fol.specs.Formed.{are_formed_terms_at, IsFormed, IsFormedTerm};
ghost use Rattle.herbrand_laws.specs.Herbrand.{instance_of as instance_by, matrix_instance as matrix_by};

use fol::{Formula, FormulaNode, Term, Terms, TermsLink};
use std::alloc::{AllocError, Global};
use substitution::instance;

/// The instance of a quantified formula by a term. Another formula is its own.
pub(crate) fn instance_of(
    alloc: Global,
    formula: &Formula,
    term: &Term,
) -> Result<Formula, AllocError>
    requires formula { IsFormed formula.now }
    requires term { IsFormedTerm term.now }
    ensures value { IfOk result (λ f. f ≡ instance_by formula.now term.now) }
    ensures formed { IfOk result IsFormed }
{
    match formula.node() {
        FormulaNode::All(body) | FormulaNode::Ex(body) => instance(alloc, body, term),
        FormulaNode::Atom(..)
        | FormulaNode::Top
        | FormulaNode::Bot
        | FormulaNode::Not(_)
        | FormulaNode::And(..)
        | FormulaNode::Or(..)
        | FormulaNode::Imp(..) => formula.copy(),
    }
}

/// The instance of the formula's matrix by a tuple of as many terms as there are quantifiers.
pub(crate) fn matrix_instance(
    alloc: Global,
    formula: &Formula,
    tuple: &Terms,
) -> Result<Formula, AllocError>
    requires formula { IsFormed formula.now }
    requires tuple { are_formed_terms_at 0 tuple.now ≡ true }
    ensures value { IfOk result (λ f. f ≡ matrix_by tuple.now formula.now) }
    ensures formed { IfOk result IsFormed }
{
    match tuple.link() {
        TermsLink::Nil => formula.copy(),
        TermsLink::Cons(term, rest) => {
            let next = instance_of(alloc, formula, term)?;
            matrix_instance(alloc, &next, rest)
        }
    }
}
