//! Unfoldings of atoms whose predicate symbols have bodies.
ghost use Rattle.std.specs.Prelude.{◌≡◌, ◌+◌, ◌^◌, ◌≤◌, ◌↔◌, IsTrue, Some, IfOk, IfSome, unwrap_or};
ghost use Rattle.std.specs.Ordering.{eq_by_cmp};
ghost use Rattle.fol.specs.Syntax.{bound};
ghost use Rattle.fol.specs.Order.{formula_cmp, term_cmp, terms_cmp};
ghost use Rattle.fol.specs.Facts.{formula_size};
ghost use Rattle.fol.specs.Formed.{count_terms, IsFormed};
ghost use Rattle.substitution.specs.Unfolding.{argument as argument_of, put_term_at, put_terms_at, put_at, matrix_under, unf, is_just};

use crate::sharing::{
    or_copy, term_with_arguments, with_arguments, with_body, with_elements, with_parts,
};
use fol::{Formula, FormulaNode, Term, TermNode, Terms, TermsLink};
use std::alloc::{AllocError, Global};

/// The unfolding of an atom whose predicate symbol has a body: the body with the atom's arguments put for its leading quantifiers, the
/// first argument for the outermost. Nothing, exactly where the formula isn't such an atom. What doesn't change is shared.
#[tactic(auto, using(crate::proofs::Unfoldings::formed_answer))]
pub fn unfold(alloc: Global, formula: &Formula) -> Result<Option<Formula>, AllocError>
    ensures value { IfOk result (λ new. new ≡ unf formula.now) }
    ensures formed { IsFormed formula.now → IfOk result (λ new. IfSome new IsFormed) }
{
    let unfolding = unfolding_of(alloc, formula)?;
    Ok(unfolding)
}

/// Whether the first formula is an atom whose predicate symbol has a body, and the second is its unfolding. It takes no memory.
pub fn is_unfolding(formula: &Formula, other: &Formula) -> bool
    ensures value { result ≡ is_just (unf formula.now) other.now }
    ensures same { IsTrue result ↔ (unf formula.now ≡ Some other.now) }
{
    is_unfolding_of(formula, other)
}

fn unfolding_of(alloc: Global, formula: &Formula) -> Result<Option<Formula>, AllocError>
    ensures { IfOk result (λ new. new ≡ unf formula.now) }
{
    let FormulaNode::Atom(predicate, arguments) = formula.node() else {
        return Ok(None);
    };
    let Some(body) = &predicate.body else {
        return Ok(None);
    };
    let matrix = matrix(body, arguments);
    let is_small = matrix.size() < 1 << 31;
    prove!(is_small);
    let changed = put_in(alloc, matrix, arguments, u64::from(count(arguments)))?;
    Ok(Some(or_copy(changed, matrix)?))
}

fn is_unfolding_of(formula: &Formula, other: &Formula) -> bool
    ensures { result ≡ is_just (unf formula.now) other.now }
{
    let FormulaNode::Atom(predicate, arguments) = formula.node() else {
        return false;
    };
    let Some(body) = &predicate.body else {
        return false;
    };
    let matrix = matrix(body, arguments);
    let is_small = matrix.size() < 1 << 31;
    prove!(is_small);
    is_put_in(matrix, arguments, other, u64::from(count(arguments)))
}

// The formula without its outermost universal quantifiers, one for each argument.
fn matrix<'a>(formula: &'a Formula, arguments: &Terms) -> &'a Formula
    ensures { result.now ≡ matrix_under arguments.now formula.now }
{
    match (arguments.link(), formula.node()) {
        (TermsLink::Cons(_, rest), FormulaNode::All(body)) => matrix(body, rest),
        _ => formula,
    }
}

// How many terms the list has: no more than nodes.
#[tactic(auto, using(crate::proofs::Unfoldings::count_within))]
fn count(terms: &Terms) -> u32
    ensures value { result ≡ count_terms terms.now }
    ensures within { result ≤ 2 ^ 26 }
{
    let size = terms.size();
    let count = match terms.link() {
        TermsLink::Nil => 0,
        TermsLink::Cons(_, rest) => count(rest) + 1,
    };
    prove!(count <= size);
    count
}

// The arguments put for the innermost of `level` quantifiers. Formulas are so small that the levels are counted exactly.
fn put_in(
    alloc: Global,
    formula: &Formula,
    arguments: &Terms,
    level: u64,
) -> Result<Option<Formula>, AllocError>
    requires { level + formula_size formula.now ≤ 2 ^ 32 }
    ensures { IfOk result (λ new. unwrap_or new formula.now ≡ put_at arguments.now level formula.now) }
{
    match formula.node() {
        FormulaNode::Atom(_, terms) => {
            let terms = put_in_terms(alloc, terms, arguments, level)?;
            with_arguments(alloc, formula, terms)
        }
        FormulaNode::Top | FormulaNode::Bot => Ok(None),
        FormulaNode::Not(body) => {
            let body = put_in(alloc, body, arguments, level)?;
            with_body(alloc, formula, body)
        }
        FormulaNode::All(body) | FormulaNode::Ex(body) => {
            let body = put_in(alloc, body, arguments, level + 1)?;
            with_body(alloc, formula, body)
        }
        FormulaNode::And(first, second)
        | FormulaNode::Or(first, second)
        | FormulaNode::Imp(first, second) => {
            let first = put_in(alloc, first, arguments, level)?;
            let second = put_in(alloc, second, arguments, level)?;
            with_parts(alloc, formula, first, second)
        }
    }
}

#[cycle(term_put)]
fn put_in_term(
    alloc: Global,
    term: &Term,
    arguments: &Terms,
    level: u64,
) -> Result<Option<Term>, AllocError>
    ensures { IfOk result (λ new. unwrap_or new term.now ≡ put_term_at arguments.now level term.now) }
{
    match term.node() {
        TermNode::Free(_) => Ok(None),
        TermNode::Bound(index) => argument(arguments, level, *index),
        TermNode::App(_, terms) => {
            let terms = put_in_terms(alloc, terms, arguments, level)?;
            term_with_arguments(alloc, term, terms)
        }
    }
}

#[cycle(term_put)]
fn put_in_terms(
    alloc: Global,
    terms: &Terms,
    arguments: &Terms,
    level: u64,
) -> Result<Option<Terms>, AllocError>
    ensures { IfOk result (λ new. unwrap_or new terms.now ≡ put_terms_at arguments.now level terms.now) }
{
    match terms.link() {
        TermsLink::Nil => Ok(None),
        TermsLink::Cons(first, rest) => {
            let first = put_in_term(alloc, first, arguments, level)?;
            let rest = put_in_terms(alloc, rest, arguments, level)?;
            with_elements(alloc, terms, first, rest)
        }
    }
}

// The argument for an index inside `level` quantifiers, the outermost of which is that of the first argument.
fn argument(arguments: &Terms, level: u64, index: u32) -> Result<Option<Term>, AllocError>
    ensures { IfOk result (λ new. unwrap_or new (bound index) ≡ argument_of arguments.now level index) }
{
    match arguments.link() {
        TermsLink::Nil => Ok(None),
        TermsLink::Cons(first, rest) => {
            if u64::from(index) + 1 == level {
                Ok(Some(first.copy()?))
            } else {
                argument(rest, level.saturating_sub(1), index)
            }
        }
    }
}

// Whether the second formula is the first with the arguments put for the innermost of `level` quantifiers.
#[tactic(auto, using(crate::proofs::Ties::eq_then))]
fn is_put_in(formula: &Formula, arguments: &Terms, other: &Formula, level: u64) -> bool
    requires { level + formula_size formula.now ≤ 2 ^ 32 }
    ensures { result ≡ eq_by_cmp formula_cmp (put_at arguments.now level formula.now) other.now }
{
    match (formula.node(), other.node()) {
        (FormulaNode::Atom(p, ts), FormulaNode::Atom(q, us)) => {
            p == q && is_put_in_terms(ts, arguments, us, level)
        }
        (FormulaNode::Top, FormulaNode::Top) | (FormulaNode::Bot, FormulaNode::Bot) => true,
        (FormulaNode::Not(f), FormulaNode::Not(g)) => is_put_in(f, arguments, g, level),
        (FormulaNode::All(f), FormulaNode::All(g)) | (FormulaNode::Ex(f), FormulaNode::Ex(g)) => {
            is_put_in(f, arguments, g, level + 1)
        }
        (FormulaNode::And(a, b), FormulaNode::And(c, d))
        | (FormulaNode::Or(a, b), FormulaNode::Or(c, d))
        | (FormulaNode::Imp(a, b), FormulaNode::Imp(c, d)) => {
            is_put_in(a, arguments, c, level) && is_put_in(b, arguments, d, level)
        }
        _ => false,
    }
}

#[cycle(is_term_put)]
#[tactic(auto, using(crate::proofs::Ties::eq_then))]
fn is_put_in_term(term: &Term, arguments: &Terms, other: &Term, level: u64) -> bool
    ensures { result ≡ eq_by_cmp term_cmp (put_term_at arguments.now level term.now) other.now }
{
    match (term.node(), other.node()) {
        (TermNode::Bound(index), _) => is_argument(arguments, level, *index, other),
        (TermNode::Free(v), TermNode::Free(w)) => v == w,
        (TermNode::App(s, ts), TermNode::App(r, us)) => {
            s == r && is_put_in_terms(ts, arguments, us, level)
        }
        _ => false,
    }
}

#[cycle(is_term_put)]
#[tactic(auto, using(crate::proofs::Ties::eq_then))]
fn is_put_in_terms(terms: &Terms, arguments: &Terms, others: &Terms, level: u64) -> bool
    ensures { result ≡ eq_by_cmp terms_cmp (put_terms_at arguments.now level terms.now) others.now }
{
    match (terms.link(), others.link()) {
        (TermsLink::Nil, TermsLink::Nil) => true,
        (TermsLink::Cons(t, ts), TermsLink::Cons(u, us)) => {
            is_put_in_term(t, arguments, u, level) && is_put_in_terms(ts, arguments, us, level)
        }
        _ => false,
    }
}

// Whether the term is the argument for an index inside `level` quantifiers.
fn is_argument(arguments: &Terms, level: u64, index: u32, other: &Term) -> bool
    ensures { result ≡ eq_by_cmp term_cmp (argument_of arguments.now level index) other.now }
{
    match arguments.link() {
        TermsLink::Nil => matches!(other.node(), TermNode::Bound(same) if *same == index),
        TermsLink::Cons(first, rest) => {
            if u64::from(index) + 1 == level {
                first == other
            } else {
                is_argument(rest, level.saturating_sub(1), index, other)
            }
        }
    }
}
