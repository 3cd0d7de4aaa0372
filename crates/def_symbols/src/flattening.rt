//! Formulas in which all defined symbols are unfolded.
ghost use Rattle.std.specs.Prelude.{◌≡◌, ◌+◌, ◌^◌, ◌≤◌, false, IfOk, unwrap_or};
ghost use Rattle.fol.specs.Facts.{formula_size, has_body};
ghost use Rattle.fol.specs.Formed.{count_terms, IsFormed};
ghost use Rattle.fol.specs.Syntax.{bound};
ghost use Rattle.substitution.specs.Unfolding.{argument as argument_of, put_term_at, put_terms_at, matrix_under};
ghost use Rattle.def_laws.specs.Flat.{lifted_term, lifted_terms, lifted_put, flat as flat_of};

use crate::counting::matrix;
use crate::sharing::{
    or_copy, or_copy_term, sides, term_with_arguments, with_arguments, with_body, with_elements,
    with_parts, with_sides,
};
use fol::{Formula, FormulaNode, Term, TermNode, Terms, TermsLink};
use std::alloc::{AllocError, Global};

/// The formula with each atom whose predicate symbol has a body replaced by what it stands for, in bodies too. A part in which no symbol
/// has a body is shared. Where an index would not fit, or the formula would be too large, it is want of memory.
#[tactic(auto, using(crate::proofs::Flattenings::formed_answer, crate::proofs::Flattenings::plain_answer))]
pub fn flat(alloc: Global, formula: &Formula) -> Result<Formula, AllocError>
    ensures value { IfOk result (λ f. f ≡ flat_of formula.now) }
    ensures formed { IsFormed formula.now → IfOk result IsFormed }
    ensures none_left { IfOk result (λ f. has_body f ≡ false) }
{
    let is_short = formula.size() < 1 << 31;
    prove!(is_short);
    let changed = flat_in(alloc, formula)?;
    let flattened = or_copy(changed, formula)?;
    Ok(flattened)
}

#[tactic(auto, using(crate::proofs::Flattenings::flat_without))]
fn flat_in(alloc: Global, formula: &Formula) -> Result<Option<Formula>, AllocError>
    ensures { IfOk result (λ new. unwrap_or new formula.now ≡ flat_of formula.now) }
{
    if !formula.has_body() {
        return Ok(None);
    }
    if let Some((first, second)) = sides(formula) {
        let new_first = flat_in(alloc, first)?;
        let new_second = flat_in(alloc, second)?;
        return with_sides(alloc, first, second, new_first, new_second);
    }
    match formula.node() {
        FormulaNode::Atom(predicate, terms) => match &predicate.body {
            None => Ok(None),
            Some(body) => {
                let body = or_copy(flat_in(alloc, body)?, body)?;
                Ok(Some(with_arguments_put(alloc, &body, terms)?))
            }
        },
        FormulaNode::Top | FormulaNode::Bot => Ok(None),
        FormulaNode::Not(body) | FormulaNode::All(body) | FormulaNode::Ex(body) => {
            let body = flat_in(alloc, body)?;
            with_body(alloc, formula, body)
        }
        FormulaNode::And(first, second)
        | FormulaNode::Or(first, second)
        | FormulaNode::Imp(first, second) => {
            let first = flat_in(alloc, first)?;
            let second = flat_in(alloc, second)?;
            with_parts(alloc, formula, first, second)
        }
    }
}

// The formula without its outermost quantifiers, with the arguments, which may have indices, put for these.
#[tactic(auto, using(crate::proofs::Flattenings::lifted_all_zero))]
fn with_arguments_put(
    alloc: Global,
    body: &Formula,
    arguments: &Terms,
) -> Result<Formula, AllocError>
    ensures { IfOk result (λ f. f ≡ lifted_put arguments.now (count_terms arguments.now) (matrix_under arguments.now body.now)) }
{
    let matrix = matrix(body, arguments);
    let is_small = matrix.size() < 1 << 31;
    prove!(is_small);
    let changed = put_in(alloc, matrix, arguments, u64::from(count(arguments)), 0)?;
    or_copy(changed, matrix)
}

// How many terms the list has: no more than nodes.
#[tactic(auto, using(crate::proofs::Flattenings::count_within))]
fn count(terms: &Terms) -> u32
    ensures value { result ≡ count_terms terms.now }
    ensures within { result ≤ 2 ^ 26 }
{
    let size = terms.size();
    let count = match terms.link() {
        TermsLink::Nil => 0,
        TermsLink::Cons(_, rest) => count(rest) + 1,
    };
    prove!(count <= size);
    count
}

// The arguments put for the innermost of `level` quantifiers, inside `lift` more than where they stand.
#[tactic(auto, using(crate::proofs::Flattenings::lifted_again))]
fn put_in(
    alloc: Global,
    formula: &Formula,
    arguments: &Terms,
    level: u64,
    lift: u64,
) -> Result<Option<Formula>, AllocError>
    requires level { level + formula_size formula.now ≤ 2 ^ 32 }
    requires lift { lift ≤ level }
    ensures { IfOk result (λ new. unwrap_or new formula.now ≡ lifted_put (lifted_terms lift arguments.now) level formula.now) }
{
    match formula.node() {
        FormulaNode::Atom(_, terms) => {
            let terms = put_in_terms(alloc, terms, arguments, level, lift)?;
            with_arguments(alloc, formula, terms)
        }
        FormulaNode::Top | FormulaNode::Bot => Ok(None),
        FormulaNode::Not(body) => {
            let body = put_in(alloc, body, arguments, level, lift)?;
            with_body(alloc, formula, body)
        }
        FormulaNode::All(body) | FormulaNode::Ex(body) => {
            let body = put_in(alloc, body, arguments, level + 1, lift + 1)?;
            with_body(alloc, formula, body)
        }
        FormulaNode::And(first, second)
        | FormulaNode::Or(first, second)
        | FormulaNode::Imp(first, second) => {
            let first = put_in(alloc, first, arguments, level, lift)?;
            let second = put_in(alloc, second, arguments, level, lift)?;
            with_parts(alloc, formula, first, second)
        }
    }
}

#[cycle(term_put)]
fn put_in_term(
    alloc: Global,
    term: &Term,
    arguments: &Terms,
    level: u64,
    lift: u64,
) -> Result<Option<Term>, AllocError>
    ensures { IfOk result (λ new. unwrap_or new term.now ≡ put_term_at (lifted_terms lift arguments.now) level term.now) }
{
    match term.node() {
        TermNode::Free(_) => Ok(None),
        TermNode::Bound(index) => argument(alloc, arguments, level, *index, lift),
        TermNode::App(_, terms) => {
            let terms = put_in_terms(alloc, terms, arguments, level, lift)?;
            term_with_arguments(alloc, term, terms)
        }
    }
}

#[cycle(term_put)]
fn put_in_terms(
    alloc: Global,
    terms: &Terms,
    arguments: &Terms,
    level: u64,
    lift: u64,
) -> Result<Option<Terms>, AllocError>
    ensures { IfOk result (λ new. unwrap_or new terms.now ≡ put_terms_at (lifted_terms lift arguments.now) level terms.now) }
{
    match terms.link() {
        TermsLink::Nil => Ok(None),
        TermsLink::Cons(first, rest) => {
            let first = put_in_term(alloc, first, arguments, level, lift)?;
            let rest = put_in_terms(alloc, rest, arguments, level, lift)?;
            with_elements(alloc, terms, first, rest)
        }
    }
}

// The argument for an index inside `level` quantifiers, the outermost of which is that of the first argument, inside `lift` more than where
// it stands.
fn argument(
    alloc: Global,
    arguments: &Terms,
    level: u64,
    index: u32,
    lift: u64,
) -> Result<Option<Term>, AllocError>
    ensures { IfOk result (λ new. unwrap_or new (bound index) ≡ argument_of (lifted_terms lift arguments.now) level index) }
{
    match arguments.link() {
        TermsLink::Nil => Ok(None),
        TermsLink::Cons(first, rest) => {
            if u64::from(index) + 1 == level {
                let lifted = lift_term(alloc, first, lift)?;
                Ok(Some(or_copy_term(lifted, first)?))
            } else {
                argument(alloc, rest, level.saturating_sub(1), index, lift)
            }
        }
    }
}

// The term inside so many quantifiers more.
#[cycle(term_lift)]
#[tactic(auto, using(crate::proofs::Flattenings::lifted_without, crate::proofs::Flattenings::lifted_by_none))]
fn lift_term(alloc: Global, term: &Term, lift: u64) -> Result<Option<Term>, AllocError>
    ensures { IfOk result (λ new. unwrap_or new term.now ≡ lifted_term lift term.now) }
{
    if lift == 0 || term.dangling() == 0 {
        return Ok(None);
    }
    match term.node() {
        TermNode::Free(_) => Ok(None),
        TermNode::Bound(index) => {
            let index = u64::from(*index).checked_add(lift).ok_or(AllocError)?;
            let index = u32::try_from(index).map_err(|_| AllocError)?;
            Ok(Some(Term::bound(alloc, index)?))
        }
        TermNode::App(_, terms) => {
            let terms = lift_terms(alloc, terms, lift)?;
            term_with_arguments(alloc, term, terms)
        }
    }
}

#[cycle(term_lift)]
#[tactic(auto, using(crate::proofs::Flattenings::lifted_all_without, crate::proofs::Flattenings::lifted_all_by_none))]
fn lift_terms(alloc: Global, terms: &Terms, lift: u64) -> Result<Option<Terms>, AllocError>
    ensures { IfOk result (λ new. unwrap_or new terms.now ≡ lifted_terms lift terms.now) }
{
    if lift == 0 || terms.dangling() == 0 {
        return Ok(None);
    }
    match terms.link() {
        TermsLink::Nil => Ok(None),
        TermsLink::Cons(first, rest) => {
            let first = lift_term(alloc, first, lift)?;
            let rest = lift_terms(alloc, rest, lift)?;
            with_elements(alloc, terms, first, rest)
        }
    }
}
