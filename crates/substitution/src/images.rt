//! Simultaneous replacement of free variables.
ghost use Rattle.std.specs.Prelude.{◌≡◌, ℕ, true, IfOk, unwrap_or};
ghost use Rattle.std.specs.FinMap as fin;
ghost use Rattle.fol.specs.Formed.{is_formed_at, is_formed_term_at};
ghost use Rattle.substitution.specs.Image.{image_term, image_terms, image, IsFormedMap};

use crate::maps::Subst;
use crate::sharing::{
    or_copy, or_copy_term, sides, term_with_arguments, with_arguments, with_body, with_elements,
    with_parts, with_sides,
};
use fol::{Formula, FormulaNode, Term, TermNode, Terms, TermsLink};
use std::alloc::{AllocError, Global};

/// The formula, which may be the body of a quantified one, with the free variables that the map has replaced by their terms, all at
/// once. What doesn't change is shared.
#[tactic(auto, using(crate::proofs::ImageFormed::image_formed))]
pub fn apply(alloc: Global, map: &Subst, formula: &Formula) -> Result<Formula, AllocError>
    ensures value { IfOk result (λ f. f ≡ image (fin.get map.now) formula.now) }
    ensures formed { IsFormedMap (fin.get map.now) → (k : ℕ) → is_formed_at k formula.now ≡ true → IfOk result (λ f. is_formed_at k f ≡ true) }
{
    let changed = image_of(alloc, map, formula)?;
    or_copy(changed, formula)
}

/// The term with the variables that the map has replaced by their terms, all at once. What doesn't change is shared.
#[tactic(auto, using(crate::proofs::ImageFormed::image_formed))]
pub fn apply_term(alloc: Global, map: &Subst, term: &Term) -> Result<Term, AllocError>
    ensures value { IfOk result (λ t. t ≡ image_term (fin.get map.now) term.now) }
    ensures formed { IsFormedMap (fin.get map.now) → (k : ℕ) → is_formed_term_at k term.now ≡ true → IfOk result (λ t. is_formed_term_at k t ≡ true) }
{
    let changed = image_of_term(alloc, map, term)?;
    or_copy_term(changed, term)
}

#[tactic(auto, using(crate::proofs::Shut::shut_image))]
fn image_of(alloc: Global, map: &Subst, formula: &Formula) -> Result<Option<Formula>, AllocError>
    ensures { IfOk result (λ new. unwrap_or new formula.now ≡ image (fin.get map.now) formula.now) }
{
    if !formula.has_free() {
        return Ok(None);
    }
    if let Some((first, second)) = sides(formula) {
        let new_first = image_of(alloc, map, first)?;
        let new_second = image_of(alloc, map, second)?;
        return with_sides(alloc, first, second, new_first, new_second);
    }
    match formula.node() {
        FormulaNode::Atom(_, terms) => {
            let terms = image_of_terms(alloc, map, terms)?;
            with_arguments(alloc, formula, terms)
        }
        FormulaNode::Top | FormulaNode::Bot => Ok(None),
        FormulaNode::Not(body) | FormulaNode::All(body) | FormulaNode::Ex(body) => {
            let body = image_of(alloc, map, body)?;
            with_body(alloc, formula, body)
        }
        FormulaNode::And(first, second)
        | FormulaNode::Or(first, second)
        | FormulaNode::Imp(first, second) => {
            let first = image_of(alloc, map, first)?;
            let second = image_of(alloc, map, second)?;
            with_parts(alloc, formula, first, second)
        }
    }
}

#[cycle(term_image)]
#[tactic(auto, using(crate::proofs::Shut::shut_image_term))]
fn image_of_term(alloc: Global, map: &Subst, term: &Term) -> Result<Option<Term>, AllocError>
    ensures { IfOk result (λ new. unwrap_or new term.now ≡ image_term (fin.get map.now) term.now) }
{
    if !term.has_free() {
        return Ok(None);
    }
    match term.node() {
        TermNode::Free(var) => match map.get(var) {
            Some(term) => Ok(Some(term.copy()?)),
            None => Ok(None),
        },
        TermNode::Bound(_) => Ok(None),
        TermNode::App(_, terms) => {
            let terms = image_of_terms(alloc, map, terms)?;
            term_with_arguments(alloc, term, terms)
        }
    }
}

#[cycle(term_image)]
#[tactic(auto, using(crate::proofs::Shut::shut_image_terms))]
fn image_of_terms(alloc: Global, map: &Subst, terms: &Terms) -> Result<Option<Terms>, AllocError>
    ensures { IfOk result (λ new. unwrap_or new terms.now ≡ image_terms (fin.get map.now) terms.now) }
{
    if !terms.has_free() {
        return Ok(None);
    }
    match terms.link() {
        TermsLink::Nil => Ok(None),
        TermsLink::Cons(first, rest) => {
            let first = image_of_term(alloc, map, first)?;
            let rest = image_of_terms(alloc, map, rest)?;
            with_elements(alloc, terms, first, rest)
        }
    }
}
