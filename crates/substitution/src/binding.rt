//! Binding of a variable.
ghost use Rattle.std.specs.Prelude.{◌≡◌, ◌+◌, ◌^◌, ◌<◌, IfOk, OnOk, unwrap_or};
ghost use Rattle.fol.specs.Formed.{IsFormed};
ghost use Rattle.substitution.specs.Instance.{bind_term_at as bound_term_at, bind_terms_at as bound_terms_at, bind_at as bound_at, bind as bound_body, nesting, IsOpenBody};

use crate::sharing::{
    or_copy, sides, term_with_arguments, unchanged, with_arguments, with_body, with_elements,
    with_parts, with_sides,
};
use fol::{Formula, FormulaNode, Term, TermNode, Terms, TermsLink, Var};
use std::alloc::{AllocError, Global};

/// The body in which `var` is the variable of the quantifier that is put around it. What doesn't change is shared. A formula with
/// 2^32 quantifiers inside one another is refused as want of memory, since no index would fit.
#[tactic(auto, using(crate::proofs::InstanceFormed::bound_open))]
pub fn bind(alloc: Global, formula: &Formula, var: &Var) -> Result<Formula, AllocError>
    ensures value { IfOk result (λ body. body ≡ bound_body formula.now var.now) }
    ensures body { IsFormed formula.now → IfOk result IsOpenBody }
    ensures fits { OnOk result (nesting formula.now < 2 ^ 32) }
{
    let changed = bind_at(alloc, formula, var, 0)?;
    or_copy(changed, formula)
}

// `depth` is the number of quantifiers passed.
#[tactic(auto, using(crate::proofs::Shut::shut_bind))]
fn bind_at(
    alloc: Global,
    formula: &Formula,
    var: &Var,
    depth: u32,
) -> Result<Option<Formula>, AllocError>
    ensures value { IfOk result (λ new. unwrap_or new formula.now ≡ bound_at var.now depth formula.now) }
    ensures fits { OnOk result (depth + nesting formula.now < 2 ^ 32) }
{
    if !formula.has_free() {
        return unchanged(formula, depth);
    }
    if let Some((first, second)) = sides(formula) {
        let new_first = bind_at(alloc, first, var, depth)?;
        let new_second = bind_at(alloc, second, var, depth)?;
        return with_sides(alloc, first, second, new_first, new_second);
    }
    match formula.node() {
        FormulaNode::Atom(_, terms) => {
            let terms = bind_terms_at(alloc, terms, var, depth)?;
            with_arguments(alloc, formula, terms)
        }
        FormulaNode::Top | FormulaNode::Bot => Ok(None),
        FormulaNode::Not(body) => {
            let body = bind_at(alloc, body, var, depth)?;
            with_body(alloc, formula, body)
        }
        FormulaNode::All(body) | FormulaNode::Ex(body) => {
            let depth = depth.checked_add(1).ok_or(AllocError)?;
            let body = bind_at(alloc, body, var, depth)?;
            with_body(alloc, formula, body)
        }
        FormulaNode::And(first, second)
        | FormulaNode::Or(first, second)
        | FormulaNode::Imp(first, second) => {
            let first = bind_at(alloc, first, var, depth)?;
            let second = bind_at(alloc, second, var, depth)?;
            with_parts(alloc, formula, first, second)
        }
    }
}

#[cycle(bind_term)]
#[tactic(auto, using(crate::proofs::Shut::shut_bind_term))]
fn bind_term_at(alloc: Global, of: &Term, var: &Var, depth: u32) -> Result<Option<Term>, AllocError>
    ensures { IfOk result (λ new. unwrap_or new of.now ≡ bound_term_at var.now depth of.now) }
{
    if !of.has_free() {
        return Ok(None);
    }
    match of.node() {
        TermNode::Free(other) => {
            if var == other {
                Ok(Some(Term::bound(alloc, depth)?))
            } else {
                Ok(None)
            }
        }
        TermNode::Bound(_) => Ok(None),
        TermNode::App(_, terms) => {
            let terms = bind_terms_at(alloc, terms, var, depth)?;
            term_with_arguments(alloc, of, terms)
        }
    }
}

#[cycle(bind_term)]
#[tactic(auto, using(crate::proofs::Shut::shut_bind_terms))]
fn bind_terms_at(
    alloc: Global,
    of: &Terms,
    var: &Var,
    depth: u32,
) -> Result<Option<Terms>, AllocError>
    ensures { IfOk result (λ new. unwrap_or new of.now ≡ bound_terms_at var.now depth of.now) }
{
    if !of.has_free() {
        return Ok(None);
    }
    match of.link() {
        TermsLink::Nil => Ok(None),
        TermsLink::Cons(first, rest) => {
            let first = bind_term_at(alloc, first, var, depth)?;
            let rest = bind_terms_at(alloc, rest, var, depth)?;
            with_elements(alloc, of, first, rest)
        }
    }
}
