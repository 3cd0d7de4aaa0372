//! Instances of quantified formulas.
ghost use Rattle.std.specs.Prelude.{◌≡◌, ◌+◌, ◌↔◌, true, IsTrue, IfOk, unwrap_or};
ghost use Rattle.std.specs.Ordering.{eq_by_cmp};
ghost use Rattle.fol.specs.Order.{formula_cmp, term_cmp, terms_cmp};
ghost use Rattle.fol.specs.Formed.{is_formed_at, is_formed_term_at, are_formed_terms_at, IsFormed, IsFormedTerm};
ghost use Rattle.substitution.specs.Instance.{inst_term_at, inst_terms_at, inst_at, inst, IsOpenBody};

use crate::sharing::{
    or_copy, sides, term_with_arguments, with_arguments, with_body, with_elements, with_parts,
    with_sides,
};
use fol::{Formula, FormulaNode, Term, TermNode, Terms, TermsLink};
use std::alloc::{AllocError, Global};

/// The instance of a quantified formula's body: `term` for the variable of the quantifier. What doesn't change is shared.
#[tactic(auto, using(crate::proofs::InstanceFormed::instance_formed))]
pub fn instance(alloc: Global, body: &Formula, term: &Term) -> Result<Formula, AllocError>
    requires body { IsOpenBody body.now }
    requires term { IsFormedTerm term.now }
    ensures value { IfOk result (λ f. f ≡ inst body.now term.now) }
    ensures formed { IfOk result IsFormed }
{
    let changed = instance_at(alloc, body, term, 0)?;
    or_copy(changed, body)
}

/// Whether `formula` is the instance of the body by the term.
pub fn is_instance(body: &Formula, term: &Term, formula: &Formula) -> bool
    requires { IsOpenBody body.now }
    ensures value { result ≡ eq_by_cmp formula_cmp (inst body.now term.now) formula.now }
    ensures same { IsTrue result ↔ (inst body.now term.now ≡ formula.now) }
{
    is_instance_at(body, term, formula, 0)
}

// `depth` is the number of quantifiers passed. It stops at the largest `u64`, which is above every index.
#[tactic(auto, using(crate::proofs::Depth::next_inst, crate::proofs::Depth::next_open, crate::proofs::Low::low_inst))]
fn instance_at(
    alloc: Global,
    formula: &Formula,
    term: &Term,
    depth: u64,
) -> Result<Option<Formula>, AllocError>
    requires { is_formed_at (depth + 1) formula.now ≡ true }
    ensures { IfOk result (λ new. unwrap_or new formula.now ≡ inst_at term.now depth formula.now) }
{
    if formula.dangling() <= depth {
        return Ok(None);
    }
    if let Some((first, second)) = sides(formula) {
        let new_first = instance_at(alloc, first, term, depth)?;
        let new_second = instance_at(alloc, second, term, depth)?;
        return with_sides(alloc, first, second, new_first, new_second);
    }
    match formula.node() {
        FormulaNode::Atom(_, terms) => {
            let terms = terms_instance_at(alloc, terms, term, depth)?;
            with_arguments(alloc, formula, terms)
        }
        FormulaNode::Top | FormulaNode::Bot => Ok(None),
        FormulaNode::Not(body) => {
            let body = instance_at(alloc, body, term, depth)?;
            with_body(alloc, formula, body)
        }
        FormulaNode::All(body) | FormulaNode::Ex(body) => {
            let body = instance_at(alloc, body, term, depth.saturating_add(1))?;
            with_body(alloc, formula, body)
        }
        FormulaNode::And(first, second)
        | FormulaNode::Or(first, second)
        | FormulaNode::Imp(first, second) => {
            let first = instance_at(alloc, first, term, depth)?;
            let second = instance_at(alloc, second, term, depth)?;
            with_parts(alloc, formula, first, second)
        }
    }
}

#[cycle(term_instance)]
#[tactic(auto, using(crate::proofs::Low::low_inst_term))]
fn term_instance_at(
    alloc: Global,
    of: &Term,
    term: &Term,
    depth: u64,
) -> Result<Option<Term>, AllocError>
    ensures { IfOk result (λ new. unwrap_or new of.now ≡ inst_term_at term.now depth of.now) }
{
    if of.dangling() <= depth {
        return Ok(None);
    }
    match of.node() {
        TermNode::Free(_) => Ok(None),
        TermNode::Bound(index) => {
            if u64::from(*index) == depth {
                Ok(Some(term.copy()?))
            } else {
                Ok(None)
            }
        }
        TermNode::App(_, terms) => {
            let terms = terms_instance_at(alloc, terms, term, depth)?;
            term_with_arguments(alloc, of, terms)
        }
    }
}

#[cycle(term_instance)]
#[tactic(auto, using(crate::proofs::Low::low_inst_terms))]
fn terms_instance_at(
    alloc: Global,
    of: &Terms,
    term: &Term,
    depth: u64,
) -> Result<Option<Terms>, AllocError>
    ensures { IfOk result (λ new. unwrap_or new of.now ≡ inst_terms_at term.now depth of.now) }
{
    if of.dangling() <= depth {
        return Ok(None);
    }
    match of.link() {
        TermsLink::Nil => Ok(None),
        TermsLink::Cons(first, rest) => {
            let first = term_instance_at(alloc, first, term, depth)?;
            let rest = terms_instance_at(alloc, rest, term, depth)?;
            with_elements(alloc, of, first, rest)
        }
    }
}

#[tactic(auto, using(crate::proofs::Depth::next_inst, crate::proofs::Depth::next_open, crate::proofs::Ties::eq_then, crate::proofs::Low::low_inst))]
fn is_instance_at(body: &Formula, term: &Term, formula: &Formula, depth: u64) -> bool
    requires { is_formed_at (depth + 1) body.now ≡ true }
    ensures { result ≡ eq_by_cmp formula_cmp (inst_at term.now depth body.now) formula.now }
{
    if body.dangling() <= depth {
        return body == formula;
    }
    match (body.node(), formula.node()) {
        (FormulaNode::Atom(s, ts), FormulaNode::Atom(r, us)) => {
            s == r && are_term_instances_at(ts, term, us, depth)
        }
        (FormulaNode::Top, FormulaNode::Top) | (FormulaNode::Bot, FormulaNode::Bot) => true,
        (FormulaNode::Not(f), FormulaNode::Not(g)) => is_instance_at(f, term, g, depth),
        (FormulaNode::All(f), FormulaNode::All(g)) | (FormulaNode::Ex(f), FormulaNode::Ex(g)) => {
            is_instance_at(f, term, g, depth.saturating_add(1))
        }
        (FormulaNode::And(a, b), FormulaNode::And(c, d))
        | (FormulaNode::Or(a, b), FormulaNode::Or(c, d))
        | (FormulaNode::Imp(a, b), FormulaNode::Imp(c, d)) => {
            is_instance_at(a, term, c, depth) && is_instance_at(b, term, d, depth)
        }
        _ => false,
    }
}

#[cycle(is_term_instance)]
#[tactic(auto, using(crate::proofs::Ties::eq_then, crate::proofs::Low::low_inst_term))]
fn is_term_instance_at(pattern: &Term, term: &Term, value: &Term, depth: u64) -> bool
    ensures { result ≡ eq_by_cmp term_cmp (inst_term_at term.now depth pattern.now) value.now }
{
    if pattern.dangling() <= depth {
        return pattern == value;
    }
    match (pattern.node(), value.node()) {
        (TermNode::Bound(i), _) if u64::from(*i) == depth => term == value,
        (TermNode::Bound(i), TermNode::Bound(j)) => i == j,
        (TermNode::Free(v), TermNode::Free(w)) => v == w,
        (TermNode::App(s, ts), TermNode::App(r, us)) => {
            s == r && are_term_instances_at(ts, term, us, depth)
        }
        _ => false,
    }
}

#[cycle(is_term_instance)]
#[tactic(auto, using(crate::proofs::Ties::eq_then, crate::proofs::Low::low_inst_terms))]
fn are_term_instances_at(patterns: &Terms, term: &Term, values: &Terms, depth: u64) -> bool
    ensures { result ≡ eq_by_cmp terms_cmp (inst_terms_at term.now depth patterns.now) values.now }
{
    if patterns.dangling() <= depth {
        return patterns == values;
    }
    match (patterns.link(), values.link()) {
        (TermsLink::Nil, TermsLink::Nil) => true,
        (TermsLink::Cons(t, ts), TermsLink::Cons(u, us)) => {
            is_term_instance_at(t, term, u, depth) && are_term_instances_at(ts, term, us, depth)
        }
        _ => false,
    }
}
