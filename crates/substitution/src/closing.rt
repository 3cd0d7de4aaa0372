//! Several variables quantified in a formula, in one walk over it.
ghost use Rattle.std.specs.Prelude.{◌≡◌, ℕ, ◌+◌, ◌^◌, ◌<◌, length, IfSome, IfOk, OnOk, unwrap_or};
ghost use Rattle.std.specs.BTreeMap.{get};
ghost use Rattle.fol.specs.declared.symbols.Var.{Var as Variable};
ghost use Rattle.fol.specs.Syntax.{all, ex};
ghost use Rattle.fol.specs.Order.{var_cmp};
ghost use Rattle.fol.specs.Formed.{IsFormed};
ghost use Rattle.substitution.specs.Instance.{nesting};
ghost use Rattle.substitution.specs.Closing.{closed_over, level_from, bound_each, bound_each_term, bound_each_terms, AreBelow};

use crate::sharing::{
    or_copy, sides, term_with_arguments, unchanged, with_arguments, with_body, with_elements,
    with_parts, with_sides,
};
use fol::{Formula, FormulaNode, Term, TermNode, Terms, TermsLink, Var};
use std::alloc::{AllocError, Global};
use std::collections::BTreeMap;

/// The formula with each variable of the list quantified universally, the first one outermost. It takes one walk over the formula and a
/// look-up for each variable in it; what doesn't change is shared. Where the list and the quantifiers inside one another are 2^32 or
/// more, it is refused as want of memory, since no index would fit.
pub fn close_all(alloc: Global, vars: &[Var], formula: &Formula) -> Result<Formula, AllocError>
    ensures value { IfOk result (λ f. f ≡ closed_over all vars.now formula.now) }
    ensures formed { IsFormed formula.now → IfOk result IsFormed }
{
    let mut closed = bind_each(alloc, vars, formula)?;
    for _var in vars {
        closed = Formula::all(alloc, closed)?;
    }
    Ok(closed)
}

/// The formula with each variable of the list quantified existentially, in the same way.
pub fn close_ex(alloc: Global, vars: &[Var], formula: &Formula) -> Result<Formula, AllocError>
    ensures value { IfOk result (λ f. f ≡ closed_over ex vars.now formula.now) }
    ensures formed { IsFormed formula.now → IfOk result IsFormed }
{
    let mut closed = bind_each(alloc, vars, formula)?;
    for _var in vars {
        closed = Formula::ex(alloc, closed)?;
    }
    Ok(closed)
}

// The formula inside the quantifiers of the variables.
fn bind_each(alloc: Global, vars: &[Var], formula: &Formula) -> Result<Formula, AllocError>
    ensures value { IfOk result (λ f. f ≡ bound_each (level_from 0 vars.now) (length vars.now) formula.now) }
    ensures fits { OnOk result (length vars.now + nesting formula.now < 2 ^ 32) }
{
    let count = u32::try_from(vars.len()).map_err(|_| AllocError)?;
    let levels = levels_of(alloc, vars)?;
    let changed = bind_each_at(alloc, formula, &levels, count)?;
    or_copy(changed, formula)
}

// The level of each variable: how many of the quantifiers stand around its own.
fn levels_of(alloc: Global, vars: &[Var]) -> Result<BTreeMap<Var, u32>, AllocError>
    requires { length vars.now < 2 ^ 32 }
    ensures { IfOk result (λ levels. (v : Variable) → get var_cmp levels v ≡ level_from 0 vars.now v) }
{
    let mut levels = BTreeMap::new(alloc);
    for (level, var) in vars.iter().enumerate() {
        levels.insert(var.copy()?, level as u32)?;
    }
    Ok(levels)
}

// `depth` is the number of quantifiers around, those of the variables included.
#[tactic(auto, using(crate::proofs::ClosingLaws::below_more, crate::proofs::Shut::shut_each))]
fn bind_each_at(
    alloc: Global,
    formula: &Formula,
    levels: &BTreeMap<Var, u32>,
    depth: u32,
) -> Result<Option<Formula>, AllocError>
    requires { AreBelow (get var_cmp levels.now) depth }
    ensures value { IfOk result (λ new. unwrap_or new formula.now ≡ bound_each (get var_cmp levels.now) depth formula.now) }
    ensures fits { OnOk result (depth + nesting formula.now < 2 ^ 32) }
{
    if !formula.has_free() {
        return unchanged(formula, depth);
    }
    if let Some((first, second)) = sides(formula) {
        let new_first = bind_each_at(alloc, first, levels, depth)?;
        let new_second = bind_each_at(alloc, second, levels, depth)?;
        return with_sides(alloc, first, second, new_first, new_second);
    }
    match formula.node() {
        FormulaNode::Atom(_, terms) => {
            let terms = bind_each_terms(alloc, terms, levels, depth)?;
            with_arguments(alloc, formula, terms)
        }
        FormulaNode::Top | FormulaNode::Bot => Ok(None),
        FormulaNode::Not(body) => {
            let body = bind_each_at(alloc, body, levels, depth)?;
            with_body(alloc, formula, body)
        }
        FormulaNode::All(body) | FormulaNode::Ex(body) => {
            let depth = depth.checked_add(1).ok_or(AllocError)?;
            let body = bind_each_at(alloc, body, levels, depth)?;
            with_body(alloc, formula, body)
        }
        FormulaNode::And(first, second)
        | FormulaNode::Or(first, second)
        | FormulaNode::Imp(first, second) => {
            let first = bind_each_at(alloc, first, levels, depth)?;
            let second = bind_each_at(alloc, second, levels, depth)?;
            with_parts(alloc, formula, first, second)
        }
    }
}

#[cycle(bind_each_term)]
#[tactic(auto, using(crate::proofs::Shut::shut_each_term))]
fn bind_each_term(
    alloc: Global,
    term: &Term,
    levels: &BTreeMap<Var, u32>,
    depth: u32,
) -> Result<Option<Term>, AllocError>
    requires { AreBelow (get var_cmp levels.now) depth }
    ensures { IfOk result (λ new. unwrap_or new term.now ≡ bound_each_term (get var_cmp levels.now) depth term.now) }
{
    if !term.has_free() {
        return Ok(None);
    }
    match term.node() {
        TermNode::Free(var) => match levels.get(var) {
            Some(level) => Ok(Some(Term::bound(alloc, depth - (*level + 1))?)),
            None => Ok(None),
        },
        TermNode::Bound(_) => Ok(None),
        TermNode::App(_, terms) => {
            let terms = bind_each_terms(alloc, terms, levels, depth)?;
            term_with_arguments(alloc, term, terms)
        }
    }
}

#[cycle(bind_each_term)]
#[tactic(auto, using(crate::proofs::Shut::shut_each_terms))]
fn bind_each_terms(
    alloc: Global,
    terms: &Terms,
    levels: &BTreeMap<Var, u32>,
    depth: u32,
) -> Result<Option<Terms>, AllocError>
    requires { AreBelow (get var_cmp levels.now) depth }
    ensures { IfOk result (λ new. unwrap_or new terms.now ≡ bound_each_terms (get var_cmp levels.now) depth terms.now) }
{
    if !terms.has_free() {
        return Ok(None);
    }
    match terms.link() {
        TermsLink::Nil => Ok(None),
        TermsLink::Cons(first, rest) => {
            let first = bind_each_term(alloc, first, levels, depth)?;
            let rest = bind_each_terms(alloc, rest, levels, depth)?;
            with_elements(alloc, terms, first, rest)
        }
    }
}
