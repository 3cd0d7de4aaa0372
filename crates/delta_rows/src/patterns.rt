//! Patterns of terms and of tuples: what several of them have in common, with one variable where they differ.
ghost use Rattle.std.specs.Prelude.{◌≡◌, ◌++◌, ◌∷◌, map, option_map, option_and_then, IfOk, Some};
ghost use Rattle.std.specs.List.{list_all};
ghost use Rattle.std.specs.Ordering.{eq_by_cmp};
ghost use Rattle.fol.specs.Order.{term_cmp};
ghost use Rattle.herbrand_laws.specs.Patterns.{arguments as arguments_of, variable_for as variable_of, applied as applied_of, common as common_of, joined_patterns, pattern_of_terms as term_pattern, pattern_of_tuples as tuple_pattern};
ghost use Rattle.delta_rows.specs.Shown.{term_pattern_of, tuple_pattern_of, listed_values};

use crate::arguments::{are_empty, arguments, separated};
use fol::{Sym, Term, TermNode, Terms, TermsLink};
use std::alloc::{AllocError, Global};

/// The pattern of several terms, and the value of its variable for each; no values where they are equal.
#[derive(Drop)]
pub(crate) struct TermPattern {
    pub pattern: Term,
    pub values: Option<Vec<Term>>,
}

/// The pattern of several tuples, and the value of its variable for each; no values where they are equal.
#[derive(Drop)]
pub(crate) struct TuplePattern {
    pub pattern: Terms,
    pub values: Option<Vec<Term>>,
}

fn are_equal(first: &Term, others: &[&Term]) -> bool
    ensures { result ≡ list_all (eq_by_cmp term_cmp first.now) (map (λ t. t.now) others.now) }
{
    for term in others {
        if first != *term {
            return false;
        }
    }
    true
}

fn push_terms(list: &mut Vec<Term>, terms: &[&Term]) -> Result<(), AllocError>
    ensures { IfOk result (λ _. list.new.items ≡ list.old.items ++ map (λ t. t.now) terms.now) }
{
    for term in terms {
        list.push(term.copy()?)?;
    }
    Ok(())
}

// The terms have nothing in common.
fn variable_for(alloc: Global, first: &Term, others: &[&Term]) -> Result<TermPattern, AllocError>
    ensures { IfOk result (λ p. term_pattern_of p ≡ variable_of first.now (map (λ t. t.now) others.now)) }
{
    let mut values = Vec::with_capacity(alloc, others.len() + 1)?;
    values.push(first.copy()?)?;
    push_terms(&mut values, others)?;
    Ok(TermPattern {
        pattern: Term::bound(alloc, 0)?,
        values: Some(values),
    })
}

// The values of two patterns together, unless both have values and these differ.
fn common(first: Option<Vec<Term>>, second: Option<Vec<Term>>) -> Option<Option<Vec<Term>>>
    ensures { option_map listed_values result ≡ common_of (listed_values first) (listed_values second) }
{
    match (first, second) {
        (None, values) | (values, None) => Some(values),
        (Some(values), Some(others)) => {
            if values.as_slice() == others.as_slice() {
                Some(Some(values))
            } else {
                None
            }
        }
    }
}

fn joined(
    alloc: Global,
    first: TermPattern,
    others: TuplePattern,
) -> Result<Option<TuplePattern>, AllocError>
    ensures { IfOk result (λ o. option_map tuple_pattern_of o ≡ joined_patterns (term_pattern_of first) (Some (tuple_pattern_of others))) }
{
    match common(first.values, others.values) {
        None => Ok(None),
        Some(values) => {
            let pattern = Terms::cons(alloc, first.pattern, others.pattern)?;
            Ok(Some(TuplePattern { pattern, values }))
        }
    }
}

// The pattern of applications of one symbol by that of their arguments.
fn applied(
    alloc: Global,
    symbol: &Sym,
    inner: Option<TuplePattern>,
    first: &Term,
    others: &[&Term],
) -> Result<TermPattern, AllocError>
    ensures { IfOk result (λ p. term_pattern_of p ≡ applied_of symbol.now (option_map tuple_pattern_of inner) first.now (map (λ t. t.now) others.now)) }
{
    match inner {
        None => variable_for(alloc, first, others),
        Some(TuplePattern { pattern, values }) => {
            let pattern = Term::app(alloc, symbol.copy()?, pattern)?;
            Ok(TermPattern { pattern, values })
        }
    }
}

/// The pattern of a first term and others.
#[cycle(pattern)]
pub(crate) fn pattern_of_terms(
    alloc: Global,
    first: &Term,
    others: &[&Term],
) -> Result<TermPattern, AllocError>
    ensures { IfOk result (λ p. term_pattern_of p ≡ term_pattern first.now (map (λ t. t.now) others.now)) }
{
    if are_equal(first, others) {
        return Ok(TermPattern {
            pattern: first.copy()?,
            values: None,
        });
    }
    match first.node() {
        TermNode::Free(_) | TermNode::Bound(_) => variable_for(alloc, first, others),
        TermNode::App(symbol, terms) => {
            let inner = pattern_of_arguments(alloc, symbol, terms, others)?;
            applied(alloc, symbol, inner, first, others)
        }
    }
}

// The pattern of the arguments of terms, where each is an application of the symbol.
#[cycle(pattern)]
fn pattern_of_arguments(
    alloc: Global,
    symbol: &Sym,
    first: &Terms,
    others: &[&Term],
) -> Result<Option<TuplePattern>, AllocError>
    ensures { IfOk result (λ o. option_map tuple_pattern_of o ≡ option_and_then (tuple_pattern first.now) (arguments_of symbol.now (map (λ t. t.now) others.now))) }
{
    match arguments(alloc, symbol, others)? {
        None => Ok(None),
        Some(lists) => pattern_of_tuples(alloc, first, &lists),
    }
}

/// The pattern of a first tuple and others, where their terms have the same values where they differ.
#[cycle(pattern)]
pub(crate) fn pattern_of_tuples(
    alloc: Global,
    first: &Terms,
    others: &[&Terms],
) -> Result<Option<TuplePattern>, AllocError>
    ensures { IfOk result (λ o. option_map tuple_pattern_of o ≡ tuple_pattern first.now (map (λ ts. ts.now) others.now)) }
{
    match first.link() {
        TermsLink::Nil => {
            if are_empty(others) {
                Ok(Some(TuplePattern {
                    pattern: first.copy()?,
                    values: None,
                }))
            } else {
                Ok(None)
            }
        }
        TermsLink::Cons(term, terms) => {
            let Some((firsts, others)) = separated(alloc, others)? else {
                return Ok(None);
            };
            let front = pattern_of_terms(alloc, term, &firsts)?;
            match pattern_of_tuples(alloc, terms, &others)? {
                None => Ok(None),
                Some(back) => joined(alloc, front, back),
            }
        }
    }
}
