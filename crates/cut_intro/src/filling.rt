//! Patterns with a term for their variable.
ghost use Rattle.std.specs.Prelude.{◌≡◌, map, IfOk};
ghost use Rattle.herbrand_laws.specs.Patterns.{put as put_in, put_term as put_in_term};

use fol::{Term, TermNode, Terms, TermsLink};
use std::alloc::{AllocError, Global};

// The pattern with the term for its variable. What doesn't have the variable is shared.
#[cycle(put)]
#[tactic(auto, using(substitution::proofs::Low::low_inst_term))]
fn put_term(alloc: Global, pattern: &Term, term: &Term) -> Result<Term, AllocError>
    ensures { IfOk result (λ t. t ≡ put_in_term pattern.now term.now) }
{
    if pattern.dangling() == 0 {
        return pattern.copy();
    }
    match pattern.node() {
        TermNode::Free(_) => pattern.copy(),
        TermNode::Bound(index) => {
            if *index == 0 {
                term.copy()
            } else {
                pattern.copy()
            }
        }
        TermNode::App(symbol, terms) => {
            let symbol = symbol.copy()?;
            let terms = put(alloc, terms, term)?;
            Term::app(alloc, symbol, terms)
        }
    }
}

/// The pattern of tuples with the term for its variable. What doesn't have the variable is shared.
#[cycle(put)]
#[tactic(auto, using(substitution::proofs::Low::low_inst_terms))]
pub(crate) fn put(alloc: Global, pattern: &Terms, term: &Term) -> Result<Terms, AllocError>
    ensures { IfOk result (λ ts. ts ≡ put_in pattern.now term.now) }
{
    if pattern.dangling() == 0 {
        return pattern.copy();
    }
    match pattern.link() {
        TermsLink::Nil => pattern.copy(),
        TermsLink::Cons(first, rest) => {
            let first = put_term(alloc, first, term)?;
            let rest = put(alloc, rest, term)?;
            Terms::cons(alloc, first, rest)
        }
    }
}

/// The patterns of a list with the term for their variable.
pub(crate) fn put_each(
    alloc: Global,
    patterns: &[Terms],
    term: &Term,
) -> Result<Vec<Terms>, AllocError>
    ensures { IfOk result (λ uss. uss.items ≡ map (λ p. put_in p term.now) patterns.now) }
{
    let mut tuples = Vec::with_capacity(alloc, patterns.len())?;
    for pattern in patterns {
        tuples.push(put(alloc, pattern, term)?)?;
    }
    Ok(tuples)
}
