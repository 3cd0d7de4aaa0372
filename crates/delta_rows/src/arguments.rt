//! The parts of several terms, or of several tuples, side by side.
ghost use Rattle.std.specs.Prelude.{◌≡◌, map, option_map, IfOk};
ghost use Rattle.delta_rows.specs.Shown.{columns};
ghost use Rattle.herbrand_laws.specs.Patterns.{arguments as arguments_of, separated as separated_of, are_empty as are_all_empty};

use fol::{Sym, Term, TermNode, Terms, TermsLink};
use std::alloc::{AllocError, Global};

/// The arguments of terms, where each is an application of the symbol.
pub(crate) fn arguments<'t>(
    alloc: Global,
    symbol: &Sym,
    terms: &[&'t Term],
) -> Result<Option<Vec<&'t Terms>>, AllocError>
    ensures { IfOk result (λ o. option_map (λ v. map (λ ts. ts.now) v.items) o ≡ arguments_of symbol.now (map (λ t. t.now) terms.now)) }
{
    let mut lists = Vec::with_capacity(alloc, terms.len())?;
    for term in terms {
        match term.node() {
            TermNode::App(other, arguments) if symbol == other => {
                lists.push(arguments)?;
            }
            _ => return Ok(None),
        }
    }
    Ok(Some(lists))
}

/// The first term and the others of each tuple, where each has one.
pub(crate) fn separated<'t>(
    alloc: Global,
    tuples: &[&'t Terms],
) -> Result<Option<(Vec<&'t Term>, Vec<&'t Terms>)>, AllocError>
    ensures { IfOk result (λ o. option_map (λ c. (map (λ t. t.now) c.0.items, map (λ ts. ts.now) c.1.items)) o ≡ option_map columns (separated_of (map (λ ts. ts.now) tuples.now))) }
{
    let mut firsts = Vec::with_capacity(alloc, tuples.len())?;
    let mut others = Vec::with_capacity(alloc, tuples.len())?;
    for tuple in tuples {
        match tuple.link() {
            TermsLink::Nil => return Ok(None),
            TermsLink::Cons(first, rest) => {
                firsts.push(first)?;
                others.push(rest)?;
            }
        }
    }
    Ok(Some((firsts, others)))
}

/// Whether no tuple has a term.
pub(crate) fn are_empty(tuples: &[&Terms]) -> bool
    ensures { result ≡ are_all_empty (map (λ ts. ts.now) tuples.now) }
{
    for tuple in tuples {
        if let TermsLink::Cons(..) = tuple.link() {
            return false;
        }
    }
    true
}
