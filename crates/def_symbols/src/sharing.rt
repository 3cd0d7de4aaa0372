//! Formulas with new parts that share what did not change: `None` stands for the old value.
ghost use Rattle.std.specs.Prelude.{◌≡◌, IfOk, IfSome, unwrap_or};
ghost use Rattle.substitution.specs.Sharing.{term_with_arguments as application_with, with_elements as list_with, with_arguments as atom_with, with_body as formula_with_body, with_parts as formula_with_parts, equivalence};

use fol::{Formula, FormulaNode, Term, TermNode, Terms, TermsLink};
use std::alloc::{AllocError, Global};

/// The changed term, or another owner of the old one.
pub fn or_copy_term(changed: Option<Term>, term: &Term) -> Result<Term, AllocError>
    ensures { IfOk result (λ t. t ≡ unwrap_or changed term.now) }
{
    match changed {
        Some(changed) => Ok(changed),
        None => term.copy(),
    }
}

// The changed list, or another owner of the old one.
fn or_copy_terms(changed: Option<Terms>, terms: &Terms) -> Result<Terms, AllocError>
    ensures { IfOk result (λ ts. ts ≡ unwrap_or changed terms.now) }
{
    match changed {
        Some(changed) => Ok(changed),
        None => terms.copy(),
    }
}

/// The changed formula, or another owner of the old one.
pub fn or_copy(changed: Option<Formula>, formula: &Formula) -> Result<Formula, AllocError>
    ensures { IfOk result (λ f. f ≡ unwrap_or changed formula.now) }
{
    match changed {
        Some(changed) => Ok(changed),
        None => formula.copy(),
    }
}

/// An application with new arguments.
pub fn term_with_arguments(
    alloc: Global,
    term: &Term,
    arguments: Option<Terms>,
) -> Result<Option<Term>, AllocError>
    ensures { IfOk result (λ new. unwrap_or new term.now ≡ application_with term.now arguments) }
{
    let Some(arguments) = arguments else {
        return Ok(None);
    };
    match term.node() {
        TermNode::App(symbol, _) => Ok(Some(Term::app(alloc, symbol.copy()?, arguments)?)),
        _ => Ok(None),
    }
}

/// A list of terms with a new first one and a new rest.
pub fn with_elements(
    alloc: Global,
    terms: &Terms,
    first: Option<Term>,
    rest: Option<Terms>,
) -> Result<Option<Terms>, AllocError>
    ensures { IfOk result (λ new. unwrap_or new terms.now ≡ list_with terms.now first rest) }
{
    if first.is_none() && rest.is_none() {
        return Ok(None);
    }
    match terms.link() {
        TermsLink::Cons(term, terms) => {
            let first = or_copy_term(first, term)?;
            let rest = or_copy_terms(rest, terms)?;
            Ok(Some(Terms::cons(alloc, first, rest)?))
        }
        TermsLink::Nil => Ok(None),
    }
}

/// An atom with new arguments.
pub fn with_arguments(
    alloc: Global,
    formula: &Formula,
    arguments: Option<Terms>,
) -> Result<Option<Formula>, AllocError>
    ensures { IfOk result (λ new. unwrap_or new formula.now ≡ atom_with formula.now arguments) }
{
    let Some(arguments) = arguments else {
        return Ok(None);
    };
    match formula.node() {
        FormulaNode::Atom(predicate, _) => {
            let predicate = predicate.copy()?;
            Ok(Some(Formula::atom_of(alloc, predicate, arguments)?))
        }
        _ => Ok(None),
    }
}

/// A negation or a quantified formula with a new body.
pub fn with_body(
    alloc: Global,
    formula: &Formula,
    body: Option<Formula>,
) -> Result<Option<Formula>, AllocError>
    ensures { IfOk result (λ new. unwrap_or new formula.now ≡ formula_with_body formula.now body) }
{
    let Some(body) = body else {
        return Ok(None);
    };
    match formula.node() {
        FormulaNode::Not(_) => Ok(Some(Formula::not(alloc, body)?)),
        FormulaNode::All(_) => Ok(Some(Formula::all(alloc, body)?)),
        FormulaNode::Ex(_) => Ok(Some(Formula::ex(alloc, body)?)),
        _ => Ok(None),
    }
}

/// A conjunction, a disjunction or an implication with new parts.
pub fn with_parts(
    alloc: Global,
    formula: &Formula,
    first: Option<Formula>,
    second: Option<Formula>,
) -> Result<Option<Formula>, AllocError>
    ensures { IfOk result (λ new. unwrap_or new formula.now ≡ formula_with_parts formula.now first second) }
{
    if first.is_none() && second.is_none() {
        return Ok(None);
    }
    match formula.node() {
        FormulaNode::And(f, g) => {
            let first = or_copy(first, f)?;
            let second = or_copy(second, g)?;
            Ok(Some(Formula::and(alloc, first, second)?))
        }
        FormulaNode::Or(f, g) => {
            let first = or_copy(first, f)?;
            let second = or_copy(second, g)?;
            Ok(Some(Formula::or(alloc, first, second)?))
        }
        FormulaNode::Imp(f, g) => {
            let first = or_copy(first, f)?;
            let second = or_copy(second, g)?;
            Ok(Some(Formula::imp(alloc, first, second)?))
        }
        _ => Ok(None),
    }
}

/// The sides of an equivalence, each of which stands in it twice. What is made of a side is then made once, and both places share it: a text
/// in which equivalences nest is a formula with few different parts and a great many nodes.
pub fn sides(formula: &Formula) -> Option<(&Formula, &Formula)>
    ensures { IfSome result (λ s. formula.now ≡ equivalence s.0.now s.1.now) }
{
    match formula.node() {
        FormulaNode::And(forth, back) => match (forth.node(), back.node()) {
            (FormulaNode::Imp(first, second), FormulaNode::Imp(other, another))
                if first == another && second == other => { Some((first, second)) }
            _ => None,
        },
        _ => None,
    }
}

/// An equivalence with new sides.
pub fn with_sides(
    alloc: Global,
    first: &Formula,
    second: &Formula,
    new_first: Option<Formula>,
    new_second: Option<Formula>,
) -> Result<Option<Formula>, AllocError>
    ensures { IfOk result (λ new. unwrap_or new (equivalence first.now second.now) ≡ equivalence (unwrap_or new_first first.now) (unwrap_or new_second second.now)) }
{
    if new_first.is_none() && new_second.is_none() {
        return Ok(None);
    }
    let first = or_copy(new_first, first)?;
    let second = or_copy(new_second, second)?;
    let forth = Formula::imp(alloc, first.copy()?, second.copy()?)?;
    let back = Formula::imp(alloc, second, first)?;
    Ok(Some(Formula::and(alloc, forth, back)?))
}
