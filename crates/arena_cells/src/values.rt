//! What is stored of a key's item: the value, which shares the values of the parts.
ghost use Rattle.std.specs.Prelude.{◌≡◌, IfOk};
ghost use Rattle.fol.specs.Syntax.{plain, pred, defined, atom as atom_of};
ghost use Rattle.arena_cells.specs.Meaning.{meaning, HasParts};
ghost use Rattle.arena_cells.specs.Standing.{term_of, terms_of, formula_of, symbol_at, terms_at, formula_at, IsSymbolAt, IsTermsAt, IsFormulaAt};
ghost use Rattle.arena_cells.specs.Cells.{stored_of, quantified_or_negated, connected};

use crate::cells::{Cells, Stored};
use crate::key::Key;
use fol::{Formula, Predicate, Term, Terms};
use std::alloc::{AllocError, Global};

/// What is stored of the key's item.
pub(crate) fn stored_for(cells: &Cells, alloc: Global, key: &Key) -> Result<Stored, AllocError>
    requires { HasParts cells.now key.now }
    ensures { IfOk result (λ stored. stored ≡ stored_of (meaning cells.now key.now)) }
{
    Ok(match key {
        Key::Symbol(symbol) => Stored::Symbol(symbol.copy()?),
        Key::Free(_) | Key::Bound(_) | Key::App(..) => Stored::Term(term_for(cells, alloc, key)?),
        Key::Nil | Key::Cons(..) => Stored::Terms(terms_for(cells, alloc, key)?),
        Key::Variables(_) | Key::Map(..) | Key::Side(_) | Key::Sequent(..) | Key::Tree(..) => {
            Stored::Nothing
        }
        Key::Atom(..)
        | Key::Defined(..)
        | Key::Top
        | Key::Bot
        | Key::Not(_)
        | Key::And(..)
        | Key::Or(..)
        | Key::Imp(..)
        | Key::All(_)
        | Key::Ex(_) => Stored::Formula(formula_for(cells, alloc, key)?),
    })
}

// The key's term, or the default where it is none.
fn term_for(cells: &Cells, alloc: Global, key: &Key) -> Result<Term, AllocError>
    requires { HasParts cells.now key.now }
    ensures { IfOk result (λ term. term ≡ term_of (meaning cells.now key.now)) }
{
    match key {
        Key::Free(variable) => Term::free(alloc, variable.copy()?),
        Key::Bound(index) => Term::bound(alloc, *index),
        Key::App(symbol, terms) => {
            let symbol = cells.symbol(*symbol).copy()?;
            Term::app(alloc, symbol, cells.terms(*terms).copy()?)
        }
        _ => Term::bound(alloc, 0),
    }
}

// The key's list of terms, or the default where it is none.
fn terms_for(cells: &Cells, alloc: Global, key: &Key) -> Result<Terms, AllocError>
    requires { HasParts cells.now key.now }
    ensures { IfOk result (λ terms. terms ≡ terms_of (meaning cells.now key.now)) }
{
    let Key::Cons(term, terms) = key else {
        return Terms::empty(alloc);
    };
    let term = cells.term(*term).copy()?;
    Terms::cons(alloc, term, cells.terms(*terms).copy()?)
}

// The key's formula, or the default where it is none.
fn formula_for(cells: &Cells, alloc: Global, key: &Key) -> Result<Formula, AllocError>
    requires { HasParts cells.now key.now }
    ensures { IfOk result (λ formula. formula ≡ formula_of (meaning cells.now key.now)) }
{
    match key {
        Key::Atom(symbol, terms) => atom(cells, alloc, *symbol, *terms),
        Key::Defined(symbol, body, terms) => defined_atom(cells, alloc, *symbol, *body, *terms),
        Key::Bot => Formula::bot(alloc),
        Key::Not(body) | Key::All(body) | Key::Ex(body) => {
            quantified_or_negated(alloc, key, part(cells, *body)?)
        }
        Key::And(first, second) | Key::Or(first, second) | Key::Imp(first, second) => {
            let first = part(cells, *first)?;
            connected(alloc, key, first, part(cells, *second)?)
        }
        _ => Formula::top(alloc),
    }
}

// The atom of the symbol, which has no body, and the list of terms at the numbers.
fn atom(cells: &Cells, alloc: Global, symbol: u32, terms: u32) -> Result<Formula, AllocError>
    requires symbol { IsSymbolAt cells.now symbol }
    requires terms { IsTermsAt cells.now terms }
    ensures { IfOk result (λ formula. formula ≡ atom_of (plain (symbol_at cells.now symbol)) (terms_at cells.now terms)) }
{
    let symbol = cells.symbol(symbol).copy()?;
    Formula::atom(alloc, symbol, cells.terms(terms).copy()?)
}

// The atom of the symbol, its body and the list of terms at the numbers.
fn defined_atom(
    cells: &Cells,
    alloc: Global,
    symbol: u32,
    body: u32,
    terms: u32,
) -> Result<Formula, AllocError>
    requires symbol { IsSymbolAt cells.now symbol }
    requires body { IsFormulaAt cells.now body }
    requires terms { IsTermsAt cells.now terms }
    ensures { IfOk result (λ formula. formula ≡ atom_of (pred (symbol_at cells.now symbol) (defined (formula_at cells.now body))) (terms_at cells.now terms)) }
{
    let predicate = Predicate {
        symbol: cells.symbol(symbol).copy()?,
        body: Some(part(cells, body)?),
    };
    Formula::atom_of(alloc, predicate, cells.terms(terms).copy()?)
}

// The formula that the key makes of its only part: a negation, a universal or, of each other key, an existential formula.
fn quantified_or_negated(alloc: Global, key: &Key, body: Formula) -> Result<Formula, AllocError>
    ensures { IfOk result (λ formula. formula ≡ quantified_or_negated key.now body) }
{
    match key {
        Key::Not(_) => Formula::not(alloc, body),
        Key::All(_) => Formula::all(alloc, body),
        _ => Formula::ex(alloc, body),
    }
}

// The formula that the key makes of its two parts: a conjunction, a disjunction or, of each other key, an implication.
fn connected(
    alloc: Global,
    key: &Key,
    first: Formula,
    second: Formula,
) -> Result<Formula, AllocError>
    ensures { IfOk result (λ formula. formula ≡ connected key.now first second) }
{
    match key {
        Key::And(..) => Formula::and(alloc, first, second),
        Key::Or(..) => Formula::or(alloc, first, second),
        _ => Formula::imp(alloc, first, second),
    }
}

// Another owner of the formula at the number.
fn part(cells: &Cells, number: u32) -> Result<Formula, AllocError>
    requires { IsFormulaAt cells.now number }
    ensures { IfOk result (λ part. part ≡ formula_at cells.now number) }
{
    cells.formula(number).copy()
}
