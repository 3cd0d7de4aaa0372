//! Terms, in which nothing is unfolded, in another arena.
ghost use Rattle.std.specs.Prelude.{IfOk, OnOk};
ghost use Rattle.arena_cells.specs.Standing.{Extends, HasSymbol, HasTerm, HasTerms, HasVariable, symbol_at, term_at, terms_at, variable_at, IsSymbolAt, IsTermAt, IsTermsAt, IsVariableAt};
ghost use Rattle.arena_flat.specs.Flattened.{AreFlat};

use crate::flattened::Flattened;
use arena::{Arena, Key};
use std::alloc::{AllocError, Global};

/// The number of a symbol's copy.
pub(crate) fn copy_symbol(
    alloc: Global,
    from: &Arena,
    to: &mut Arena,
    symbol: u32,
) -> Result<u32, AllocError>
    requires { IsSymbolAt from.now symbol }
    ensures symbol { IfOk result (λ n. HasSymbol to.new n (symbol_at from.now symbol)) }
    ensures grown { Extends to.old to.new }
{
    to.import_symbol(alloc, from.symbol(symbol))
}

/// The number of a variable's copy.
pub(crate) fn copy_variable(
    alloc: Global,
    from: &Arena,
    to: &mut Arena,
    variable: u32,
) -> Result<u32, AllocError>
    requires { IsVariableAt from.now variable }
    ensures variable { IfOk result (λ n. HasVariable to.new n (variable_at from.now variable)) }
    ensures grown { Extends to.old to.new }
{
    to.import_variable(alloc, from.variable(variable))
}

/// The number of a term's copy. Each distinct part of it is copied once.
#[cycle(copy_term)]
pub(crate) fn copy_term(
    alloc: Global,
    from: &Arena,
    to: &mut Arena,
    flattened: &mut Flattened,
    term: u32,
) -> Result<u32, AllocError>
    requires there { IsTermAt from.now term }
    requires flattened { AreFlat from.now to.old flattened.old }
    ensures term { IfOk result (λ n. HasTerm to.new n (term_at from.now term)) }
    ensures grown { Extends to.old to.new }
    ensures flattened { OnOk result (AreFlat from.now to.new flattened.new) }
{
    if let Some(copy) = flattened.term(from, to, term) {
        return Ok(copy);
    }
    let copy = copy_new_term(alloc, from, to, flattened, term)?;
    flattened.note_term(from, to, term, copy)?;
    Ok(copy)
}

// The number of the copy of a term that wasn't copied before.
#[cycle(copy_term)]
fn copy_new_term(
    alloc: Global,
    from: &Arena,
    to: &mut Arena,
    flattened: &mut Flattened,
    term: u32,
) -> Result<u32, AllocError>
    requires there { IsTermAt from.now term }
    requires flattened { AreFlat from.now to.old flattened.old }
    ensures term { IfOk result (λ n. HasTerm to.new n (term_at from.now term)) }
    ensures grown { Extends to.old to.new }
    ensures flattened { OnOk result (AreFlat from.now to.new flattened.new) }
{
    match from.key(term) {
        Key::Free(variable) => to.import_variable(alloc, variable),
        Key::Bound(index) => to.put(alloc, Key::Bound(*index)),
        Key::App(symbol, terms) => {
            let symbol = copy_symbol(alloc, from, to, *symbol)?;
            let terms = copy_terms(alloc, from, to, flattened, *terms)?;
            to.put(alloc, Key::App(symbol, terms))
        }
        _ => unreachable!(),
    }
}

/// The number of the copy of a list of terms. Each distinct part of it is copied once.
#[cycle(copy_term)]
pub(crate) fn copy_terms(
    alloc: Global,
    from: &Arena,
    to: &mut Arena,
    flattened: &mut Flattened,
    terms: u32,
) -> Result<u32, AllocError>
    requires there { IsTermsAt from.now terms }
    requires flattened { AreFlat from.now to.old flattened.old }
    ensures terms { IfOk result (λ n. HasTerms to.new n (terms_at from.now terms)) }
    ensures grown { Extends to.old to.new }
    ensures flattened { OnOk result (AreFlat from.now to.new flattened.new) }
{
    if let Some(copy) = flattened.term(from, to, terms) {
        return Ok(copy);
    }
    let copy = copy_new_terms(alloc, from, to, flattened, terms)?;
    flattened.note_term(from, to, terms, copy)?;
    Ok(copy)
}

// The number of the copy of a list of terms that wasn't copied before.
#[cycle(copy_term)]
fn copy_new_terms(
    alloc: Global,
    from: &Arena,
    to: &mut Arena,
    flattened: &mut Flattened,
    terms: u32,
) -> Result<u32, AllocError>
    requires there { IsTermsAt from.now terms }
    requires flattened { AreFlat from.now to.old flattened.old }
    ensures terms { IfOk result (λ n. HasTerms to.new n (terms_at from.now terms)) }
    ensures grown { Extends to.old to.new }
    ensures flattened { OnOk result (AreFlat from.now to.new flattened.new) }
{
    match from.key(terms) {
        Key::Nil => to.put(alloc, Key::Nil),
        Key::Cons(term, rest) => {
            let term = copy_term(alloc, from, to, flattened, *term)?;
            let rest = copy_terms(alloc, from, to, flattened, *rest)?;
            to.put(alloc, Key::Cons(term, rest))
        }
        _ => unreachable!(),
    }
}
