//! Copies of formulas.
ghost use Rattle.std.specs.Prelude.{◌≡◌, ◌<◌, IfOk};
ghost use Rattle.fol.specs.Syntax.{atom, plain};
ghost use Rattle.arena_cells.specs.Standing.{Extends, HasFormula, symbol_at, terms_at, formula_at, IsSymbolAt, IsTermsAt, IsFormulaAt};
ghost use Rattle.arena_copy.specs.Copied.{AreCopied};
ghost use Rattle.arena_copy.specs.Over.{over};

use crate::copied::Copied;
use crate::terms::{copy_symbol, copy_terms};
use arena::{Arena, Key};
use std::alloc::{AllocError, Global};

/// The number of a formula's copy. Each distinct part of it is copied once; an atom whose symbol has a body comes in as a value.
#[cycle(copy_formula)]
pub(crate) fn copy_formula(
    alloc: Global,
    from: &Arena,
    to: &mut Arena,
    copied: &mut Copied,
    formula: u32,
) -> Result<u32, AllocError>
    requires there { IsFormulaAt from.now formula }
    requires copied { AreCopied from.now to.old copied.old }
    ensures formula { IfOk result (λ n. HasFormula to.new n (formula_at from.now formula)) }
    ensures grown { Extends to.old to.new }
    ensures copied { IfOk result (λ _. AreCopied from.now to.new copied.new) }
{
    if let Some(copy) = copied.copy(from, to, formula) {
        return Ok(copy);
    }
    let copy = copy_new_formula(alloc, from, to, copied, formula)?;
    copied.note(from, to, formula, copy)?;
    Ok(copy)
}

// The numbers of the copies of two formulas, whose numbers are below the number `above`.
#[cycle(copy_formula)]
fn copy_two(
    alloc: Global,
    from: &Arena,
    to: &mut Arena,
    copied: &mut Copied,
    above: u32,
    first: u32,
    second: u32,
) -> Result<(u32, u32), AllocError>
    requires first { IsFormulaAt from.now first }
    requires second { IsFormulaAt from.now second }
    requires first_smaller { first < above }
    requires second_smaller { second < above }
    requires copied { AreCopied from.now to.old copied.old }
    ensures first { IfOk result (λ two. HasFormula to.new two.0 (formula_at from.now first)) }
    ensures second { IfOk result (λ two. HasFormula to.new two.1 (formula_at from.now second)) }
    ensures grown { Extends to.old to.new }
    ensures copied { IfOk result (λ _. AreCopied from.now to.new copied.new) }
{
    let _above = above;
    let first = copy_formula(alloc, from, to, copied, first)?;
    let second = copy_formula(alloc, from, to, copied, second)?;
    Ok((first, second))
}

// The number of the copy of the atom of a symbol without a body.
#[tactic(auto, using(arena_cells::proofs::Facts::places))]
fn copy_atom(
    alloc: Global,
    from: &Arena,
    to: &mut Arena,
    copied: &mut Copied,
    symbol: u32,
    terms: u32,
) -> Result<u32, AllocError>
    requires symbol { IsSymbolAt from.now symbol }
    requires terms { IsTermsAt from.now terms }
    requires copied { AreCopied from.now to.old copied.old }
    ensures formula { IfOk result (λ n. HasFormula to.new n (atom (plain (symbol_at from.now symbol)) (terms_at from.now terms))) }
    ensures grown { Extends to.old to.new }
    ensures copied { IfOk result (λ _. AreCopied from.now to.new copied.new) }
{
    let symbol = copy_symbol(alloc, from, to, symbol)?;
    let terms = copy_terms(alloc, from, to, copied, terms)?;
    to.put(alloc, Key::Atom(symbol, terms))
}

// The key of the same kind over these formulas, of which a negation and a quantified formula take the first alone.
fn key_over(key: &Key, first: u32, second: u32) -> Key
    ensures { result ≡ over key.now first second }
{
    match key {
        Key::Not(_) => Key::Not(first),
        Key::And(..) => Key::And(first, second),
        Key::Or(..) => Key::Or(first, second),
        Key::Imp(..) => Key::Imp(first, second),
        Key::All(_) => Key::All(first),
        Key::Ex(_) => Key::Ex(first),
        _ => Key::Top,
    }
}

// The number of the copy of a formula that wasn't copied before.
#[cycle(copy_formula)]
#[tactic(auto, using(arena_cells::proofs::Facts::places))]
fn copy_new_formula(
    alloc: Global,
    from: &Arena,
    to: &mut Arena,
    copied: &mut Copied,
    formula: u32,
) -> Result<u32, AllocError>
    requires there { IsFormulaAt from.now formula }
    requires copied { AreCopied from.now to.old copied.old }
    ensures formula { IfOk result (λ n. HasFormula to.new n (formula_at from.now formula)) }
    ensures grown { Extends to.old to.new }
    ensures copied { IfOk result (λ _. AreCopied from.now to.new copied.new) }
{
    let key = from.key(formula);
    match key {
        Key::Atom(symbol, terms) => copy_atom(alloc, from, to, copied, *symbol, *terms),
        Key::Defined(..) => to.import_formula(alloc, from.formula(formula)),
        Key::Top => to.put(alloc, Key::Top),
        Key::Bot => to.put(alloc, Key::Bot),
        Key::Not(body) | Key::All(body) | Key::Ex(body) => {
            let copy = copy_formula(alloc, from, to, copied, *body)?;
            to.put(alloc, key_over(key, copy, copy))
        }
        Key::And(first, second) | Key::Or(first, second) | Key::Imp(first, second) => {
            let (first, second) = copy_two(alloc, from, to, copied, formula, *first, *second)?;
            to.put(alloc, key_over(key, first, second))
        }
        _ => unreachable!(),
    }
}
