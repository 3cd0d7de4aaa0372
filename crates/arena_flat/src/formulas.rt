//! Formulas with all unfolded.
ghost use Rattle.std.specs.Prelude.{◌≡◌, ◌<◌, IfOk, OnOk};
ghost use Rattle.arena_cells.specs.Standing.{Extends, HasFormula, symbol_at, terms_at, formula_at, IsSymbolAt, IsTermsAt, IsFormulaAt};
ghost use Rattle.fol.specs.Syntax.{plain, atom};
ghost use Rattle.def_laws.specs.Flat.{flat as flat_of};
ghost use Rattle.arena_flat.specs.Flattened.{AreFlat};
ghost use Rattle.arena_flat.specs.Short.{IsShort};
ghost use Rattle.arena_flat.specs.Over.{over};

use crate::flattened::Flattened;
use crate::terms::{copy_symbol, copy_terms};
use arena::{Arena, Key};
use def_symbols::flat;
use std::alloc::{AllocError, Global};

/// The number of a formula with all unfolded. Each distinct part of it is done once; an atom whose symbol has a body is unfolded as a value.
#[cycle(flatten_formula)]
pub(crate) fn flatten_formula(
    alloc: Global,
    from: &Arena,
    to: &mut Arena,
    flattened: &mut Flattened,
    formula: u32,
) -> Result<u32, AllocError>
    requires there { IsFormulaAt from.now formula }
    requires flattened { AreFlat from.now to.old flattened.old }
    ensures formula { IfOk result (λ n. HasFormula to.new n (flat_of (formula_at from.now formula))) }
    ensures grown { Extends to.old to.new }
    ensures flattened { OnOk result (AreFlat from.now to.new flattened.new) }
{
    if let Some(flat) = flattened.formula(from, to, formula) {
        return Ok(flat);
    }
    let flat = flatten_new(alloc, from, to, flattened, formula)?;
    flattened.note_formula(from, to, formula, flat)?;
    Ok(flat)
}

// The numbers of two formulas with all unfolded, whose numbers are below the number `above`.
#[cycle(flatten_formula)]
fn flatten_two(
    alloc: Global,
    from: &Arena,
    to: &mut Arena,
    flattened: &mut Flattened,
    above: u32,
    first: u32,
    second: u32,
) -> Result<(u32, u32), AllocError>
    requires first { IsFormulaAt from.now first }
    requires second { IsFormulaAt from.now second }
    requires first_smaller { first < above }
    requires second_smaller { second < above }
    requires flattened { AreFlat from.now to.old flattened.old }
    ensures first { IfOk result (λ two. HasFormula to.new two.0 (flat_of (formula_at from.now first))) }
    ensures second { IfOk result (λ two. HasFormula to.new two.1 (flat_of (formula_at from.now second))) }
    ensures grown { Extends to.old to.new }
    ensures flattened { OnOk result (AreFlat from.now to.new flattened.new) }
{
    let _above = above;
    let first = flatten_formula(alloc, from, to, flattened, first)?;
    let second = flatten_formula(alloc, from, to, flattened, second)?;
    Ok((first, second))
}

// The number of the atom of a symbol without a body.
#[tactic(auto, using(arena_cells::proofs::Facts::places))]
fn copy_atom(
    alloc: Global,
    from: &Arena,
    to: &mut Arena,
    flattened: &mut Flattened,
    symbol: u32,
    terms: u32,
) -> Result<u32, AllocError>
    requires symbol { IsSymbolAt from.now symbol }
    requires terms { IsTermsAt from.now terms }
    requires flattened { AreFlat from.now to.old flattened.old }
    ensures formula { IfOk result (λ n. HasFormula to.new n (atom (plain (symbol_at from.now symbol)) (terms_at from.now terms))) }
    ensures grown { Extends to.old to.new }
    ensures flattened { OnOk result (AreFlat from.now to.new flattened.new) }
{
    let terms = copy_terms(alloc, from, to, flattened, terms)?;
    let symbol = copy_symbol(alloc, from, to, symbol)?;
    to.put(alloc, Key::Atom(symbol, terms))
}

// The number of an atom with all unfolded, which is made as a value.
fn unfold_atom(alloc: Global, from: &Arena, to: &mut Arena, formula: u32) -> Result<u32, AllocError>
    requires { IsFormulaAt from.now formula }
    ensures formula { IfOk result (λ n. HasFormula to.new n (flat_of (formula_at from.now formula))) }
    ensures grown { Extends to.old to.new }
{
    let flat = flat(alloc, from.formula(formula))?;
    to.import_formula(alloc, &flat)
}

// The key of the same kind over these formulas, of which a negation and a quantified formula take the first alone.
fn key_over(key: &Key, first: u32, second: u32) -> Key
    ensures { result ≡ over key.now first second }
{
    match key {
        Key::Not(_) => Key::Not(first),
        Key::And(..) => Key::And(first, second),
        Key::Or(..) => Key::Or(first, second),
        Key::Imp(..) => Key::Imp(first, second),
        Key::All(_) => Key::All(first),
        Key::Ex(_) => Key::Ex(first),
        _ => Key::Top,
    }
}

// The number of a formula with all unfolded that wasn't done before.
#[cycle(flatten_formula)]
#[tactic(auto, using(arena_cells::proofs::Facts::places))]
fn flatten_new(
    alloc: Global,
    from: &Arena,
    to: &mut Arena,
    flattened: &mut Flattened,
    formula: u32,
) -> Result<u32, AllocError>
    requires there { IsFormulaAt from.now formula }
    requires flattened { AreFlat from.now to.old flattened.old }
    ensures formula { IfOk result (λ n. HasFormula to.new n (flat_of (formula_at from.now formula))) }
    ensures grown { Extends to.old to.new }
    ensures flattened { OnOk result (AreFlat from.now to.new flattened.new) }
{
    let key = from.key(formula);
    match key {
        Key::Atom(symbol, terms) => copy_atom(alloc, from, to, flattened, *symbol, *terms),
        Key::Defined(..) => unfold_atom(alloc, from, to, formula),
        Key::Top => to.put(alloc, Key::Top),
        Key::Bot => to.put(alloc, Key::Bot),
        Key::Not(body) | Key::All(body) | Key::Ex(body) => {
            let flat = flatten_formula(alloc, from, to, flattened, *body)?;
            to.put(alloc, key_over(key, flat, flat))
        }
        Key::And(first, second) | Key::Or(first, second) | Key::Imp(first, second) => {
            let (first, second) = flatten_two(
                alloc, from, to, flattened, formula, *first, *second,
            )?;
            to.put(alloc, key_over(key, first, second))
        }
        _ => unreachable!(),
    }
}

/// A formula of an arena has few enough nodes to stay well formed.
#[tactic(auto, using(crate::proofs::Sizes::short_of))]
pub(crate) fn is_short(from: &Arena, formula: u32)
    requires { IsFormulaAt from.now formula }
    ensures { IsShort (formula_at from.now formula) }
{
    let is_small = from.formula(formula).size() < 1 << 31;
    prove!(is_small);
}
