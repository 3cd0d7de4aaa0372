//! The parts of the formulas of a sequent.
ghost use Rattle.std.specs.Prelude.{◌≡◌, true, IfOk, OnOk};
ghost use Rattle.std.specs.List.{All, list_all};
ghost use Rattle.fol.specs.Syntax.{top, bot};
ghost use Rattle.fol.specs.Order.{formula_cmp};
ghost use Rattle.fol.specs.Formed.{is_formed, IsFormed};
ghost use Rattle.finite.specs.Finite as set;
ghost use Rattle.prop_search.specs.Formulas.{is_listed};
ghost use Rattle.prop_search.specs.Parts.{HasParts, IsClosed, Keeps};

use fol::{Formula, FormulaNode};
use lk_rules::Sequent;
use std::alloc::{AllocError, Global};
use std::collections::BTreeSet;

// Adds a formula whose parts are there.
fn add_whole(seen: &mut BTreeSet<Formula>, formula: &Formula) -> Result<(), AllocError>
    requires parts { IsClosed seen.old.keys }
    requires formed { list_all is_formed seen.old.keys ≡ true }
    requires formula { IsFormed formula.now }
    requires whole { HasParts seen.old.keys formula.now }
    ensures parts { OnOk result (IsClosed seen.new.keys) }
    ensures formed { OnOk result (list_all is_formed seen.new.keys ≡ true) }
    ensures added { OnOk result (is_listed seen.new.keys formula.now ≡ true) }
    ensures kept { OnOk result (Keeps seen.old.keys seen.new.keys) }
{
    seen.insert(formula.copy()?)?;
    Ok(())
}

// Adds the parts of a formula that aren't there, the formula itself included.
fn add_parts(seen: &mut BTreeSet<Formula>, formula: &Formula) -> Result<(), AllocError>
    requires parts { IsClosed seen.old.keys }
    requires formed { list_all is_formed seen.old.keys ≡ true }
    requires formula { IsFormed formula.now }
    ensures parts { OnOk result (IsClosed seen.new.keys) }
    ensures formed { OnOk result (list_all is_formed seen.new.keys ≡ true) }
    ensures added { OnOk result (is_listed seen.new.keys formula.now ≡ true) }
    ensures kept { OnOk result (Keeps seen.old.keys seen.new.keys) }
{
    if seen.contains(formula) {
        return Ok(());
    }
    match formula.node() {
        FormulaNode::Not(body) => {
            add_parts(seen, body)?;
            add_whole(seen, formula)
        }
        FormulaNode::And(first, second)
        | FormulaNode::Or(first, second)
        | FormulaNode::Imp(first, second) => {
            add_parts(seen, first)?;
            add_parts(seen, second)?;
            add_whole(seen, formula)
        }
        FormulaNode::Atom(..)
        | FormulaNode::Top
        | FormulaNode::Bot
        | FormulaNode::All(_)
        | FormulaNode::Ex(_) => add_whole(seen, formula),
    }
}

// Adds the parts of the formulas of a list.
fn add_each(seen: &mut BTreeSet<Formula>, formulas: &[Formula]) -> Result<(), AllocError>
    requires parts { IsClosed seen.old.keys }
    requires formed { list_all is_formed seen.old.keys ≡ true }
    requires formulas { All IsFormed formulas.now }
    ensures parts { OnOk result (IsClosed seen.new.keys) }
    ensures formed { OnOk result (list_all is_formed seen.new.keys ≡ true) }
    ensures added { OnOk result (list_all (is_listed seen.new.keys) formulas.now ≡ true) }
    ensures kept { OnOk result (Keeps seen.old.keys seen.new.keys) }
{
    for formula in formulas {
        add_parts(seen, formula)?;
    }
    Ok(())
}

// The formulas of a set in order.
fn listed(alloc: Global, seen: &BTreeSet<Formula>) -> Result<Vec<Formula>, AllocError>
    ensures same { IfOk result (λ formulas. formulas.items ≡ seen.now.keys) }
    ensures rises { IfOk result (λ formulas. set.IsRising formula_cmp formulas.items) }
{
    let mut formulas = Vec::with_capacity(alloc, seen.len())?;
    for formula in seen {
        formulas.push(formula.copy()?)?;
    }
    Ok(formulas)
}

/// The parts of the formulas of a sequent, truth and falsity, in rising order. A quantified formula has no parts here.
pub(crate) fn parts_of(alloc: Global, sequent: &Sequent) -> Result<Vec<Formula>, AllocError>
    ensures rises { IfOk result (λ formulas. set.IsRising formula_cmp formulas.items) }
    ensures formed { IfOk result (λ formulas. list_all is_formed formulas.items ≡ true) }
    ensures parts { IfOk result (λ formulas. IsClosed formulas.items) }
    ensures left { IfOk result (λ formulas. list_all (is_listed formulas.items) (set.listing sequent.now.left) ≡ true) }
    ensures right { IfOk result (λ formulas. list_all (is_listed formulas.items) (set.listing sequent.now.right) ≡ true) }
    ensures truth { IfOk result (λ formulas. is_listed formulas.items top ≡ true) }
    ensures falsity { IfOk result (λ formulas. is_listed formulas.items bot ≡ true) }
{
    let mut seen = BTreeSet::new(alloc);
    add_each(&mut seen, sequent.left())?;
    add_each(&mut seen, sequent.right())?;
    add_parts(&mut seen, &Formula::top(alloc)?)?;
    add_parts(&mut seen, &Formula::bot(alloc)?)?;
    let formulas = listed(alloc, &seen)?;
    Ok(formulas)
}
