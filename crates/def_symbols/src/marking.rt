//! Formulas, sequents and rules in which symbols get their definitions.
ghost use Rattle.std.specs.Prelude.{◌≡◌, true, IfOk, unwrap_or, option_copied};
ghost use Rattle.std.specs.List.{All, list_all};
ghost use Rattle.fol.specs.Formed.{is_formed, IsFormed, IsFormedPred};
ghost use Rattle.finite.specs.Finite as set;
ghost use Rattle.lk_rules.specs.RuleOrder.{formula_of, map_rule};
ghost use Rattle.lk_rules.specs.Rules.{IsFormedRule};
ghost use Rattle.proof_trees.specs.Conclusions.{IsFormedSequent};
ghost use Rattle.def_laws.specs.Marking.{marked_pred, marked, marked_set, marked_sequent, marked_rule};

use crate::sharing::{or_copy, sides, with_body, with_parts, with_sides};
use crate::table::Definitions;
use fol::{Formula, FormulaNode, Predicate};
use lk_rules::{Formulas, Rule, Sequent};
use std::alloc::{AllocError, Global};

/// The formula in which each predicate symbol without a body is the definition of its name and number of arguments, where there is one.
/// Bodies aren't looked into. A part in which nothing is marked is shared.
#[tactic(auto, using(crate::proofs::Marks::formed_mark))]
pub fn mark(
    alloc: Global,
    definitions: &Definitions,
    formula: &Formula,
) -> Result<Formula, AllocError>
    requires definitions { All IsFormedPred definitions.now }
    requires formula { IsFormed formula.now }
    ensures value { IfOk result (λ f. f ≡ marked definitions.now formula.now) }
    ensures formed { IfOk result IsFormed }
{
    let changed = mark_in(alloc, definitions, formula)?;
    or_copy(changed, formula)
}

/// The sequent of the marked formulas. Formulas that fall together become one.
pub fn mark_sequent(
    alloc: Global,
    definitions: &Definitions,
    sequent: &Sequent,
) -> Result<Sequent, AllocError>
    requires { All IsFormedPred definitions.now }
    ensures value { IfOk result (λ s. s ≡ marked_sequent definitions.now sequent.now) }
    ensures formed { IfOk result IsFormedSequent }
{
    let left = mark_set(alloc, definitions, &sequent.left)?;
    let right = mark_set(alloc, definitions, &sequent.right)?;
    are_formed(&left);
    are_formed(&right);
    Ok(Sequent { left, right })
}

// Each formula of a set is well formed.
#[tactic(auto, using(crate::proofs::Marks::formed_listing))]
fn are_formed(formulas: &Formulas)
    ensures { list_all is_formed (set.listing formulas.now) ≡ true }
{
    let _formulas = formulas.as_slice();
}

/// The rule with its formula marked.
pub fn mark_rule(alloc: Global, definitions: &Definitions, rule: &Rule) -> Result<Rule, AllocError>
    requires definitions { All IsFormedPred definitions.now }
    requires rule { IsFormedRule rule.now }
    ensures value { IfOk result (λ r. r ≡ marked_rule definitions.now rule.now) }
    ensures formed { IfOk result IsFormedRule }
{
    marked_copy(alloc, definitions, rule)
}

// The rule with its formula marked, or a copy of it where it names none.
#[tactic(auto, using(crate::proofs::Marks::rule_without, crate::proofs::Marks::rule_with))]
fn marked_copy(alloc: Global, definitions: &Definitions, rule: &Rule) -> Result<Rule, AllocError>
    ensures { IfOk result (λ r. r ≡ marked_rule definitions.now rule.now) }
{
    let Some(main) = rule.formula() else {
        return rule.copy();
    };
    let main = mark_copy(alloc, definitions, main)?;
    with_formula(rule, main)
}

// The rule with another formula.
fn with_formula(rule: &Rule, main: Formula) -> Result<Rule, AllocError>
    ensures { IfOk result (λ r. r ≡ map_rule (λ _. main) (λ t. t) (λ y. y) rule.now) }
{
    Ok(match rule {
        Rule::Ax(_) => Rule::Ax(main),
        Rule::TopR => Rule::TopR,
        Rule::BotL => Rule::BotL,
        Rule::NegL(_) => Rule::NegL(main),
        Rule::NegR(_) => Rule::NegR(main),
        Rule::AndL(_) => Rule::AndL(main),
        Rule::AndR(_) => Rule::AndR(main),
        Rule::OrL(_) => Rule::OrL(main),
        Rule::OrR(_) => Rule::OrR(main),
        Rule::ImpL(_) => Rule::ImpL(main),
        Rule::ImpR(_) => Rule::ImpR(main),
        Rule::AllL(_, term) => Rule::AllL(main, term.copy()?),
        Rule::AllR(_, variable) => Rule::AllR(main, variable.copy()?),
        Rule::ExL(_, variable) => Rule::ExL(main, variable.copy()?),
        Rule::ExR(_, term) => Rule::ExR(main, term.copy()?),
        Rule::DefL(_) => Rule::DefL(main),
        Rule::DefR(_) => Rule::DefR(main),
        Rule::Cut(_) => Rule::Cut(main),
        Rule::Weak => Rule::Weak,
    })
}

// The marked formula, or another owner of it where nothing is marked.
fn mark_copy(
    alloc: Global,
    definitions: &Definitions,
    formula: &Formula,
) -> Result<Formula, AllocError>
    ensures { IfOk result (λ f. f ≡ marked definitions.now formula.now) }
{
    let changed = mark_in(alloc, definitions, formula)?;
    or_copy(changed, formula)
}

// The set of the marked formulas.
fn mark_set(
    alloc: Global,
    definitions: &Definitions,
    formulas: &Formulas,
) -> Result<Formulas, AllocError>
    requires { All IsFormedPred definitions.now }
    ensures { IfOk result (λ s. s ≡ marked_set definitions.now formulas.now) }
{
    let mut list = Vec::with_capacity(alloc, formulas.as_slice().len())?;
    for formula in formulas.as_slice() {
        list.push(mark(alloc, definitions, formula)?)?;
    }
    Formulas::from_vec(alloc, list)
}

// The marked formula, or nothing where it is the formula itself.
fn mark_in(
    alloc: Global,
    definitions: &Definitions,
    formula: &Formula,
) -> Result<Option<Formula>, AllocError>
    ensures { IfOk result (λ new. unwrap_or new formula.now ≡ marked definitions.now formula.now) }
{
    if let Some((first, second)) = sides(formula) {
        let new_first = mark_in(alloc, definitions, first)?;
        let new_second = mark_in(alloc, definitions, second)?;
        return with_sides(alloc, first, second, new_first, new_second);
    }
    match formula.node() {
        FormulaNode::Atom(predicate, terms) => match marked_symbol(definitions, predicate) {
            Some(definition) => {
                let atom = Formula::atom_of(alloc, definition.copy()?, terms.copy()?)?;
                Ok(Some(atom))
            }
            None => Ok(None),
        },
        FormulaNode::Top | FormulaNode::Bot => Ok(None),
        FormulaNode::Not(body) | FormulaNode::All(body) | FormulaNode::Ex(body) => {
            let body = mark_in(alloc, definitions, body)?;
            with_body(alloc, formula, body)
        }
        FormulaNode::And(first, second)
        | FormulaNode::Or(first, second)
        | FormulaNode::Imp(first, second) => {
            let first = mark_in(alloc, definitions, first)?;
            let second = mark_in(alloc, definitions, second)?;
            with_parts(alloc, formula, first, second)
        }
    }
}

// The definition that a symbol without a body gets.
fn marked_symbol<'a>(definitions: &'a Definitions, predicate: &Predicate) -> Option<&'a Predicate>
    ensures { unwrap_or (option_copied result) predicate.now ≡ marked_pred definitions.now predicate.now }
{
    match &predicate.body {
        None => definitions.get(&predicate.symbol),
        Some(_) => None,
    }
}
