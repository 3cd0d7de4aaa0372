//! The check of one inference.
ghost use Rattle.std.specs.Prelude.{◌≡◌, ◌↔◌, ◌≤◌, ◌||◌, IsOk, IsSome, is_some, option_copied};
ghost use Rattle.std.specs.List.{list_any};
ghost use Rattle.std.specs.Ordering.{eq_by_cmp};
ghost use Rattle.fol.specs.Syntax.{top, bot};
ghost use Rattle.fol.specs.Order.{formula_cmp};
ghost use Rattle.finite.specs.Finite as set;
ghost use Rattle.substitution.specs.Unfolding.{unf};
ghost use Rattle.lk_rules.specs.declared.sequent.Side.TheVariants.{Left, Right};
ghost use Rattle.lk_rules.specs.Rules.{IsFormedRule, needs, has_shape, main_stands, eigen_free, aux, fits_side, fits, verdict_of, Row};

use crate::formulas::Formulas;
use crate::rule::Rule;
use crate::sequent::{Sequent, Side};
use crate::variable_instances::is_variable_instance;
use fol::{Formula, FormulaNode};
use substitution::{is_instance, is_unfolding};

/// What is wrong with an inference: the first fault in this order.
#[derive(Clone, Copy, PartialEq, Eq, Debug)]
pub enum RuleFault {
    /// The rule has another number of premises.
    Premises,
    /// The main formula does not have the connective that the rule introduces, or isn't an atom with an unfolding where the rule unfolds it.
    Shape,
    /// The main formula is missing from a side of the conclusion on which it must stand.
    MainMissing,
    /// The eigenvariable is free in the conclusion.
    EigenFree,
    /// The end sequent of this premise, counted from 0, is not a subsequent of the conclusion with the premise's auxiliary formulas.
    Premise(u64),
}

/// Checks one inference: its rule, its conclusion, how many premises it has, and the end sequents of the first two of them. A rule
/// with more than two premises doesn't exist, so those of further premises are not asked for. No memory is taken.
pub fn check(
    rule: &Rule,
    end: &Sequent,
    count: u64,
    first: Option<&Sequent>,
    second: Option<&Sequent>,
) -> Result<(), RuleFault>
    requires formed { IsFormedRule rule.now }
    requires first_there { IsSome first ↔ (1 ≤ count) }
    requires second_there { IsSome second ↔ (2 ≤ count) }
    ensures verdict { result ≡ verdict_of rule.now end.now count (option_copied first.entry) (option_copied second.entry) }
    ensures row { IsOk result ↔ Row rule.now end.now count (option_copied first.entry) (option_copied second.entry) }
{
    if count != premises_of(rule) {
        return Err(RuleFault::Premises);
    }
    if !is_shaped(rule) {
        return Err(RuleFault::Shape);
    }
    if !main_formula_stands(rule, end) {
        return Err(RuleFault::MainMissing);
    }
    if eigenvariable_is_free(rule, end) {
        return Err(RuleFault::EigenFree);
    }
    if !premise_fits(rule, end, 0, first) {
        return Err(RuleFault::Premise(0));
    }
    if !premise_fits(rule, end, 1, second) {
        return Err(RuleFault::Premise(1));
    }
    Ok(())
}

// How many premises the rule has.
fn premises_of(rule: &Rule) -> u64
    ensures { result ≡ needs rule.now }
{
    match rule {
        Rule::Ax(_) | Rule::TopR | Rule::BotL => 0,
        Rule::NegL(_)
        | Rule::NegR(_)
        | Rule::AndL(_)
        | Rule::OrR(_)
        | Rule::ImpR(_)
        | Rule::AllL(..)
        | Rule::AllR(..)
        | Rule::ExL(..)
        | Rule::ExR(..)
        | Rule::DefL(_)
        | Rule::DefR(_)
        | Rule::Weak => 1,
        Rule::AndR(_) | Rule::OrL(_) | Rule::ImpL(_) | Rule::Cut(_) => 2,
    }
}

// Whether the main formula has the connective or the quantifier that the rule introduces, or an unfolding where the rule unfolds it.
#[tactic(auto, using(crate::proofs::Rows::shape_left, crate::proofs::Rows::shape_right))]
fn is_shaped(rule: &Rule) -> bool
    ensures { result ≡ has_shape rule.now }
{
    match rule {
        Rule::NegL(main) | Rule::NegR(main) => matches!(main.node(), FormulaNode::Not(_)),
        Rule::AndL(main) | Rule::AndR(main) => matches!(main.node(), FormulaNode::And(..)),
        Rule::OrL(main) | Rule::OrR(main) => matches!(main.node(), FormulaNode::Or(..)),
        Rule::ImpL(main) | Rule::ImpR(main) => matches!(main.node(), FormulaNode::Imp(..)),
        Rule::AllL(main, _) | Rule::AllR(main, _) => matches!(main.node(), FormulaNode::All(_)),
        Rule::ExL(main, _) | Rule::ExR(main, _) => matches!(main.node(), FormulaNode::Ex(_)),
        Rule::DefL(main) | Rule::DefR(main) => has_unfolding(main),
        Rule::Ax(_) | Rule::TopR | Rule::BotL | Rule::Cut(_) | Rule::Weak => true,
    }
}

// Whether the formula is an atom whose predicate symbol has a body.
fn has_unfolding(formula: &Formula) -> bool
    ensures { result ≡ is_some (unf formula.now) }
{
    matches!(formula.node(), FormulaNode::Atom(predicate, _) if predicate.body.is_some())
}

// Whether the main formula stands in the conclusion where the rule asks for it.
#[tactic(auto, using(crate::proofs::Listings::has_listed))]
fn main_formula_stands(rule: &Rule, end: &Sequent) -> bool
    ensures { result ≡ main_stands rule.now end.now }
{
    match rule {
        Rule::Ax(main) => end.left.has(main) && end.right.has(main),
        Rule::TopR => has_top(&end.right),
        Rule::BotL => has_bot(&end.left),
        Rule::NegL(main)
        | Rule::AndL(main)
        | Rule::OrL(main)
        | Rule::ImpL(main)
        | Rule::AllL(main, _)
        | Rule::ExL(main, _)
        | Rule::DefL(main) => end.left.has(main),
        Rule::NegR(main)
        | Rule::AndR(main)
        | Rule::OrR(main)
        | Rule::ImpR(main)
        | Rule::AllR(main, _)
        | Rule::ExR(main, _)
        | Rule::DefR(main) => end.right.has(main),
        Rule::Cut(_) | Rule::Weak => true,
    }
}

// Whether truth is in the set. Unlike `has` it needs no formula to look for, and so no memory.
fn has_top(formulas: &Formulas) -> bool
    ensures { result ≡ list_any (eq_by_cmp formula_cmp top) (set.listing formulas.now) }
{
    formulas.as_slice().iter().any(|formula| is_top(formula))
}

// Whether falsity is in the set.
fn has_bot(formulas: &Formulas) -> bool
    ensures { result ≡ list_any (eq_by_cmp formula_cmp bot) (set.listing formulas.now) }
{
    formulas.as_slice().iter().any(|formula| is_bot(formula))
}

fn is_top(formula: &Formula) -> bool
    ensures { result ≡ eq_by_cmp formula_cmp top formula.now }
{
    matches!(formula.node(), FormulaNode::Top)
}

fn is_bot(formula: &Formula) -> bool
    ensures { result ≡ eq_by_cmp formula_cmp bot formula.now }
{
    matches!(formula.node(), FormulaNode::Bot)
}

// Whether the rule has an eigenvariable that is free in the conclusion.
fn eigenvariable_is_free(rule: &Rule, end: &Sequent) -> bool
    ensures { result ≡ eigen_free rule.now end.now }
{
    match rule {
        Rule::AllR(_, variable) | Rule::ExL(_, variable) => end.has_free(variable),
        _ => false,
    }
}

// Whether the formula is an auxiliary one of the premise on that side.
fn is_auxiliary(rule: &Rule, premise: u64, side: Side, formula: &Formula) -> bool
    requires formed { IsFormedRule rule.now }
    requires premise { premise ≤ 1 }
    ensures { result ≡ list_any (eq_by_cmp formula_cmp formula.now) (aux rule.now premise side) }
{
    match (premise, side) {
        (0, Side::Left) => is_auxiliary_on_left(rule, formula),
        (0, Side::Right) => is_auxiliary_on_right(rule, formula),
        _ => is_auxiliary_of_second(rule, side, formula),
    }
}

// Whether the formula is an auxiliary one of the first premise on the left.
#[tactic(auto, using(crate::proofs::Listings::equal_either_way))]
fn is_auxiliary_on_left(rule: &Rule, formula: &Formula) -> bool
    requires { IsFormedRule rule.now }
    ensures { result ≡ list_any (eq_by_cmp formula_cmp formula.now) (aux rule.now 0 Left) }
{
    match rule {
        Rule::NegR(main) => matches!(main.node(), FormulaNode::Not(a) if formula == a),
        Rule::AndL(main) => {
            matches!(main.node(), FormulaNode::And(a, b) if formula == a || formula == b)
        }
        Rule::OrL(main) => matches!(main.node(), FormulaNode::Or(a, _) if formula == a),
        Rule::ImpR(main) => matches!(main.node(), FormulaNode::Imp(a, _) if formula == a),
        Rule::AllL(main, term) => {
            matches!(main.node(), FormulaNode::All(body) if is_instance(body, term, formula))
        }
        Rule::ExL(main, variable) => {
            matches!(main.node(), FormulaNode::Ex(body) if is_variable_instance(body, variable, formula))
        }
        Rule::DefL(main) => is_unfolding(main, formula),
        _ => false,
    }
}

// Whether the formula is an auxiliary one of the first premise on the right.
#[tactic(auto, using(crate::proofs::Listings::equal_either_way))]
fn is_auxiliary_on_right(rule: &Rule, formula: &Formula) -> bool
    requires { IsFormedRule rule.now }
    ensures { result ≡ list_any (eq_by_cmp formula_cmp formula.now) (aux rule.now 0 Right) }
{
    match rule {
        Rule::NegL(main) => matches!(main.node(), FormulaNode::Not(a) if formula == a),
        Rule::AndR(main) => matches!(main.node(), FormulaNode::And(a, _) if formula == a),
        Rule::OrR(main) => {
            matches!(main.node(), FormulaNode::Or(a, b) if formula == a || formula == b)
        }
        Rule::ImpL(main) => matches!(main.node(), FormulaNode::Imp(a, _) if formula == a),
        Rule::ImpR(main) => matches!(main.node(), FormulaNode::Imp(_, b) if formula == b),
        Rule::AllR(main, variable) => {
            matches!(main.node(), FormulaNode::All(body) if is_variable_instance(body, variable, formula))
        }
        Rule::ExR(main, term) => {
            matches!(main.node(), FormulaNode::Ex(body) if is_instance(body, term, formula))
        }
        Rule::DefR(main) => is_unfolding(main, formula),
        Rule::Cut(main) => formula == main,
        _ => false,
    }
}

// Whether the formula is an auxiliary one of the second premise on that side.
#[tactic(auto, using(crate::proofs::Listings::equal_either_way))]
fn is_auxiliary_of_second(rule: &Rule, side: Side, formula: &Formula) -> bool
    ensures { result ≡ list_any (eq_by_cmp formula_cmp formula.now) (aux rule.now 1 side) }
{
    match (rule, side) {
        (Rule::AndR(main), Side::Right) => {
            matches!(main.node(), FormulaNode::And(_, b) if formula == b)
        }
        (Rule::OrL(main), Side::Left) => {
            matches!(main.node(), FormulaNode::Or(_, b) if formula == b)
        }
        (Rule::ImpL(main), Side::Left) => {
            matches!(main.node(), FormulaNode::Imp(_, b) if formula == b)
        }
        (Rule::Cut(main), Side::Left) => formula == main,
        _ => false,
    }
}

// Whether the end sequent of a premise, where there is one, fits the conclusion.
fn premise_fits(rule: &Rule, end: &Sequent, premise: u64, sequent: Option<&Sequent>) -> bool
    requires formed { IsFormedRule rule.now }
    requires premise { premise ≤ 1 }
    ensures { result ≡ fits rule.now end.now premise (option_copied sequent.entry) }
{
    match sequent {
        None => true,
        Some(sequent) => {
            side_fits(rule, premise, Side::Left, &sequent.left, &end.left)
                && side_fits(rule, premise, Side::Right, &sequent.right, &end.right)
        }
    }
}

// Whether each formula of a premise's side stands in the conclusion or is an auxiliary one.
fn side_fits(rule: &Rule, premise: u64, side: Side, formulas: &Formulas, end: &Formulas) -> bool
    requires formed { IsFormedRule rule.now }
    requires premise { premise ≤ 1 }
    ensures { result ≡ fits_side formulas.now end.now (aux rule.now premise side) }
{
    for formula in formulas.as_slice() {
        if !end.has(formula) && !is_auxiliary(rule, premise, side, formula) {
            return false;
        }
    }
    true
}
