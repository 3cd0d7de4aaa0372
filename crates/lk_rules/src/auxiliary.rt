//! The auxiliary formulas of a premise.
ghost use Rattle.std.specs.Prelude.{◌≡◌, ◌<◌, true, IsSome, IfOk};
ghost use Rattle.fol.specs.Syntax.{free};
ghost use Rattle.fol.specs.Formed.{IsFormed, IsFormedVar};
ghost use Rattle.substitution.specs.Instance.{inst, IsOpenBody};
ghost use Rattle.lk_rules.specs.Rules.{IsFormedRule, is_unfolding_rule, has_shape, needs, aux as auxiliary_formulas};
ghost use Rattle.lk_rules.specs.RuleOrder.{term_of, variable_of};
ghost use Rattle.lk_rules.specs.Sequents.{empty as empty_sequent, adds_to, extended};

use crate::rule::Rule;
use crate::sequent::{Sequent, Side};
use fol::{Formula, FormulaNode, Term, Var};
use std::alloc::{AllocError, Global};
use substitution::{instance, unfold};

/// The auxiliary formulas of a premise, counted from 0, as a sequent: what stands in the premise in place of the main formula.
pub fn aux(alloc: Global, rule: &Rule, premise: u64) -> Result<Sequent, AllocError>
    requires formed { IsFormedRule rule.now }
    requires shape { has_shape rule.now ≡ true }
    requires premise { premise < needs rule.now }
    ensures { IfOk result (λ sequent. sequent ≡ extended empty_sequent (auxiliary_formulas rule.now premise)) }
{
    match rule {
        Rule::NegL(main) => match main.node() {
            FormulaNode::Not(a) => one(alloc, Side::Right, a),
            _ => Ok(Sequent::empty(alloc)),
        },
        Rule::NegR(main) => match main.node() {
            FormulaNode::Not(a) => one(alloc, Side::Left, a),
            _ => Ok(Sequent::empty(alloc)),
        },
        Rule::AndL(main) => match main.node() {
            FormulaNode::And(a, b) => two(alloc, Side::Left, a, Side::Left, b),
            _ => Ok(Sequent::empty(alloc)),
        },
        Rule::OrR(main) => match main.node() {
            FormulaNode::Or(a, b) => two(alloc, Side::Right, a, Side::Right, b),
            _ => Ok(Sequent::empty(alloc)),
        },
        Rule::ImpR(main) => match main.node() {
            FormulaNode::Imp(a, b) => two(alloc, Side::Left, a, Side::Right, b),
            _ => Ok(Sequent::empty(alloc)),
        },
        Rule::AllL(..) | Rule::ExR(..) => term_aux(alloc, rule),
        Rule::AllR(..) | Rule::ExL(..) => eigenvariable_aux(alloc, rule),
        Rule::DefL(_) | Rule::DefR(_) => unfolding_aux(alloc, rule),
        Rule::AndR(_) | Rule::OrL(_) | Rule::ImpL(_) | Rule::Cut(_) => {
            branch_aux(alloc, rule, premise)
        }
        Rule::Ax(_) | Rule::TopR | Rule::BotL | Rule::Weak => Ok(Sequent::empty(alloc)),
    }
}

// The auxiliary formulas of a premise, by a rule with two premises.
fn branch_aux(alloc: Global, rule: &Rule, premise: u64) -> Result<Sequent, AllocError>
    requires formed { IsFormedRule rule.now }
    requires branches { needs rule.now ≡ 2 }
    ensures { IfOk result (λ sequent. sequent ≡ extended empty_sequent (auxiliary_formulas rule.now premise)) }
{
    match (rule, premise) {
        (Rule::AndR(main), 0) => match main.node() {
            FormulaNode::And(a, _) => one(alloc, Side::Right, a),
            _ => Ok(Sequent::empty(alloc)),
        },
        (Rule::AndR(main), 1) => match main.node() {
            FormulaNode::And(_, b) => one(alloc, Side::Right, b),
            _ => Ok(Sequent::empty(alloc)),
        },
        (Rule::OrL(main), 0) => match main.node() {
            FormulaNode::Or(a, _) => one(alloc, Side::Left, a),
            _ => Ok(Sequent::empty(alloc)),
        },
        (Rule::OrL(main), 1) => match main.node() {
            FormulaNode::Or(_, b) => one(alloc, Side::Left, b),
            _ => Ok(Sequent::empty(alloc)),
        },
        (Rule::ImpL(main), 0) => match main.node() {
            FormulaNode::Imp(a, _) => one(alloc, Side::Right, a),
            _ => Ok(Sequent::empty(alloc)),
        },
        (Rule::ImpL(main), 1) => match main.node() {
            FormulaNode::Imp(_, b) => one(alloc, Side::Left, b),
            _ => Ok(Sequent::empty(alloc)),
        },
        (Rule::Cut(cut), 0) => one(alloc, Side::Right, cut),
        (Rule::Cut(cut), 1) => one(alloc, Side::Left, cut),
        _ => Ok(Sequent::empty(alloc)),
    }
}

// The auxiliary formulas of the premise, by a rule that instantiates a quantifier by a term.
fn term_aux(alloc: Global, rule: &Rule) -> Result<Sequent, AllocError>
    requires formed { IsFormedRule rule.now }
    requires instantiates { IsSome (term_of rule.now) }
    ensures { IfOk result (λ sequent. sequent ≡ extended empty_sequent (auxiliary_formulas rule.now 0)) }
{
    match rule {
        Rule::AllL(main, term) => match main.node() {
            FormulaNode::All(body) => one(alloc, Side::Left, &instance(alloc, body, term)?),
            _ => Ok(Sequent::empty(alloc)),
        },
        Rule::ExR(main, term) => match main.node() {
            FormulaNode::Ex(body) => one(alloc, Side::Right, &instance(alloc, body, term)?),
            _ => Ok(Sequent::empty(alloc)),
        },
        _ => Ok(Sequent::empty(alloc)),
    }
}

// The auxiliary formulas of the premise, by a rule that instantiates a quantifier by an eigenvariable.
fn eigenvariable_aux(alloc: Global, rule: &Rule) -> Result<Sequent, AllocError>
    requires formed { IsFormedRule rule.now }
    requires instantiates { IsSome (variable_of rule.now) }
    ensures { IfOk result (λ sequent. sequent ≡ extended empty_sequent (auxiliary_formulas rule.now 0)) }
{
    match rule {
        Rule::AllR(main, variable) => match main.node() {
            FormulaNode::All(body) => one(
                alloc,
                Side::Right,
                &variable_instance(alloc, body, variable)?,
            ),
            _ => Ok(Sequent::empty(alloc)),
        },
        Rule::ExL(main, variable) => match main.node() {
            FormulaNode::Ex(body) => one(
                alloc,
                Side::Left,
                &variable_instance(alloc, body, variable)?,
            ),
            _ => Ok(Sequent::empty(alloc)),
        },
        _ => Ok(Sequent::empty(alloc)),
    }
}

// The auxiliary formulas of the premise, by a rule that unfolds an atom.
fn unfolding_aux(alloc: Global, rule: &Rule) -> Result<Sequent, AllocError>
    requires formed { IsFormedRule rule.now }
    requires unfolds { is_unfolding_rule rule.now ≡ true }
    ensures { IfOk result (λ sequent. sequent ≡ extended empty_sequent (auxiliary_formulas rule.now 0)) }
{
    match rule {
        Rule::DefL(main) => match unfold(alloc, main)? {
            Some(unfolding) => one(alloc, Side::Left, &unfolding),
            None => Ok(Sequent::empty(alloc)),
        },
        Rule::DefR(main) => match unfold(alloc, main)? {
            Some(unfolding) => one(alloc, Side::Right, &unfolding),
            None => Ok(Sequent::empty(alloc)),
        },
        _ => Ok(Sequent::empty(alloc)),
    }
}

// The instance of the body by the variable.
fn variable_instance(alloc: Global, body: &Formula, variable: &Var) -> Result<Formula, AllocError>
    requires body { IsOpenBody body.now }
    requires variable { IsFormedVar variable.now }
    ensures value { IfOk result (λ f. f ≡ inst body.now (free variable.now)) }
    ensures formed { IfOk result IsFormed }
{
    let term = Term::free(alloc, variable.copy()?)?;
    instance(alloc, body, &term)
}

// The sequent of one formula.
fn one(alloc: Global, side: Side, formula: &Formula) -> Result<Sequent, AllocError>
    requires { IsFormed formula.now }
    ensures { IfOk result (λ sequent. sequent ≡ adds_to empty_sequent side formula.now) }
{
    let mut sequent = Sequent::empty(alloc);
    sequent.add(side, formula.copy()?)?;
    Ok(sequent)
}

// The sequent of two formulas.
fn two(
    alloc: Global,
    side: Side,
    formula: &Formula,
    other_side: Side,
    other: &Formula,
) -> Result<Sequent, AllocError>
    requires formula { IsFormed formula.now }
    requires other { IsFormed other.now }
    ensures { IfOk result (λ sequent. sequent ≡ adds_to (adds_to empty_sequent side formula.now) other_side other.now) }
{
    let mut sequent = one(alloc, side, formula)?;
    sequent.add(other_side, other.copy()?)?;
    Ok(sequent)
}
