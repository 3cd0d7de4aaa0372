//! The grade of a formula.
ghost use Rattle.std.specs.Prelude.{◌≡◌, ◌-◌, ◌^◌, min};
ghost use Rattle.free_variables.specs.Grade.{grade_of, grade_of_pred};

use fol::{Formula, FormulaNode, Predicate};

/// The number of connectives and quantifiers, at most `u64::MAX`. An atom whose symbol has a body counts one and what is in the body.
#[cycle(grade)]
pub fn grade(formula: &Formula) -> u64
    ensures { result ≡ min (grade_of formula.now) (2 ^ 64 - 1) }
{
    match formula.node() {
        FormulaNode::Atom(predicate, _) => predicate_grade(predicate),
        FormulaNode::Top | FormulaNode::Bot => 0,
        FormulaNode::Not(body) | FormulaNode::All(body) | FormulaNode::Ex(body) => {
            grade(body).saturating_add(1)
        }
        FormulaNode::And(first, second)
        | FormulaNode::Or(first, second)
        | FormulaNode::Imp(first, second) => {
            grade(first).saturating_add(grade(second)).saturating_add(1)
        }
    }
}

#[cycle(grade)]
fn predicate_grade(predicate: &Predicate) -> u64
    ensures { result ≡ min (grade_of_pred predicate.now) (2 ^ 64 - 1) }
{
    match &predicate.body {
        None => 0,
        Some(definition) => grade(definition).saturating_add(1),
    }
}
