//! Formulas with quantifiers.
ghost use Rattle.std.specs.Prelude.{◌≡◌, ◌↔◌, IsTrue};
ghost use Rattle.std.specs.List.{list_any};
ghost use Rattle.search_laws.specs.Truth.{has_quantifier as is_quantified, IsPropositional};

use fol::{Formula, FormulaNode};
use lk_rules::Sequent;

/// Whether the formula has a quantifier.
pub fn has_quantifier(formula: &Formula) -> bool
    ensures { result ≡ is_quantified formula.now }
{
    match formula.node() {
        FormulaNode::Atom(..) | FormulaNode::Top | FormulaNode::Bot => false,
        FormulaNode::Not(body) => has_quantifier(body),
        FormulaNode::And(first, second)
        | FormulaNode::Or(first, second)
        | FormulaNode::Imp(first, second) => has_quantifier(first) || has_quantifier(second),
        FormulaNode::All(_) | FormulaNode::Ex(_) => true,
    }
}

// Whether a formula of the list has a quantifier.
fn is_some_quantified(formulas: &[Formula]) -> bool
    ensures { result ≡ list_any is_quantified formulas.now }
{
    formulas.iter().any(|formula| has_quantifier(formula))
}

/// Whether no formula of the sequent has a quantifier, as `decide` and `search` ask.
pub fn is_propositional(sequent: &Sequent) -> bool
    ensures { IsTrue result ↔ IsPropositional sequent.now }
{
    let left = is_some_quantified(sequent.left());
    let right = is_some_quantified(sequent.right());
    !left && !right
}
