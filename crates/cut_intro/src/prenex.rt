//! Formulas that are weak quantifiers over a formula without quantifiers.
ghost use Rattle.std.specs.Prelude.{◌≡◌, not as negated, option_copied, IfOk, IfSome};
ghost use Rattle.std.specs.List.{find};
ghost use Rattle.fol.specs.Formed.{IsFormed};
ghost use Rattle.herbrand_laws.specs.Herbrand.{is_prenex as is_prenex_on};
ghost use Rattle.introduction_laws.specs.Instancing.{first_not_prenex as first_outside};

use fol::{Formula, FormulaNode};
use lk_rules::{Sequent, Side};
use prop_search::has_quantifier;
use std::alloc::AllocError;

// Whether the formula is zero or more weak quantifiers over one without quantifiers and without predicate symbols that have a body.
fn is_prenex(side: Side, formula: &Formula) -> bool
    ensures { result ≡ is_prenex_on side formula.now }
{
    match (side, formula.node()) {
        (Side::Left, FormulaNode::All(body)) | (Side::Right, FormulaNode::Ex(body)) => {
            is_prenex(side, body)
        }
        _ => !has_quantifier(formula) && !formula.has_body(),
    }
}

// The first formula of a list that isn't of that kind.
fn first_other(side: Side, formulas: &[Formula]) -> Option<&Formula>
    ensures { option_copied result ≡ find (λ f. negated (is_prenex_on side f)) formulas.now }
{
    formulas.iter().find(|formula| !is_prenex(side, formula))
}

/// The first formula of the sequent, left before right, that isn't weak quantifiers over a formula without quantifiers and without
/// predicate symbols that have a body, with its side.
pub(crate) fn first_not_prenex(sequent: &Sequent) -> Result<Option<(Formula, Side)>, AllocError>
    ensures first { IfOk result (λ o. o ≡ first_outside sequent.now) }
    ensures formed { IfOk result (λ o. IfSome o (λ p. IsFormed p.0)) }
{
    if let Some(formula) = first_other(Side::Left, sequent.left()) {
        return Ok(Some((formula.copy()?, Side::Left)));
    }
    match first_other(Side::Right, sequent.right()) {
        Some(formula) => Ok(Some((formula.copy()?, Side::Right))),
        None => Ok(None),
    }
}
