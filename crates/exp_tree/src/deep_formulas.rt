//! The formula without quantifiers that an expansion tree stands for.
ghost use Rattle.std.specs.Prelude.{◌≡◌, false, IfOk};
ghost use Rattle.fol.specs.Formed.{IsFormed};
ghost use Rattle.search_laws.specs.Truth.{has_quantifier};
ghost use Rattle.expansion_laws.specs.Expansions.{turn, nothing_on, joined as joined_on, deep as deep_of, deep_first};
ghost use Rattle.exp_tree.specs.Shown.{insts_of};

use crate::expansion::{Exp, ExpRoot, Inst};
use expansion_laws::laws;
use fol::Formula;
use lk_rules::Side;
use std::alloc::{AllocError, Global};

/// The other side.
pub fn other(side: Side) -> Side
    ensures { result ≡ turn side }
{
    match side {
        Side::Left => Side::Right,
        Side::Right => Side::Left,
    }
}

// What says nothing on a side.
fn nothing(alloc: Global, side: Side) -> Result<Formula, AllocError>
    ensures { IfOk result (λ f. f ≡ nothing_on side) }
{
    match side {
        Side::Left => Formula::top(alloc),
        Side::Right => Formula::bot(alloc),
    }
}

// Two instances together: both of them on the left, one of them on the right.
fn joined(alloc: Global, side: Side, first: Formula, second: Formula) -> Result<Formula, AllocError>
    ensures { IfOk result (λ f. f ≡ joined_on side first second) }
{
    match side {
        Side::Left => Formula::and(alloc, first, second),
        Side::Right => Formula::or(alloc, first, second),
    }
}

#[cycle(deep)]
fn deep_at(alloc: Global, exp: &Exp, side: Side) -> Result<Formula, AllocError>
    ensures { IfOk result (λ f. f ≡ deep_of side exp.now) }
{
    match exp.root() {
        ExpRoot::Wk(_) => nothing(alloc, side),
        ExpRoot::Leaf(formula) => formula.copy(),
        ExpRoot::Not(body) => Formula::not(alloc, deep_at(alloc, body, other(side))?),
        ExpRoot::And(first, second) => {
            let (first, second) = deep_both(alloc, first, side, second, side)?;
            Formula::and(alloc, first, second)
        }
        ExpRoot::Or(first, second) => {
            let (first, second) = deep_both(alloc, first, side, second, side)?;
            Formula::or(alloc, first, second)
        }
        ExpRoot::Imp(first, second) => {
            let (first, second) = deep_both(alloc, first, other(side), second, side)?;
            Formula::imp(alloc, first, second)
        }
        ExpRoot::Weak(_, instances) => deep_instances(alloc, instances, side),
        ExpRoot::Strong(_, _, child) => deep_at(alloc, child, side),
    }
}

// The formulas of two trees, each on a side of its own.
#[cycle(deep)]
fn deep_both(
    alloc: Global,
    first: &Exp,
    first_side: Side,
    second: &Exp,
    second_side: Side,
) -> Result<(Formula, Formula), AllocError>
    ensures { IfOk result (λ p. (p.0 ≡ deep_of first_side first.now) × (p.1 ≡ deep_of second_side second.now)) }
{
    let first = deep_at(alloc, first, first_side)?;
    let second = deep_at(alloc, second, second_side)?;
    Ok((first, second))
}

// The formulas of instances, joined in order and chained to the left.
#[cycle(deep)]
fn deep_instances(alloc: Global, instances: &[Inst], side: Side) -> Result<Formula, AllocError>
    ensures { IfOk result (λ f. f ≡ deep_first side (insts_of instances.now)) }
{
    match instances {
        [] => nothing(alloc, side),
        [first, rest @ ..] => {
            let mut front = deep_at(alloc, &first.child, side)?;
            for instance in rest {
                let next = deep_at(alloc, &instance.child, side)?;
                front = joined(alloc, side, front, next)?;
            }
            Ok(front)
        }
    }
}

/// The formula without quantifiers that the tree stands for on a side. A formula that is never used says nothing: it is truth on the left
/// and falsity on the right. The instances at a weak quantifier are joined by rising term and chained to the left.
#[tactic(auto, using(crate::proofs::DeepFormulas::deep_formed))]
pub fn deep(alloc: Global, exp: &Exp, side: Side) -> Result<Formula, AllocError>
    ensures value { IfOk result (λ f. f ≡ deep_of side exp.now) }
    ensures formed { IfOk result IsFormed }
    ensures unquantified { IfOk result (λ f. has_quantifier f ≡ false) }
{
    laws::deep_formulas();
    exp.known();
    deep_at(alloc, exp, side)
}
