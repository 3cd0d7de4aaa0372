//! The interpolations of inferences without premises.
ghost use Rattle.std.specs.Prelude.{true, false, IfOk};
ghost use Rattle.finite.specs.Finite as set;
ghost use Rattle.lk_rules.specs.declared.sequent.Side.TheVariants.{Left, Right};
ghost use Rattle.lk_rules.specs.declared.rule.Rule.TheVariants.{Ax};
ghost use Rattle.lk_rules.specs.Sequents.{adds_to};
ghost use Rattle.proof_trees.specs.Trees.{node, none};
ghost use Rattle.interp_laws.specs.Interpolation.{at_leaf, at_axiom};
ghost use Rattle.arena_cells.specs.Standing.{Extends, HasTree, formula_at, sequent_at, IsFormulaAt, IsSequentAt};
ghost use Rattle.arena_cells.specs.Meaning.{rule_at, HasRuleParts};
ghost use Rattle.arena_interp.specs.Partitions.{HasInterpolation};

use crate::by_side::{constant, constant_rule};
use crate::endings::{Ending, conclude, conclude_on, infer_with};
use crate::interpolated::Interpolated;
use arena::{Arena, Key, Parts, RuleKey};
use lk_rules::Side;
use std::alloc::{AllocError, Global};

/// The interpolation of an inference without premises whose main formula is of that part: by a constant that proves the other part.
pub(crate) fn leaf(
    arena: &mut Arena,
    alloc: Global,
    side: Side,
    rule: RuleKey,
    one: u32,
    two: u32,
) -> Result<Interpolated, AllocError>
    requires rule { HasRuleParts arena.old rule }
    requires one { IsSequentAt arena.old one }
    requires two { IsSequentAt arena.old two }
    ensures made { IfOk result (HasInterpolation arena.new (at_leaf side (rule_at arena.old rule) (sequent_at arena.old one) (sequent_at arena.old two))) }
    ensures grown { Extends arena.old arena.new }
{
    let formula = arena.put(alloc, constant(side))?;
    let own = Ending {
        rule,
        premises: Parts::Zero,
    };
    let other = Ending {
        rule: constant_rule(side),
        premises: Parts::Zero,
    };
    conclude_on(arena, alloc, side, one, two, formula, own, other)
}

// An axiom whose formula is on the left of the first part and on the right of the second: the formula itself.
fn between(
    arena: &mut Arena,
    alloc: Global,
    formula: u32,
    one: u32,
    two: u32,
) -> Result<Interpolated, AllocError>
    requires formula { IsFormulaAt arena.old formula }
    requires one { IsSequentAt arena.old one }
    requires two { IsSequentAt arena.old two }
    ensures made { IfOk result (HasInterpolation arena.new (at_axiom (formula_at arena.old formula) (sequent_at arena.old one) (sequent_at arena.old two) true false)) }
    ensures grown { Extends arena.old arena.new }
{
    let axiom = Ending {
        rule: RuleKey::Ax(formula),
        premises: Parts::Zero,
    };
    conclude(arena, alloc, one, two, formula, axiom, axiom)
}

// The axioms above the rules for a negation: of the first part with its formula on the left, and of the second with it on the right.
fn axioms_above(
    arena: &mut Arena,
    alloc: Global,
    formula: u32,
    one: u32,
    two: u32,
) -> Result<(u32, u32), AllocError>
    requires formula { IsFormulaAt arena.old formula }
    requires one { IsSequentAt arena.old one }
    requires two { IsSequentAt arena.old two }
    ensures first { IfOk result (λ made. HasTree arena.new made.0 (node (Ax (formula_at arena.old formula)) (adds_to (sequent_at arena.old one) Left (formula_at arena.old formula)) none)) }
    ensures second { IfOk result (λ made. HasTree arena.new made.1 (node (Ax (formula_at arena.old formula)) (adds_to (sequent_at arena.old two) Right (formula_at arena.old formula)) none)) }
    ensures grown { Extends arena.old arena.new }
{
    let axiom = Ending {
        rule: RuleKey::Ax(formula),
        premises: Parts::Zero,
    };
    let first = infer_with(arena, alloc, one, Side::Left, formula, axiom)?;
    let second = infer_with(arena, alloc, two, Side::Right, formula, axiom)?;
    Ok((first, second))
}

// An axiom whose formula is on the left of the second part and on the right of the first: its negation.
fn across(
    arena: &mut Arena,
    alloc: Global,
    formula: u32,
    one: u32,
    two: u32,
) -> Result<Interpolated, AllocError>
    requires formula { IsFormulaAt arena.old formula }
    requires one { IsSequentAt arena.old one }
    requires two { IsSequentAt arena.old two }
    ensures made { IfOk result (HasInterpolation arena.new (at_axiom (formula_at arena.old formula) (sequent_at arena.old one) (sequent_at arena.old two) false true)) }
    ensures grown { Extends arena.old arena.new }
{
    let (left, right) = axioms_above(arena, alloc, formula, one, two)?;
    let negation = arena.put(alloc, Key::Not(formula))?;
    let first = Ending {
        rule: RuleKey::NegR(negation),
        premises: Parts::One(left),
    };
    let second = Ending {
        rule: RuleKey::NegL(negation),
        premises: Parts::One(right),
    };
    conclude(arena, alloc, one, two, negation, first, second)
}

/// The interpolation of an axiom on the formula, by whether that is on the left and on the right of the first part.
pub(crate) fn axiom(
    arena: &mut Arena,
    alloc: Global,
    formula: u32,
    one: u32,
    two: u32,
) -> Result<Interpolated, AllocError>
    requires formula { IsFormulaAt arena.old formula }
    requires one { IsSequentAt arena.old one }
    requires two { IsSequentAt arena.old two }
    ensures made { let f = formula_at arena.old formula in let s = sequent_at arena.old one in IfOk result (HasInterpolation arena.new (at_axiom f s (sequent_at arena.old two) (set.has s.left f) (set.has s.right f))) }
    ensures grown { Extends arena.old arena.new }
{
    let left = arena.sequent_has(one, Side::Left, formula);
    let right = arena.sequent_has(one, Side::Right, formula);
    match (left, right) {
        (true, true) => leaf(arena, alloc, Side::Right, RuleKey::Ax(formula), one, two),
        (false, false) => leaf(arena, alloc, Side::Left, RuleKey::Ax(formula), one, two),
        (true, false) => between(arena, alloc, formula, one, two),
        (false, true) => across(arena, alloc, formula, one, two),
    }
}
