//! The interpolations of inferences with two premises.
ghost use Rattle.std.specs.Prelude.{IfOk};
ghost use Rattle.interp_laws.specs.Interpolation.{both_over, joined};
ghost use Rattle.arena_cells.specs.Standing.{Extends, HasTree, sequent_at, formula_at, IsSequentAt, IsFormulaAt};
ghost use Rattle.arena_cells.specs.Meaning.{rule_at, HasRuleParts};
ghost use Rattle.arena_interp.specs.Partitions.{IsInterpolatedAt, interpolation_at, HasInterpolation};

use crate::by_side::{connective, connective_rules, part_at};
use crate::endings::{Ending, conclude_on, infer_with};
use crate::interpolated::Interpolated;
use arena::{Arena, Parts, RuleKey};
use lk_rules::Side;
use std::alloc::{AllocError, Global};

// A proof by the rule from two others, of the sequent with both interpolants.
fn infer_both(
    arena: &mut Arena,
    alloc: Global,
    side: Side,
    rule: RuleKey,
    sequent: u32,
    left: Interpolated,
    right: Interpolated,
) -> Result<u32, AllocError>
    requires rule { HasRuleParts arena.old rule }
    requires sequent { IsSequentAt arena.old sequent }
    requires left { IsInterpolatedAt arena.old left }
    requires right { IsInterpolatedAt arena.old right }
    ensures tree { IfOk result (λ n. HasTree arena.new n (both_over side (rule_at arena.old rule) (sequent_at arena.old sequent) (interpolation_at arena.old left) (interpolation_at arena.old right))) }
    ensures grown { Extends arena.old arena.new }
{
    let premises = Parts::Two(left.proof(side), right.proof(side));
    let end = arena.sequent_with(alloc, sequent, side, left.formula)?;
    infer_with(
        arena,
        alloc,
        end,
        side,
        right.formula,
        Ending { rule, premises },
    )
}

/// The interpolation of an inference with two premises whose main formula is of that part, by those of the premises: the rule stands in the
/// proof of its part, with both interpolants.
pub(crate) fn join(
    arena: &mut Arena,
    alloc: Global,
    side: Side,
    rule: RuleKey,
    one: u32,
    two: u32,
    left: Interpolated,
    right: Interpolated,
) -> Result<Interpolated, AllocError>
    requires rule { HasRuleParts arena.old rule }
    requires one { IsSequentAt arena.old one }
    requires two { IsSequentAt arena.old two }
    requires left { IsInterpolatedAt arena.old left }
    requires right { IsInterpolatedAt arena.old right }
    ensures made { IfOk result (HasInterpolation arena.new (joined side (rule_at arena.old rule) (sequent_at arena.old one) (sequent_at arena.old two) (interpolation_at arena.old left) (interpolation_at arena.old right))) }
    ensures grown { Extends arena.old arena.new }
{
    let part = part_at(side, one, two);
    let above = infer_both(arena, alloc, side, rule, part, left, right)?;
    let formula = arena.put(alloc, connective(side, left.formula, right.formula))?;
    let (rule, other_rule) = connective_rules(side, formula);
    let own = Ending {
        rule,
        premises: Parts::One(above),
    };
    let other = Ending {
        rule: other_rule,
        premises: Parts::Two(left.other_proof(side), right.other_proof(side)),
    };
    conclude_on(arena, alloc, side, one, two, formula, own, other)
}
