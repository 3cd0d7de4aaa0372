//! The interpolations of inferences with one premise.
ghost use Rattle.std.specs.Prelude.{IfOk};
ghost use Rattle.interp_laws.specs.Interpolation.{inferred, over_one as interpolation_over_one};
ghost use Rattle.arena_cells.specs.Standing.{Extends, sequent_at, IsSequentAt};
ghost use Rattle.arena_cells.specs.Meaning.{rule_at, HasRuleParts};
ghost use Rattle.arena_interp.specs.Partitions.{IsInterpolatedAt, interpolation_at, HasInterpolation};

use crate::by_side::part_at;
use crate::closing::close;
use crate::endings::{Ending, infer_with};
use crate::interpolated::Interpolated;
use arena::{Arena, Parts, RuleKey};
use arena_proofs::rule_term;
use lk_rules::Side;
use std::alloc::{AllocError, Global};

// The rule at the root of the proof of its part.
fn infer(
    arena: &mut Arena,
    alloc: Global,
    side: Side,
    rule: RuleKey,
    one: u32,
    two: u32,
    made: Interpolated,
) -> Result<Interpolated, AllocError>
    requires rule { HasRuleParts arena.old rule }
    requires one { IsSequentAt arena.old one }
    requires two { IsSequentAt arena.old two }
    requires made { IsInterpolatedAt arena.old made }
    ensures made { IfOk result (HasInterpolation arena.new (inferred side (rule_at arena.old rule) (sequent_at arena.old one) (sequent_at arena.old two) (interpolation_at arena.old made))) }
    ensures grown { Extends arena.old arena.new }
{
    let part = part_at(side, one, two);
    let premises = Parts::One(made.proof(side));
    let ending = Ending { rule, premises };
    let proof = infer_with(arena, alloc, part, side, made.formula, ending)?;
    Ok(made.with_proof(side, proof))
}

/// The interpolation of an inference with one premise whose main formula is of that part, by that of the premise. Where the rule puts a
/// term for a quantifier's variable, the variables that came with the term are quantified.
pub(crate) fn over_one(
    arena: &mut Arena,
    alloc: Global,
    side: Side,
    rule: RuleKey,
    one: u32,
    two: u32,
    made: Interpolated,
) -> Result<Interpolated, AllocError>
    requires rule { HasRuleParts arena.old rule }
    requires one { IsSequentAt arena.old one }
    requires two { IsSequentAt arena.old two }
    requires made { IsInterpolatedAt arena.old made }
    ensures made { IfOk result (HasInterpolation arena.new (interpolation_over_one side (rule_at arena.old rule) (sequent_at arena.old one) (sequent_at arena.old two) (interpolation_at arena.old made))) }
    ensures grown { Extends arena.old arena.new }
{
    let lower = infer(arena, alloc, side, rule, one, two, made)?;
    match rule_term(rule) {
        Some(_) => close(arena, alloc, side, one, two, made.formula, lower),
        None => Ok(lower),
    }
}
