//! The last inferences of the two proofs of an interpolation.
ghost use Rattle.std.specs.Prelude.{IfOk};
ghost use Rattle.arena_cells.specs.Standing.{Extends, HasTree, formula_at, sequent_at, IsFormulaAt, IsSequentAt};
ghost use Rattle.arena_interp.specs.Endings.{IsEndingAt, ended, concluded, concluded_on};
ghost use Rattle.arena_interp.specs.Partitions.{HasInterpolation};

use crate::interpolated::Interpolated;
use arena::{Arena, Parts, RuleKey};
use arena_proofs::inference;
use lk_rules::Side;
use std::alloc::{AllocError, Global};

/// The last inference of a proof, but for its conclusion: its rule and its premises.
#[derive(Clone, Copy)]
pub(crate) struct Ending {
    pub rule: RuleKey,
    pub premises: Parts,
}

/// The inference whose conclusion is the sequent with the formula on that side too.
pub(crate) fn infer_with(
    arena: &mut Arena,
    alloc: Global,
    sequent: u32,
    side: Side,
    formula: u32,
    ending: Ending,
) -> Result<u32, AllocError>
    requires sequent { IsSequentAt arena.old sequent }
    requires formula { IsFormulaAt arena.old formula }
    requires ending { IsEndingAt arena.old ending }
    ensures tree { IfOk result (λ n. HasTree arena.new n (ended arena.old ending (sequent_at arena.old sequent) side (formula_at arena.old formula))) }
    ensures grown { Extends arena.old arena.new }
{
    let end = arena.sequent_with(alloc, sequent, side, formula)?;
    inference(arena, alloc, ending.rule, end, ending.premises)
}

/// The interpolation whose proofs have these last inferences.
pub(crate) fn conclude(
    arena: &mut Arena,
    alloc: Global,
    one: u32,
    two: u32,
    formula: u32,
    first: Ending,
    second: Ending,
) -> Result<Interpolated, AllocError>
    requires one { IsSequentAt arena.old one }
    requires two { IsSequentAt arena.old two }
    requires formula { IsFormulaAt arena.old formula }
    requires first { IsEndingAt arena.old first }
    requires second { IsEndingAt arena.old second }
    ensures made { IfOk result (HasInterpolation arena.new (concluded arena.old (sequent_at arena.old one) (sequent_at arena.old two) (formula_at arena.old formula) first second)) }
    ensures grown { Extends arena.old arena.new }
{
    let first = infer_with(arena, alloc, one, Side::Right, formula, first)?;
    let second = infer_with(arena, alloc, two, Side::Left, formula, second)?;
    Ok(Interpolated {
        formula,
        first,
        second,
    })
}

/// The same by sides: the first of these last inferences is that of the proof in which the interpolant stands on that side.
pub(crate) fn conclude_on(
    arena: &mut Arena,
    alloc: Global,
    side: Side,
    one: u32,
    two: u32,
    formula: u32,
    own: Ending,
    other: Ending,
) -> Result<Interpolated, AllocError>
    requires one { IsSequentAt arena.old one }
    requires two { IsSequentAt arena.old two }
    requires formula { IsFormulaAt arena.old formula }
    requires own { IsEndingAt arena.old own }
    requires other { IsEndingAt arena.old other }
    ensures made { IfOk result (HasInterpolation arena.new (concluded_on arena.old side (sequent_at arena.old one) (sequent_at arena.old two) (formula_at arena.old formula) own other)) }
    ensures grown { Extends arena.old arena.new }
{
    match side {
        Side::Right => conclude(arena, alloc, one, two, formula, own, other),
        Side::Left => conclude(arena, alloc, one, two, formula, other, own),
    }
}
