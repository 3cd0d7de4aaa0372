//! Cuts above the last rule of one of their premises.
ghost use Rattle.std.specs.Prelude.{◌≡◌, ◌<◌, IfOk};
ghost use Rattle.proof_trees.specs.Trees.{IsValid};
ghost use Rattle.cut_laws.specs.Contraction.{with_aux as with_auxiliary, opposite, premise_on as premise_tree, cut_on as cut_tree_on, cuts_on};
ghost use Rattle.arena_cells.specs.Standing.{Extends, HasTree, sequent_at, formula_at, tree_at, IsSequentAt, IsFormulaAt, IsTreeAt};
ghost use Rattle.arena_cells.specs.Meaning.{rule_at, trees_at, HasRuleParts, HasPremises};
ghost use Rattle.arena_cuts.specs.CutNumbers.{IsCutAt, above_at};

use crate::cut::{Cut, premise_on, with_premise};
use arena::{Arena, Parts, RuleKey};
use arena_proofs::{inference, with_aux};
use arena_subst::{Moved, moved_to};
use lk_rules::Side;
use std::alloc::{AllocError, Global};

// A premise of the rule, the first (0) or the second (1), with its cut.
#[tactic(auto, using(arena_cells::proofs::Facts::sequents))]
fn cut_premise(
    arena: &mut Arena,
    alloc: Global,
    cut: Cut,
    side: Side,
    rule: RuleKey,
    place: u64,
    proof: u32,
) -> Result<u32, AllocError>
    requires cut { IsCutAt arena.old cut }
    requires rule { HasRuleParts arena.old rule }
    requires place { place < 2 }
    requires proof { IsTreeAt arena.old proof }
    ensures tree { IfOk result (λ n. HasTree arena.new n (cut_tree_on side (with_auxiliary (sequent_at arena.old cut.end) (rule_at arena.old rule) place) (formula_at arena.old cut.formula) (tree_at arena.old proof) (premise_tree (opposite side) (tree_at arena.old cut.left) (tree_at arena.old cut.right)))) }
    ensures grown { Extends arena.old arena.new }
{
    let end = with_aux(arena, alloc, cut.end, rule, place)?;
    with_premise(arena, alloc, cut, side, end, proof)
}

// The premises of the rule, each with its cut.
#[tactic(auto, using(arena_cells::proofs::Facts::trees))]
fn cuts_above(
    arena: &mut Arena,
    alloc: Global,
    cut: Cut,
    side: Side,
    rule: RuleKey,
    proofs: Parts,
) -> Result<Parts, AllocError>
    requires cut { IsCutAt arena.old cut }
    requires rule { HasRuleParts arena.old rule }
    requires proofs { HasPremises arena.old proofs }
    ensures there { IfOk result (HasPremises arena.new) }
    ensures trees { IfOk result (λ made. trees_at arena.new made ≡ cuts_on side (sequent_at arena.old cut.end) (formula_at arena.old cut.formula) (rule_at arena.old rule) 0 (trees_at arena.old proofs) (premise_tree (opposite side) (tree_at arena.old cut.left) (tree_at arena.old cut.right))) }
    ensures grown { Extends arena.old arena.new }
{
    Ok(match proofs {
        Parts::Zero => Parts::Zero,
        Parts::One(only) => Parts::One(cut_premise(arena, alloc, cut, side, rule, 0, only)?),
        Parts::Two(first, second) => {
            let first = cut_premise(arena, alloc, cut, side, rule, 0, first)?;
            Parts::Two(
                first,
                cut_premise(arena, alloc, cut, side, rule, 1, second)?,
            )
        }
    })
}

/// The last rule of the premise of the cut that has the cut formula on that side, at the conclusion `end`, above it the cuts. An
/// eigenvariable that is free in `end` becomes a fresh one.
pub(crate) fn above(
    arena: &mut Arena,
    alloc: Global,
    end: u32,
    cut: Cut,
    side: Side,
) -> Result<u32, AllocError>
    requires end { IsSequentAt arena.old end }
    requires cut { IsCutAt arena.old cut }
    requires left_valid { IsValid (tree_at arena.old cut.left) }
    requires right_valid { IsValid (tree_at arena.old cut.right) }
    ensures tree { IfOk result (λ n. HasTree arena.new n (above_at arena.old (sequent_at arena.old end) cut side)) }
    ensures grown { Extends arena.old arena.new }
{
    let premise = premise_on(arena, cut, side);
    let Moved { rule, premises } = moved_to(arena, alloc, end, premise)?;
    let cuts = cuts_above(arena, alloc, cut, side, rule, premises)?;
    inference(arena, alloc, rule, end, cuts)
}
