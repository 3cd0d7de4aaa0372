//! Cuts by the numbers of their parts.
ghost use Rattle.std.specs.Prelude.{◌≡◌, IfOk};
ghost use Rattle.cut_laws.specs.Contraction.{cut as cut_tree, opposite, premise_on as premise_tree, cut_on as cut_tree_on};
ghost use Rattle.arena_cells.specs.Standing.{Extends, HasTree, sequent_at, formula_at, tree_at, IsSequentAt, IsFormulaAt, IsTreeAt};
ghost use Rattle.arena_cuts.specs.CutNumbers.{IsCutAt, cut_at};

use arena::{Arena, Parts, RuleKey};
use arena_proofs::inference;
use lk_rules::Side;
use std::alloc::{AllocError, Global};

/// A cut by the numbers of its parts: the conclusion, the cut formula, and the premises, of which the left one has the formula on the right
/// side and the right one on the left side.
#[derive(Clone, Copy)]
pub(crate) struct Cut {
    pub end: u32,
    pub formula: u32,
    pub left: u32,
    pub right: u32,
}

/// The premise of the cut that has the cut formula on that side.
pub(crate) fn premise_on(arena: &Arena, cut: Cut, side: Side) -> u32
    requires { IsCutAt arena.now cut }
    ensures there { IsTreeAt arena.now result }
    ensures tree { tree_at arena.now result ≡ premise_tree side (tree_at arena.now cut.left) (tree_at arena.now cut.right) }
{
    let _arena = arena;
    match side {
        Side::Left => cut.right,
        Side::Right => cut.left,
    }
}

/// Puts a cut into the arena.
pub(crate) fn put_cut(arena: &mut Arena, alloc: Global, cut: Cut) -> Result<u32, AllocError>
    requires { IsCutAt arena.old cut }
    ensures tree { IfOk result (λ n. HasTree arena.new n (cut_at arena.old cut)) }
    ensures grown { Extends arena.old arena.new }
{
    let premises = Parts::Two(cut.left, cut.right);
    inference(arena, alloc, RuleKey::Cut(cut.formula), cut.end, premises)
}

/// Puts a cut over the proof, which has the cut formula on that side, and the other one into the arena.
pub(crate) fn cut_on(
    arena: &mut Arena,
    alloc: Global,
    side: Side,
    end: u32,
    formula: u32,
    proof: u32,
    other: u32,
) -> Result<u32, AllocError>
    requires end { IsSequentAt arena.old end }
    requires formula { IsFormulaAt arena.old formula }
    requires proof { IsTreeAt arena.old proof }
    requires other { IsTreeAt arena.old other }
    ensures tree { IfOk result (λ n. HasTree arena.new n (cut_tree_on side (sequent_at arena.old end) (formula_at arena.old formula) (tree_at arena.old proof) (tree_at arena.old other))) }
    ensures grown { Extends arena.old arena.new }
{
    let (left, right) = match side {
        Side::Left => (other, proof),
        Side::Right => (proof, other),
    };
    let cut = Cut {
        end,
        formula,
        left,
        right,
    };
    put_cut(arena, alloc, cut)
}

/// Puts the cut at the conclusion `end` into the arena, with the proof in place of its premise that has the cut formula on that side.
pub(crate) fn with_premise(
    arena: &mut Arena,
    alloc: Global,
    cut: Cut,
    side: Side,
    end: u32,
    proof: u32,
) -> Result<u32, AllocError>
    requires cut { IsCutAt arena.old cut }
    requires end { IsSequentAt arena.old end }
    requires proof { IsTreeAt arena.old proof }
    ensures tree { IfOk result (λ n. HasTree arena.new n (cut_tree_on side (sequent_at arena.old end) (formula_at arena.old cut.formula) (tree_at arena.old proof) (premise_tree (opposite side) (tree_at arena.old cut.left) (tree_at arena.old cut.right)))) }
    ensures grown { Extends arena.old arena.new }
{
    let (left, right) = match side {
        Side::Left => (cut.left, proof),
        Side::Right => (proof, cut.right),
    };
    let lower = Cut {
        end,
        formula: cut.formula,
        left,
        right,
    };
    put_cut(arena, alloc, lower)
}
