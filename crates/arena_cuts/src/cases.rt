//! Which case of contraction a cut is.
ghost use Rattle.std.specs.Prelude.{◌≡◌, ◌&&◌, not as negated};
ghost use Rattle.std.specs.List.{list_any};
ghost use Rattle.std.specs.Ordering.{eq_by_cmp};
ghost use Rattle.fol.specs.Order.{formula_cmp};
ghost use Rattle.finite.specs.Finite as set;
ghost use Rattle.lk_rules.specs.Sequents.{side_of, is_subsequent};
ghost use Rattle.lk_rules.specs.Rules.{main as main_formulas};
ghost use Rattle.proof_trees.specs.Trees.{concl, below};
ghost use Rattle.cut_laws.specs.Contraction.{introduces as has_introduced, is_leaf as is_leaf_tree, has_above as stands_above, case_of};
ghost use Rattle.arena_cells.specs.Standing.{sequent_at, formula_at, tree_at, IsSequentAt, IsFormulaAt, IsTreeAt};
ghost use Rattle.arena_cells.specs.Meaning.{rule_at, HasRuleParts};
ghost use Rattle.arena_cuts.specs.CutNumbers.{IsCutAt};

use crate::cut::Cut;
use arena::{Arena, Parts, RuleKey};
use arena_proofs::{end, premises, rule};
use cut_laws::Case;
use fol::FormulaNode;
use lk_rules::Side;

// Whether the same formula stands at both numbers.
fn same_formula(arena: &Arena, first: u32, second: u32) -> bool
    requires first { IsFormulaAt arena.now first }
    requires second { IsFormulaAt arena.now second }
    ensures { result ≡ eq_by_cmp formula_cmp (formula_at arena.now first) (formula_at arena.now second) }
{
    arena.known();
    first == second
}

// Whether the formula is the main formula of the rule on that side.
fn is_main(arena: &Arena, rule: RuleKey, side: Side, formula: u32) -> bool
    requires rule { HasRuleParts arena.now rule }
    requires formula { IsFormulaAt arena.now formula }
    ensures { result ≡ list_any (eq_by_cmp formula_cmp (formula_at arena.now formula)) (main_formulas (rule_at arena.now rule) side) }
{
    match (rule, side) {
        (RuleKey::Ax(main), _) => same_formula(arena, formula, main),
        (RuleKey::TopR, Side::Right) => {
            matches!(arena.formula(formula).node(), FormulaNode::Top)
        }
        (RuleKey::BotL, Side::Left) => { matches!(arena.formula(formula).node(), FormulaNode::Bot) }
        (
            RuleKey::NegL(main)
            | RuleKey::AndL(main)
            | RuleKey::OrL(main)
            | RuleKey::ImpL(main)
            | RuleKey::AllL(main, _)
            | RuleKey::ExL(main, _)
            | RuleKey::DefL(main),
            Side::Left,
        ) => same_formula(arena, formula, main),
        (
            RuleKey::NegR(main)
            | RuleKey::AndR(main)
            | RuleKey::OrR(main)
            | RuleKey::ImpR(main)
            | RuleKey::AllR(main, _)
            | RuleKey::ExR(main, _)
            | RuleKey::DefR(main),
            Side::Right,
        ) => same_formula(arena, formula, main),
        _ => false,
    }
}

// Whether the last rule introduces the formula on that side.
fn introduces(arena: &Arena, proof: u32, side: Side, formula: u32) -> bool
    requires proof { IsTreeAt arena.now proof }
    requires formula { IsFormulaAt arena.now formula }
    ensures { result ≡ has_introduced side (formula_at arena.now formula) (tree_at arena.now proof) }
{
    is_main(arena, rule(arena, proof), side, formula)
}

// Whether the last rule has no premise.
fn is_leaf(arena: &Arena, proof: u32) -> bool
    requires { IsTreeAt arena.now proof }
    ensures { result ≡ is_leaf_tree (tree_at arena.now proof) }
{
    matches!(
        rule(arena, proof),
        RuleKey::Ax(_) | RuleKey::TopR | RuleKey::BotL
    )
}

// Whether the proof is a leaf that doesn't introduce the formula on that side.
fn is_other_leaf(arena: &Arena, proof: u32, side: Side, formula: u32) -> bool
    requires proof { IsTreeAt arena.now proof }
    requires formula { IsFormulaAt arena.now formula }
    ensures { result ≡ (is_leaf_tree (tree_at arena.now proof) && negated (has_introduced side (formula_at arena.now formula) (tree_at arena.now proof))) }
{
    is_leaf(arena, proof) && !introduces(arena, proof, side, formula)
}

// Whether the formula stands on that side of the conclusion.
#[tactic(auto, using(arena_cells::proofs::Facts::trees))]
fn ends_with(arena: &Arena, proof: u32, side: Side, formula: u32) -> bool
    requires proof { IsTreeAt arena.now proof }
    requires formula { IsFormulaAt arena.now formula }
    ensures { result ≡ set.has (side_of (concl (tree_at arena.now proof)) side) (formula_at arena.now formula) }
{
    arena.sequent_has(end(arena, proof), side, formula)
}

// Whether the formula stands on that side of a premise's conclusion.
fn has_above(arena: &Arena, proof: u32, side: Side, formula: u32) -> bool
    requires proof { IsTreeAt arena.now proof }
    requires formula { IsFormulaAt arena.now formula }
    ensures { result ≡ stands_above side (formula_at arena.now formula) (below (tree_at arena.now proof)) }
{
    match premises(arena, proof) {
        Parts::Zero => false,
        Parts::One(only) => ends_with(arena, only, side, formula),
        Parts::Two(first, second) => {
            ends_with(arena, first, side, formula) || ends_with(arena, second, side, formula)
        }
    }
}

// Whether the conclusion of the proof is a subsequent of `larger`. The side that is named is looked at first.
#[tactic(auto, using(arena_cells::proofs::Facts::trees, arena_cells::proofs::Facts::sequents))]
fn proves(arena: &Arena, proof: u32, larger: u32, first: Side) -> bool
    requires proof { IsTreeAt arena.now proof }
    requires larger { IsSequentAt arena.now larger }
    ensures { result ≡ is_subsequent (concl (tree_at arena.now proof)) (sequent_at arena.now larger) }
{
    let end = end(arena, proof);
    arena.is_side_within(arena.side(end, first), arena.side(larger, first))
        && arena.is_subsequent(end, larger)
}

/// The case of a cut.
pub(crate) fn case_at(arena: &Arena, cut: Cut) -> Case
    requires { IsCutAt arena.now cut }
    ensures { result ≡ case_of (sequent_at arena.now cut.end) (formula_at arena.now cut.formula) (tree_at arena.now cut.left) (tree_at arena.now cut.right) }
{
    let Cut {
        end,
        formula,
        left,
        right,
    } = cut;
    // Mostly the cut formula stands in neither side of the conclusion.
    if proves(arena, left, end, Side::Right) {
        Case::Weaken(Side::Right)
    } else if proves(arena, right, end, Side::Left) {
        Case::Weaken(Side::Left)
    } else if is_other_leaf(arena, left, Side::Right, formula) {
        Case::Leaf(Side::Right)
    } else if is_other_leaf(arena, right, Side::Left, formula) {
        Case::Leaf(Side::Left)
    } else if !introduces(arena, left, Side::Right, formula) {
        Case::Pass(Side::Right)
    } else if !introduces(arena, right, Side::Left, formula) {
        Case::Pass(Side::Left)
    } else if has_above(arena, left, Side::Right, formula) {
        Case::Split(Side::Right)
    } else if has_above(arena, right, Side::Left, formula) {
        Case::Split(Side::Left)
    } else {
        Case::Reduce
    }
}
