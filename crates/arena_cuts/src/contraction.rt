//! The contraction of a cut.
ghost use Rattle.std.specs.Prelude.{◌≡◌, ◌+◌, IfOk};
ghost use Rattle.lk_rules.specs.declared.rule.Rule.TheVariants.{Weak};
ghost use Rattle.proof_trees.specs.Trees.{node, none, more, rule_of, IsValid};
ghost use Rattle.cut_laws.specs.declared.case.Case.TheVariants.{Split};
ghost use Rattle.cut_laws.specs.Contraction.{by_case as case_tree, con};
ghost use Rattle.arena_cells.specs.Standing.{Extends, HasTree, sequent_at, formula_at, tree_at, IsSequentAt, IsFormulaAt, IsTreeAt};
ghost use Rattle.arena_cuts.specs.CutNumbers.{IsCutAt};

use crate::above::above;
use crate::cases::case_at;
use crate::cut::{Cut, premise_on, with_premise};
use crate::parts::cut_parts;
use crate::steps::Steps;
use arena::{Arena, Parts, RuleKey};
use arena_proofs::{inference, rule};
use cut_laws::Case;
use lk_rules::Side;
use std::alloc::{AllocError, Global};
use std::sync::ledger::Ledger;

// The weakening of a proof to a larger conclusion.
fn weakening(arena: &mut Arena, alloc: Global, end: u32, premise: u32) -> Result<u32, AllocError>
    requires end { IsSequentAt arena.old end }
    requires premise { IsTreeAt arena.old premise }
    ensures tree { IfOk result (λ n. HasTree arena.new n (node Weak (sequent_at arena.old end) (more (tree_at arena.old premise) none))) }
    ensures grown { Extends arena.old arena.new }
{
    inference(arena, alloc, RuleKey::Weak, end, Parts::One(premise))
}

// The inference without premises by the last rule of the proof.
fn leaf(arena: &mut Arena, alloc: Global, end: u32, proof: u32) -> Result<u32, AllocError>
    requires end { IsSequentAt arena.old end }
    requires proof { IsTreeAt arena.old proof }
    ensures tree { IfOk result (λ n. HasTree arena.new n (node (rule_of (tree_at arena.old proof)) (sequent_at arena.old end) none)) }
    ensures grown { Extends arena.old arena.new }
{
    let rule = rule(arena, proof);
    inference(arena, alloc, rule, end, Parts::Zero)
}

// The cut once more, with its premise on that side free of the cut formula above its last rule.
fn split(arena: &mut Arena, alloc: Global, cut: Cut, side: Side) -> Result<u32, AllocError>
    requires cut { IsCutAt arena.old cut }
    requires left_valid { IsValid (tree_at arena.old cut.left) }
    requires right_valid { IsValid (tree_at arena.old cut.right) }
    ensures tree { IfOk result (λ n. HasTree arena.new n (case_tree (Split side) (sequent_at arena.old cut.end) (formula_at arena.old cut.formula) (tree_at arena.old cut.left) (tree_at arena.old cut.right))) }
    ensures grown { Extends arena.old arena.new }
{
    let upper_end = arena.sequent_with(alloc, cut.end, side, cut.formula)?;
    let upper = above(arena, alloc, upper_end, cut, side)?;
    with_premise(arena, alloc, cut, side, cut.end, upper)
}

// What takes the place of the cut in each case.
fn by_case(arena: &mut Arena, alloc: Global, cut: Cut, case: Case) -> Result<u32, AllocError>
    requires cut { IsCutAt arena.old cut }
    requires left_valid { IsValid (tree_at arena.old cut.left) }
    requires right_valid { IsValid (tree_at arena.old cut.right) }
    ensures tree { IfOk result (λ n. HasTree arena.new n (case_tree case (sequent_at arena.old cut.end) (formula_at arena.old cut.formula) (tree_at arena.old cut.left) (tree_at arena.old cut.right))) }
    ensures grown { Extends arena.old arena.new }
{
    match case {
        Case::Weaken(side) => weakening(arena, alloc, cut.end, premise_on(arena, cut, side)),
        Case::Leaf(side) => leaf(arena, alloc, cut.end, premise_on(arena, cut, side)),
        Case::Pass(side) => above(arena, alloc, cut.end, cut, side),
        Case::Split(side) => split(arena, alloc, cut, side),
        Case::Reduce => cut_parts(arena, alloc, cut),
    }
}

/// The contraction of a cut, after Gentzen (1935), by the numbers of its conclusion, its formula and its premises: cuts that stand higher
/// or are on smaller formulas take its place, or none. The conclusion stays. It is one step, also where memory is wanting.
pub fn contract_in<L: Ledger>(
    arena: &mut Arena,
    alloc: Global,
    end: u32,
    formula: u32,
    left: u32,
    right: u32,
    steps: &mut Steps<L>,
) -> Result<u32, AllocError>
    requires end { IsSequentAt arena.old end }
    requires formula { IsFormulaAt arena.old formula }
    requires left { IsTreeAt arena.old left }
    requires right { IsTreeAt arena.old right }
    requires left_valid { IsValid (tree_at arena.old left) }
    requires right_valid { IsValid (tree_at arena.old right) }
    ensures tree { IfOk result (λ n. HasTree arena.new n (con (sequent_at arena.old end) (formula_at arena.old formula) (tree_at arena.old left) (tree_at arena.old right))) }
    ensures grown { Extends arena.old arena.new }
    ensures counted { steps.new ≡ steps.old + 1 }
{
    steps.tick();
    let cut = Cut {
        end,
        formula,
        left,
        right,
    };
    let case = case_at(arena, cut);
    by_case(arena, alloc, cut, case)
}
