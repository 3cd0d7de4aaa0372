//! Cuts on the parts of the cut formula, where both premises introduce it.
ghost use Rattle.std.specs.Prelude.{◌≡◌, IfOk};
ghost use Rattle.substitution.specs.Unfolding.{unf};
ghost use Rattle.proof_trees.specs.Trees.{IsValid};
ghost use Rattle.cut_laws.specs.Contraction.{cut_unfolded, by_parts};
ghost use Rattle.arena_cells.specs.Standing.{Extends, HasTree, sequent_at, formula_at, tree_at, IsSequentAt, IsFormulaAt, IsTreeAt};
ghost use Rattle.arena_cuts.specs.CutNumbers.{IsCutAt};
ghost use Rattle.arena_cuts.specs.Reductions.{IsUpperAt, IsInstantiationAt, IsReductionAt, instance_numbers, unfolded_numbers, reduction_numbers, two_cuts as two_cut_trees, instance_cut as instance_tree, reduced_tree};

use crate::cut::{Cut, cut_on, put_cut};
use arena::{Arena, Key, Parts, RuleKey};
use arena_proofs::{premises, rule};
use arena_subst::replace;
use lk_rules::Side;
use std::alloc::{AllocError, Global};

/// A cut that stands above another one, by its formula and its premises.
#[derive(Clone, Copy)]
pub(crate) struct Upper {
    pub formula: u32,
    pub left: u32,
    pub right: u32,
}

/// A cut on an instance of a quantified formula's body by a term, which takes the place of the eigenvariable in one premise.
#[derive(Clone, Copy)]
pub(crate) struct Instantiation {
    pub body: u32,
    pub term: u32,
    pub variable: u32,
    pub premise: u32,
    pub other: u32,
}

/// What takes the place of a cut by the parts of its formula.
#[derive(Clone, Copy)]
pub(crate) enum Reduction {
    /// The cut stays, since its premises don't fit together.
    Unchanged,
    /// A cut on the formula, over a left and a right premise.
    One(u32, u32, u32),
    /// A cut on the formula. Its premise with the formula on that side is another cut, and the last number is the other premise.
    Two(Side, u32, Upper, u32),
    /// A cut on an instance. The term takes the place of the eigenvariable in the premise with the formula on that side.
    Instance(Side, Instantiation),
    /// A cut on what the formula unfolds to, over a left and a right premise.
    Unfolded(u32, u32),
}

// On a quantified formula: the term of one rule takes the place of the eigenvariable of the other, that of the premise with the formula on
// this side.
fn instance(side: Side, body: u32, left: (RuleKey, Parts), right: (RuleKey, Parts)) -> Reduction
    ensures { result ≡ instance_numbers side body left.0 left.1 right.0 right.1 }
{
    match (side, left, right) {
        (
            Side::Right,
            (RuleKey::AllR(_, variable), Parts::One(premise)),
            (RuleKey::AllL(_, term), Parts::One(other)),
        )
        | (
            Side::Left,
            (RuleKey::ExR(_, term), Parts::One(other)),
            (RuleKey::ExL(_, variable), Parts::One(premise)),
        ) => {
            let parts = Instantiation {
                body,
                term,
                variable,
                premise,
                other,
            };
            Reduction::Instance(side, parts)
        }
        _ => Reduction::Unchanged,
    }
}

// On an atom whose symbol has a body: what it unfolds to stands above both rules.
fn unfolded(left: (RuleKey, Parts), right: (RuleKey, Parts)) -> Reduction
    ensures { result ≡ unfolded_numbers left.0 left.1 right.0 right.1 }
{
    match (left, right) {
        ((RuleKey::DefR(_), Parts::One(first)), (RuleKey::DefL(_), Parts::One(second))) => {
            Reduction::Unfolded(first, second)
        }
        _ => Reduction::Unchanged,
    }
}

// By the key of the cut formula, and the last rules of both premises with what is above them.
fn reduce(formula: &Key, left: (RuleKey, Parts), right: (RuleKey, Parts)) -> Reduction
    ensures { result ≡ reduction_numbers formula.now left.0 left.1 right.0 right.1 }
{
    match (formula, left.1, right.1) {
        (Key::Not(body), Parts::One(first), Parts::One(second)) => {
            Reduction::One(*body, second, first)
        }
        (Key::And(a, b), Parts::Two(first, second), Parts::One(third)) => {
            let upper = Upper {
                formula: *b,
                left: second,
                right: third,
            };
            Reduction::Two(Side::Left, *a, upper, first)
        }
        (Key::Or(a, b), Parts::One(first), Parts::Two(second, third)) => {
            let upper = Upper {
                formula: *a,
                left: first,
                right: second,
            };
            Reduction::Two(Side::Right, *b, upper, third)
        }
        (Key::Imp(a, b), Parts::One(first), Parts::Two(second, third)) => {
            let upper = Upper {
                formula: *a,
                left: second,
                right: first,
            };
            Reduction::Two(Side::Right, *b, upper, third)
        }
        (Key::All(body), _, _) => instance(Side::Right, *body, left, right),
        (Key::Ex(body), _, _) => instance(Side::Left, *body, left, right),
        (Key::Defined(..), _, _) => unfolded(left, right),
        _ => Reduction::Unchanged,
    }
}

// The cut on the formula whose premise with the formula on that side is another cut.
#[tactic(auto, using(arena_cells::proofs::Facts::sequents))]
fn two_cuts(
    arena: &mut Arena,
    alloc: Global,
    end: u32,
    side: Side,
    formula: u32,
    upper: Upper,
    other: u32,
) -> Result<u32, AllocError>
    requires end { IsSequentAt arena.old end }
    requires formula { IsFormulaAt arena.old formula }
    requires upper { IsUpperAt arena.old upper }
    requires other { IsTreeAt arena.old other }
    ensures tree { IfOk result (λ n. HasTree arena.new n (two_cut_trees arena.old (sequent_at arena.old end) side (formula_at arena.old formula) upper (tree_at arena.old other))) }
    ensures grown { Extends arena.old arena.new }
{
    let upper_end = arena.sequent_with(alloc, end, side, formula)?;
    let cut = Cut {
        end: upper_end,
        formula: upper.formula,
        left: upper.left,
        right: upper.right,
    };
    let proof = put_cut(arena, alloc, cut)?;
    cut_on(arena, alloc, side, end, formula, proof, other)
}

// The cut on the instance.
#[tactic(auto, using(arena_cells::proofs::Facts::trees, arena_cells::proofs::Facts::places))]
fn instance_cut(
    arena: &mut Arena,
    alloc: Global,
    end: u32,
    side: Side,
    parts: Instantiation,
) -> Result<u32, AllocError>
    requires end { IsSequentAt arena.old end }
    requires parts { IsInstantiationAt arena.old parts }
    ensures tree { IfOk result (λ n. HasTree arena.new n (instance_tree arena.old (sequent_at arena.old end) side parts)) }
    ensures grown { Extends arena.old arena.new }
{
    let formula = arena.instance(alloc, parts.body, parts.term)?;
    let premise = replace(arena, alloc, parts.premise, parts.variable, parts.term)?;
    cut_on(arena, alloc, side, end, formula, premise, parts.other)
}

// The cut on what the formula unfolds to, or the same cut where it doesn't unfold.
fn unfolded_cut(
    arena: &mut Arena,
    alloc: Global,
    cut: Cut,
    left: u32,
    right: u32,
) -> Result<u32, AllocError>
    requires cut { IsCutAt arena.old cut }
    requires left { IsTreeAt arena.old left }
    requires right { IsTreeAt arena.old right }
    ensures tree { IfOk result (λ n. HasTree arena.new n (cut_unfolded (sequent_at arena.old cut.end) (formula_at arena.old cut.formula) (tree_at arena.old cut.left) (tree_at arena.old cut.right) (unf (formula_at arena.old cut.formula)) (tree_at arena.old left) (tree_at arena.old right))) }
    ensures grown { Extends arena.old arena.new }
{
    let Some(formula) = arena.unfolding(alloc, cut.formula)? else {
        return put_cut(arena, alloc, cut);
    };
    let lower = Cut {
        end: cut.end,
        formula,
        left,
        right,
    };
    put_cut(arena, alloc, lower)
}

// What takes the place of the cut.
fn put_reduction(
    arena: &mut Arena,
    alloc: Global,
    cut: Cut,
    reduction: Reduction,
) -> Result<u32, AllocError>
    requires cut { IsCutAt arena.old cut }
    requires reduction { IsReductionAt arena.old reduction }
    ensures tree { IfOk result (λ n. HasTree arena.new n (reduced_tree arena.old (sequent_at arena.old cut.end) (formula_at arena.old cut.formula) (tree_at arena.old cut.left) (tree_at arena.old cut.right) reduction)) }
    ensures grown { Extends arena.old arena.new }
{
    match reduction {
        Reduction::Unchanged => put_cut(arena, alloc, cut),
        Reduction::One(formula, left, right) => {
            let lower = Cut {
                end: cut.end,
                formula,
                left,
                right,
            };
            put_cut(arena, alloc, lower)
        }
        Reduction::Two(side, formula, upper, other) => two_cuts(
            arena, alloc, cut.end, side, formula, upper, other,
        ),
        Reduction::Instance(side, parts) => instance_cut(arena, alloc, cut.end, side, parts),
        Reduction::Unfolded(left, right) => unfolded_cut(arena, alloc, cut, left, right),
    }
}

/// Cuts on the parts of the cut formula take the place of the cut. Where the premises don't fit together it stays as it is.
pub(crate) fn cut_parts(arena: &mut Arena, alloc: Global, cut: Cut) -> Result<u32, AllocError>
    requires cut { IsCutAt arena.old cut }
    requires left_valid { IsValid (tree_at arena.old cut.left) }
    requires right_valid { IsValid (tree_at arena.old cut.right) }
    ensures tree { IfOk result (λ n. HasTree arena.new n (by_parts (sequent_at arena.old cut.end) (formula_at arena.old cut.formula) (tree_at arena.old cut.left) (tree_at arena.old cut.right))) }
    ensures grown { Extends arena.old arena.new }
{
    let left = (rule(arena, cut.left), premises(arena, cut.left));
    let right = (rule(arena, cut.right), premises(arena, cut.right));
    let reduction = reduce(arena.key(cut.formula), left, right);
    put_reduction(arena, alloc, cut, reduction)
}
