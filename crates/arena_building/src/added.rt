//! The rule without premises by which trees that are added to a list end a branch.
ghost use Rattle.std.specs.Prelude.{◌≡◌, ◌++◌, ℕ, option_map, IfOk, IfSome};
ghost use Rattle.std.specs.List.{All, list_any};
ghost use Rattle.arena_cells.specs.Meaning.{rule_at, HasRuleParts};
ghost use Rattle.building_laws.specs.Lists.{leaf_sequent};
ghost use Rattle.building_laws.specs.Building.{closing_rule};
ghost use Rattle.arena_building.specs.Dividing.{items_of, IsAddedNumbered};
ghost use Rattle.arena_building.specs.Leaves.{is_truth_leaf, is_falsity_leaf, is_leaf_at, met, met_by, IsOpen};
ghost use Rattle.arena_building.specs.Numbered.{trees, IsNumbered};
ghost use Rattle.arena_building.specs.Putting.{put};

use crate::dividing::Added;
use crate::leaves::least;
use crate::placed::PlacedExp;
use arena::{Arena, RuleKey};
use exp_tree::other;
use lk_rules::Side;
use std::alloc::{AllocError, Global};

// Whether the tree is a leaf on the side and has the number.
fn is_leaf(placed: &PlacedExp<'_>, side: Side, number: u32) -> bool
    ensures { result ≡ is_leaf_at side number placed.now }
{
    match placed.leaf_on(side) {
        Some(leaf) => leaf == number,
        None => false,
    }
}

// Whether a leaf on the side has the number.
fn has_leaf(list: &[PlacedExp<'_>], side: Side, number: u32) -> bool
    ensures { result ≡ list_any (is_leaf_at side number) list.now }
{
    list.iter().any(|placed| is_leaf(placed, side, number))
}

// Appends the number of a leaf, where a leaf of the list on the other side has it too.
fn push_met(
    common: &mut Vec<u32>,
    placed: &PlacedExp<'_>,
    list: &[PlacedExp<'_>],
) -> Result<(), AllocError>
    ensures { IfOk result (λ _. common.new.items ≡ common.old.items ++ met placed.now list.now) }
{
    let side = placed.side();
    if let Some(number) = placed.leaf_on(side) {
        if has_leaf(list, other(side), number) {
            common.push(number)?;
        }
    }
    Ok(())
}

impl Added<'_> {
    // The numbers of the leaves that the trees have in common with those of a list, and with one another.
    fn common(&self, alloc: Global, list: &[PlacedExp<'_>]) -> Result<Vec<u32>, AllocError>
        ensures { IfOk result (λ common. common.items ≡ met_by self.now list.now) }
    {
        let mut common = Vec::new(alloc);
        match self {
            Added::One(placed) => push_met(&mut common, placed, list)?,
            Added::Two(first, second) => {
                push_met(&mut common, first, list)?;
                push_met(&mut common, second, list)?;
                push_met(&mut common, first, std::slice::from_ref(second))?;
            }
        }
        Ok(common)
    }

    // Whether one of the trees is a leaf of truth on the right.
    fn has_truth(&self) -> bool
        ensures { result ≡ list_any is_truth_leaf (items_of self.now) }
    {
        match self {
            Added::One(placed) => placed.is_truth(),
            Added::Two(first, second) => first.is_truth() || second.is_truth(),
        }
    }

    // Whether one of the trees is a leaf of falsity on the left.
    fn has_falsity(&self) -> bool
        ensures { result ≡ list_any is_falsity_leaf (items_of self.now) }
    {
        match self {
            Added::One(placed) => placed.is_falsity(),
            Added::Two(first, second) => first.is_falsity() || second.is_falsity(),
        }
    }

    /// The rule without premises at a list with these trees somewhere among the others, where there is none at the list without them. So only
    /// the new leaves are compared with the others.
    pub fn closing(
        &self,
        arena: &Arena,
        alloc: Global,
        list: &[PlacedExp<'_>],
    ) -> Result<Option<RuleKey>, AllocError>
        requires numbers { All (IsNumbered arena.now) list.now }
        requires added { IsAddedNumbered arena.now self.now }
        requires open { IsOpen (trees list.now) }
        ensures rule { (n : ℕ) → IfOk result (λ rule. option_map (rule_at arena.now) rule ≡ closing_rule (leaf_sequent (put (trees list.now) n (trees (items_of self.now))))) }
        ensures parts { IfOk result (λ rule. IfSome rule (HasRuleParts arena.now)) }
    {
        arena.known();
        let common = self.common(alloc, list)?;
        if let Some(formula) = least(arena, &common) {
            return Ok(Some(RuleKey::Ax(formula)));
        }
        if self.has_truth() {
            return Ok(Some(RuleKey::TopR));
        }
        if self.has_falsity() {
            return Ok(Some(RuleKey::BotL));
        }
        Ok(None)
    }
}
