//! Proofs in which no predicate symbol has a body.
ghost use Rattle.std.specs.Prelude.{◌≡◌, true, false, map as each, List, IfOk, OnOk};
ghost use Rattle.std.specs.List.{All, list_any};
ghost use Rattle.fol.specs.Facts.{has_body};
ghost use Rattle.lk_rules.specs.RuleOrder.{formula_of};
ghost use Rattle.lk_rules.specs.Rules.{is_unfolding_rule};
ghost use Rattle.proof_trees.specs.Trees.{rule_of, concl};
ghost use Rattle.proof_trees.specs.Conclusions.{EachNodeOf};
ghost use Rattle.proof_trees.specs.Occurrence.{passes, has_body_in_sequent};
ghost use Rattle.arena_cells.specs.Items.{Item};
ghost use Rattle.arena_cells.specs.Standing.{formula_at, side_at, sequent_at, tree_at, IsFormulaAt, IsSideAt, IsSequentAt, IsTreeAt};
ghost use Rattle.arena_cells.specs.Meaning.{rule_at, trees_at, HasRuleParts, HasPremises, ArePartsBelow};
ghost use Rattle.def_laws.specs.Unfolded.{HasNoBody};
ghost use Rattle.arena_flat.specs.PlainParts.{IsPlainSide, IsPlainTree, ArePlain};

use arena::{Arena, Parts, RuleKey};
use arena_proofs::{end, premises, rule, rule_formula};
use number_hash::ByNumber;
use std::alloc::{AllocError, Global};
use std::collections::HashMap;

// The numbers of the sides and the trees that were looked through, in none of which a symbol has a body.
#[derive(Drop)]
struct Plain {
    sides: HashMap<u32, (), ByNumber>,
    trees: HashMap<u32, (), ByNumber>,
}

impl Plain {
    // Nothing has been looked through.
    fn new(alloc: Global) -> Plain
        ensures { (a : List Item) → ArePlain a result }
    {
        Plain {
            sides: HashMap::with_hasher(alloc, ByNumber),
            trees: HashMap::with_hasher(alloc, ByNumber),
        }
    }

    // Whether the side was looked through.
    fn has_side(&self, arena: &Arena, side: u32) -> bool
        requires { ArePlain arena.now self.now }
        ensures { result ≡ true → IsPlainSide (side_at arena.now side) }
    {
        let _arena = arena;
        self.sides.get(&side).is_some()
    }

    // Whether the tree was looked through.
    fn has_tree(&self, arena: &Arena, proof: u32) -> bool
        requires { ArePlain arena.now self.now }
        ensures { result ≡ true → IsPlainTree (tree_at arena.now proof) }
    {
        let _arena = arena;
        self.trees.get(&proof).is_some()
    }

    // Enters a side.
    fn note_side(&mut self, arena: &Arena, side: u32) -> Result<(), AllocError>
        requires known { ArePlain arena.now self.old }
        requires plain { IsPlainSide (side_at arena.now side) }
        ensures { OnOk result (ArePlain arena.now self.new) }
    {
        let _arena = arena;
        self.sides.insert(side, ())?;
        Ok(())
    }

    // Enters a tree.
    fn note_tree(&mut self, arena: &Arena, proof: u32) -> Result<(), AllocError>
        requires known { ArePlain arena.now self.old }
        requires plain { IsPlainTree (tree_at arena.now proof) }
        ensures { OnOk result (ArePlain arena.now self.new) }
    {
        let _arena = arena;
        self.trees.insert(proof, ())?;
        Ok(())
    }
}

// Whether no symbol in the formulas at the numbers has a body.
fn are_plain(arena: &Arena, formulas: &[u32]) -> bool
    requires { All (IsFormulaAt arena.now) formulas.now }
    ensures { result ≡ true → list_any has_body (each (formula_at arena.now) formulas.now) ≡ false }
{
    for formula in formulas {
        if arena.formula(*formula).has_body() {
            return false;
        }
    }
    true
}

// Whether no symbol in a side's formulas has a body.
#[tactic(auto, using(crate::proofs::SideSets::plain_side))]
fn has_plain_formulas(arena: &Arena, side: u32) -> bool
    requires { IsSideAt arena.now side }
    ensures { result ≡ true → IsPlainSide (side_at arena.now side) }
{
    are_plain(arena, arena.side_numbers(side))
}

// Whether no symbol in a side has a body, where the side may have been looked through.
fn is_plain_side(arena: &Arena, known: &mut Plain, side: u32) -> Result<bool, AllocError>
    requires there { IsSideAt arena.now side }
    requires known { ArePlain arena.now known.old }
    ensures plain { IfOk result (λ plain. plain ≡ true → IsPlainSide (side_at arena.now side)) }
    ensures known { OnOk result (ArePlain arena.now known.new) }
{
    if known.has_side(arena, side) {
        return Ok(true);
    }
    if !has_plain_formulas(arena, side) {
        return Ok(false);
    }
    known.note_side(arena, side)?;
    Ok(true)
}

// Whether no symbol in a sequent has a body.
#[tactic(auto, using(arena_cells::proofs::Facts::sequents))]
fn is_plain_sequent(arena: &Arena, known: &mut Plain, sequent: u32) -> Result<bool, AllocError>
    requires there { IsSequentAt arena.now sequent }
    requires known { ArePlain arena.now known.old }
    ensures plain { IfOk result (λ plain. plain ≡ true → has_body_in_sequent (sequent_at arena.now sequent) ≡ false) }
    ensures known { OnOk result (ArePlain arena.now known.new) }
{
    let (left, right) = arena.sides(sequent);
    if !is_plain_side(arena, known, left)? {
        return Ok(false);
    }
    is_plain_side(arena, known, right)
}

// Whether a rule unfolds no atom, and no symbol in its formula has a body.
fn is_plain_rule(arena: &Arena, rule: RuleKey) -> bool
    requires { HasRuleParts arena.now rule }
    ensures unfolds { result ≡ true → is_unfolding_rule (rule_at arena.now rule) ≡ false }
    ensures formula { result ≡ true → passes has_body (formula_of (rule_at arena.now rule)) ≡ false }
{
    !unfolds(rule)
        && match rule_formula(rule) {
            Some(main) => !arena.formula(main).has_body(),
            None => true,
        }
}

// Whether a rule unfolds an atom.
fn unfolds(rule: RuleKey) -> bool
    ensures { (a : List Item) → result ≡ is_unfolding_rule (rule_at a rule) }
{
    matches!(rule, RuleKey::DefL(_) | RuleKey::DefR(_))
}

// Whether no symbol in the last inference of a tree has a body.
fn is_plain_node(arena: &Arena, known: &mut Plain, proof: u32) -> Result<bool, AllocError>
    requires there { IsTreeAt arena.now proof }
    requires known { ArePlain arena.now known.old }
    ensures plain { IfOk result (λ plain. plain ≡ true → HasNoBody (rule_of (tree_at arena.now proof)) (concl (tree_at arena.now proof))) }
    ensures known { OnOk result (ArePlain arena.now known.new) }
{
    if !is_plain_rule(arena, rule(arena, proof)) {
        return Ok(false);
    }
    is_plain_sequent(arena, known, end(arena, proof))
}

// Whether no symbol in a tree has a body.
#[cycle(is_plain_tree)]
fn is_plain_tree(arena: &Arena, known: &mut Plain, proof: u32) -> Result<bool, AllocError>
    requires there { IsTreeAt arena.now proof }
    requires known { ArePlain arena.now known.old }
    ensures plain { IfOk result (λ plain. plain ≡ true → IsPlainTree (tree_at arena.now proof)) }
    ensures known { OnOk result (ArePlain arena.now known.new) }
{
    if known.has_tree(arena, proof) {
        return Ok(true);
    }
    if !is_plain_node(arena, known, proof)? {
        return Ok(false);
    }
    if !are_plain_trees(arena, known, proof, premises(arena, proof))? {
        return Ok(false);
    }
    known.note_tree(arena, proof)?;
    Ok(true)
}

// Whether no symbol in the trees of the premises, whose numbers are below the number `above`, has a body.
#[cycle(is_plain_tree)]
fn are_plain_trees(
    arena: &Arena,
    known: &mut Plain,
    above: u32,
    premises: Parts,
) -> Result<bool, AllocError>
    requires there { HasPremises arena.now premises }
    requires smaller { ArePartsBelow above premises }
    requires known { ArePlain arena.now known.old }
    ensures plain { IfOk result (λ plain. plain ≡ true → EachNodeOf HasNoBody (trees_at arena.now premises)) }
    ensures known { OnOk result (ArePlain arena.now known.new) }
{
    let _above = above;
    match premises {
        Parts::Zero => Ok(true),
        Parts::One(only) => is_plain_tree(arena, known, only),
        Parts::Two(first, second) => {
            if !is_plain_tree(arena, known, first)? {
                return Ok(false);
            }
            is_plain_tree(arena, known, second)
        }
    }
}

/// Whether no predicate symbol in a tree has a body, which is answered at the first one that has. Each distinct side and subtree is looked
/// through once, and each formula costs one look.
pub(crate) fn is_plain(alloc: Global, arena: &Arena, proof: u32) -> Result<bool, AllocError>
    requires { IsTreeAt arena.now proof }
    ensures { IfOk result (λ plain. plain ≡ true → IsPlainTree (tree_at arena.now proof)) }
{
    let mut known = Plain::new(alloc);
    is_plain_tree(arena, &mut known, proof)
}
