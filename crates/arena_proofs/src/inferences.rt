//! The last inference of a proof.
ghost use Rattle.std.specs.Prelude.{◌≡◌, IfOk};
ghost use Rattle.proof_trees.specs.Trees.{node, rule_of, concl, below};
ghost use Rattle.arena_cells.specs.Standing.{Extends, HasSequent, HasTree, sequent_at, tree_at, IsSequentAt, IsTreeAt};
ghost use Rattle.arena_cells.specs.Meaning.{rule_at, trees_at, HasRuleParts, HasPremises, ArePartsBelow};

use crate::rules::import_rule;
use arena::{Arena, Key, Parts, RuleKey};
use lk_rules::{Rule, Sequent};
use std::alloc::{AllocError, Global};

/// The rule of the last inference.
#[tactic(auto, using(arena_cells::proofs::Facts::trees))]
pub fn rule(arena: &Arena, proof: u32) -> RuleKey
    requires { IsTreeAt arena.now proof }
    ensures parts { HasRuleParts arena.now result }
    ensures rule { rule_of (tree_at arena.now proof) ≡ rule_at arena.now result }
{
    match arena.key(proof) {
        Key::Tree(rule, _, _) => *rule,
        _ => unreachable!(),
    }
}

/// The end sequent.
#[tactic(auto, using(arena_cells::proofs::Facts::trees))]
pub fn end(arena: &Arena, proof: u32) -> u32
    requires { IsTreeAt arena.now proof }
    ensures { HasSequent arena.now result (concl (tree_at arena.now proof)) }
{
    match arena.key(proof) {
        Key::Tree(_, end, _) => *end,
        _ => unreachable!(),
    }
}

/// The proofs of the premises, whose numbers are smaller.
#[tactic(auto, using(arena_cells::proofs::Facts::trees))]
pub fn premises(arena: &Arena, proof: u32) -> Parts
    requires { IsTreeAt arena.now proof }
    ensures there { HasPremises arena.now result }
    ensures trees { below (tree_at arena.now proof) ≡ trees_at arena.now result }
    ensures below { ArePartsBelow proof result }
{
    match arena.key(proof) {
        Key::Tree(_, _, premises) => *premises,
        _ => unreachable!(),
    }
}

/// The proof whose last inference has this rule and this end sequent over the premises. Whether the inference is right is not asked here:
/// it follows from the laws of the trees that are made.
pub fn inference(
    arena: &mut Arena,
    alloc: Global,
    rule: RuleKey,
    end: u32,
    premises: Parts,
) -> Result<u32, AllocError>
    requires rule { HasRuleParts arena.old rule }
    requires end { IsSequentAt arena.old end }
    requires premises { HasPremises arena.old premises }
    ensures tree { IfOk result (λ n. HasTree arena.new n (node (rule_at arena.old rule) (sequent_at arena.old end) (trees_at arena.old premises))) }
    ensures grown { Extends arena.old arena.new }
{
    arena.put(alloc, Key::Tree(rule, end, premises))
}

/// The proof of a node that comes into the arena, over premises that are in it.
pub fn put_node(
    arena: &mut Arena,
    alloc: Global,
    rule: &Rule,
    end: &Sequent,
    premises: Parts,
) -> Result<u32, AllocError>
    requires { HasPremises arena.old premises }
    ensures tree { IfOk result (λ n. HasTree arena.new n (node rule.now end.now (trees_at arena.old premises))) }
    ensures grown { Extends arena.old arena.new }
{
    let end = arena.import_sequent(alloc, end)?;
    let rule = import_rule(arena, alloc, rule)?;
    inference(arena, alloc, rule, end, premises)
}
