//! Proofs that come from a graph into an arena.
ghost use Rattle.std.specs.Prelude.{◌≡◌, ◌≤◌, ◌<◌, length, IfOk, IfSome};
ghost use Rattle.std.specs.List.{All};
ghost use Rattle.lk_rules.specs.Rules.{IsWithin};
ghost use Rattle.proof_trees.specs.Trees.{rule_of, concl, below, first_end, second_end};
ghost use Rattle.proof_graph.specs.References.{trees_of};
ghost use Rattle.proof_graph.specs.Graphs.{IsOf};
ghost use Rattle.arena_cells.specs.Standing.{Extends, HasSequent, HasTree, sequent_at, IsSequentAt};
ghost use Rattle.arena_cells.specs.Meaning.{rule_at, trees_at, HasRuleParts, HasPremises};
ghost use Rattle.proof_trees.specs.Conclusions.{IsFormedSequent, HasFormedEnd};
ghost use Rattle.arena_graph.specs.ProofNumbers.{AreNumbersOf};

use crate::proof_numbers::ProofNumbers;
use crate::within::sequent_within;
use arena::{Arena, Parts, RuleKey};
use arena_proofs::{import_rule, inference, rule_formula, with_aux};
use lk_rules::Sequent;
use proof_graph::{Graph, ProofRef};
use std::alloc::{AllocError, Global};

/// The formulas of a sequent are well formed.
pub fn see_formed(end: &Sequent)
    ensures { IsFormedSequent end.now }
{
    let _left = end.left();
    let _right = end.right();
}

// The number of a proof's end sequent.
fn import_end(
    alloc: Global,
    graph: &Graph,
    arena: &mut Arena,
    proof: &ProofRef,
) -> Result<u32, AllocError>
    requires { IsOf graph.now proof.now }
    ensures end { IfOk result (λ n. HasSequent arena.new n (concl proof.now.tree)) }
    ensures grown { Extends arena.old arena.new }
{
    arena.import_sequent(alloc, &graph.get(proof).end)
}

// The number of a premise's end sequent, which is within the conclusion with the premise's auxiliary formulas: mostly it is all of
// that, or all but the main formula.
fn import_upper_end(
    alloc: Global,
    graph: &Graph,
    arena: &mut Arena,
    rule: RuleKey,
    end: u32,
    place: u64,
    premise: &ProofRef,
) -> Result<u32, AllocError>
    requires of { IsOf graph.now premise.now }
    requires rule { HasRuleParts arena.old rule }
    requires end { IsSequentAt arena.old end }
    requires place { place < 2 }
    requires within { IsWithin (rule_at arena.old rule) (sequent_at arena.old end) place (concl premise.now.tree) }
    ensures end { IfOk result (λ n. HasSequent arena.new n (concl premise.now.tree)) }
    ensures grown { Extends arena.old arena.new }
{
    let most = with_aux(arena, alloc, end, rule, place)?;
    sequent_within(
        arena,
        alloc,
        &graph.get(premise).end,
        most,
        rule_formula(rule),
    )
}

// The rule of a proof's last inference by numbers.
fn import_last_rule(
    alloc: Global,
    graph: &Graph,
    arena: &mut Arena,
    proof: &ProofRef,
) -> Result<RuleKey, AllocError>
    requires { IsOf graph.now proof.now }
    ensures parts { IfOk result (HasRuleParts arena.new) }
    ensures rule { IfOk result (λ key. rule_at arena.new key ≡ rule_of proof.now.tree) }
    ensures formed { HasFormedEnd proof.now.tree }
    ensures grown { Extends arena.old arena.new }
{
    let root = graph.get(proof);
    see_formed(&root.end);
    import_rule(arena, alloc, &root.rule)
}

// The number of the tree of a premise.
#[cycle(import)]
fn import_premise(
    alloc: Global,
    graph: &Graph,
    arena: &mut Arena,
    numbers: &mut ProofNumbers,
    rule: RuleKey,
    end: u32,
    place: u64,
    premise: &ProofRef,
) -> Result<u32, AllocError>
    requires numbers { AreNumbersOf graph.now arena.old numbers.old }
    requires of { IsOf graph.now premise.now }
    requires rule { HasRuleParts arena.old rule }
    requires end { IsSequentAt arena.old end }
    requires place { place < 2 }
    requires within { IsWithin (rule_at arena.old rule) (sequent_at arena.old end) place (concl premise.now.tree) }
    ensures tree { IfOk result (λ n. HasTree arena.new n premise.now.tree) }
    ensures grown { Extends arena.old arena.new }
    ensures numbers_stay { AreNumbersOf graph.now arena.new numbers.new }
{
    if let Some(number) = numbers.number(graph, arena, premise) {
        return Ok(number);
    }
    let end = import_upper_end(alloc, graph, arena, rule, end, place, premise)?;
    let number = import_new(alloc, graph, arena, numbers, premise, end)?;
    numbers.note(graph, arena, premise, number)?;
    Ok(number)
}

// The numbers of the premises' trees.
#[cycle(import)]
fn import_below(
    alloc: Global,
    graph: &Graph,
    arena: &mut Arena,
    numbers: &mut ProofNumbers,
    rule: RuleKey,
    end: u32,
    premises: &[ProofRef],
) -> Result<Parts, AllocError>
    requires numbers { AreNumbersOf graph.now arena.old numbers.old }
    requires of { All (IsOf graph.now) premises.now }
    requires rule { HasRuleParts arena.old rule }
    requires end { IsSequentAt arena.old end }
    requires first { IfSome (first_end (trees_of premises.now)) (IsWithin (rule_at arena.old rule) (sequent_at arena.old end) 0) }
    requires second { IfSome (second_end (trees_of premises.now)) (IsWithin (rule_at arena.old rule) (sequent_at arena.old end) 1) }
    requires few { length premises.now ≤ 2 }
    ensures there { IfOk result (HasPremises arena.new) }
    ensures trees { IfOk result (λ parts. trees_at arena.new parts ≡ trees_of premises.now) }
    ensures grown { Extends arena.old arena.new }
    ensures numbers_stay { AreNumbersOf graph.now arena.new numbers.new }
{
    match premises {
        [] => Ok(Parts::Zero),
        [only] => {
            let only = import_premise(alloc, graph, arena, numbers, rule, end, 0, only)?;
            Ok(Parts::One(only))
        }
        [first, second] => {
            let first = import_premise(alloc, graph, arena, numbers, rule, end, 0, first)?;
            let second = import_premise(alloc, graph, arena, numbers, rule, end, 1, second)?;
            Ok(Parts::Two(first, second))
        }
        _ => unreachable!(),
    }
}

// The number of a proof's tree that isn't known, by that of its end sequent.
#[cycle(import)]
fn import_new(
    alloc: Global,
    graph: &Graph,
    arena: &mut Arena,
    numbers: &mut ProofNumbers,
    proof: &ProofRef,
    end: u32,
) -> Result<u32, AllocError>
    requires numbers { AreNumbersOf graph.now arena.old numbers.old }
    requires of { IsOf graph.now proof.now }
    requires end { HasSequent arena.old end (concl proof.now.tree) }
    ensures tree { IfOk result (λ n. HasTree arena.new n proof.now.tree) }
    ensures formed { IfOk result (λ _. HasFormedEnd proof.now.tree) }
    ensures grown { Extends arena.old arena.new }
    ensures numbers_stay { AreNumbersOf graph.now arena.new numbers.new }
{
    proof.known();
    let rule = import_last_rule(alloc, graph, arena, proof)?;
    let premises = import_below(alloc, graph, arena, numbers, rule, end, proof.premises())?;
    inference(arena, alloc, rule, end, premises)
}

/// The number of a proof's tree in the arena. A proof that is known costs one look-up by its number. Else each distinct node of it that
/// isn't known is put, from the last inference up. A side of a premise that has all formulas that the inference allows there, or all but the
/// main formula, gets its number from the conclusion's; of another one, and of the proof's own end sequent, each formula costs a look-up by
/// its fingerprint and mostly one comparison.
pub fn import_proof(
    alloc: Global,
    graph: &Graph,
    arena: &mut Arena,
    numbers: &mut ProofNumbers,
    proof: &ProofRef,
) -> Result<u32, AllocError>
    requires numbers { AreNumbersOf graph.now arena.old numbers.old }
    requires of { IsOf graph.now proof.now }
    ensures tree { IfOk result (λ n. HasTree arena.new n proof.now.tree) }
    ensures formed { IfOk result (λ _. HasFormedEnd proof.now.tree) }
    ensures grown { Extends arena.old arena.new }
    ensures numbers_stay { AreNumbersOf graph.now arena.new numbers.new }
{
    if let Some(number) = numbers.number(graph, arena, proof) {
        return Ok(number);
    }
    let end = import_end(alloc, graph, arena, proof)?;
    let number = import_new(alloc, graph, arena, numbers, proof, end)?;
    numbers.note(graph, arena, proof, number)?;
    Ok(number)
}
