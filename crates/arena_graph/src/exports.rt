//! Trees that go from an arena into a graph.
ghost use Rattle.std.specs.Prelude.{◌≡◌, IfOk};
ghost use Rattle.std.specs.List.{All};
ghost use Rattle.proof_trees.specs.Trees.{below, IsValid, AllValid};
ghost use Rattle.proof_graph.specs.References.{trees_of};
ghost use Rattle.proof_graph.specs.Graphs.{IsOf, IsPassOf, Makes, Extends};
ghost use Rattle.arena_cells.specs.Standing.{tree_at, IsTreeAt};
ghost use Rattle.arena_cells.specs.Meaning.{trees_at, HasPremises, ArePartsBelow};
ghost use Rattle.proof_trees.specs.Conclusions.{HasFormedEnd, HaveFormedEnds};
ghost use Rattle.arena_graph.specs.ProofNumbers.{AreNumbersOf};

use crate::inferences::{inference_over, one, two};
use crate::leaving::meet;
use crate::levels::export_levels;
use crate::proof_numbers::ProofNumbers;
use arena::{Arena, Parts};
use arena_proofs::premises;
use proof_graph::{Graph, GraphPass, Inference, ProofRef};
use std::alloc::{AllocError, Global};
use std::sync::Wait;

// The reference of a tree, over those of the premises.
fn export_over<R: Wait>(
    rt: &R,
    alloc: Global,
    graph: &Graph,
    pass: &mut GraphPass,
    arena: &Arena,
    numbers: &mut ProofNumbers,
    proof: u32,
    premises: Vec<ProofRef>,
) -> Result<ProofRef, AllocError>
    requires pass_of { IsPassOf graph.now pass.old }
    requires numbers { AreNumbersOf graph.now arena.now numbers.old }
    requires there { IsTreeAt arena.now proof }
    requires valid { IsValid (tree_at arena.now proof) }
    requires formed { HasFormedEnd (tree_at arena.now proof) }
    requires premises_of { All (IsOf graph.now) premises.items }
    requires trees { trees_of premises.items ≡ below (tree_at arena.now proof) }
    ensures made { IfOk result (Makes graph.now (tree_at arena.now proof)) }
    ensures extends { Extends graph.now pass.old pass.new }
    ensures numbers_stay { AreNumbersOf graph.now arena.now numbers.new }
{
    let Inference {
        rule,
        end,
        premises,
    } = inference_over(alloc, graph, arena, numbers, proof, premises)?;
    graph.intern(rt, alloc, pass, rule, end, &premises)
}

// The reference of a tree that isn't known.
#[cycle(export)]
#[tactic(auto, using(proof_trees::proofs::FormedConclusions::formed_premises))]
fn export_new<R: Wait>(
    rt: &R,
    alloc: Global,
    graph: &Graph,
    pass: &mut GraphPass,
    arena: &Arena,
    numbers: &mut ProofNumbers,
    proof: u32,
) -> Result<ProofRef, AllocError>
    requires pass_of { IsPassOf graph.now pass.old }
    requires numbers { AreNumbersOf graph.now arena.now numbers.old }
    requires there { IsTreeAt arena.now proof }
    requires valid { IsValid (tree_at arena.now proof) }
    requires formed { HasFormedEnd (tree_at arena.now proof) }
    ensures made { IfOk result (Makes graph.now (tree_at arena.now proof)) }
    ensures extends { Extends graph.now pass.old pass.new }
    ensures numbers_stay { AreNumbersOf graph.now arena.now numbers.new }
{
    let parts = premises(arena, proof);
    let below = export_below(rt, alloc, graph, pass, arena, numbers, proof, parts)?;
    export_over(rt, alloc, graph, pass, arena, numbers, proof, below)
}

// The references of the premises' trees, whose numbers are below the number `above`.
#[cycle(export)]
fn export_below<R: Wait>(
    rt: &R,
    alloc: Global,
    graph: &Graph,
    pass: &mut GraphPass,
    arena: &Arena,
    numbers: &mut ProofNumbers,
    above: u32,
    premises: Parts,
) -> Result<Vec<ProofRef>, AllocError>
    requires pass_of { IsPassOf graph.now pass.old }
    requires numbers { AreNumbersOf graph.now arena.now numbers.old }
    requires there { HasPremises arena.now premises }
    requires smaller { ArePartsBelow above premises }
    requires valid { AllValid (trees_at arena.now premises) }
    requires formed { HaveFormedEnds (trees_at arena.now premises) }
    ensures trees { IfOk result (λ made. trees_of made.items ≡ trees_at arena.now premises) }
    ensures of { IfOk result (λ made. All (IsOf graph.now) made.items) }
    ensures extends { Extends graph.now pass.old pass.new }
    ensures numbers_stay { AreNumbersOf graph.now arena.now numbers.new }
{
    let _above = above;
    match premises {
        Parts::Zero => Ok(Vec::new(alloc)),
        Parts::One(only) => {
            let only = export_tree(rt, alloc, graph, pass, arena, numbers, only)?;
            one(alloc, only)
        }
        Parts::Two(first, second) => {
            let first = export_tree(rt, alloc, graph, pass, arena, numbers, first)?;
            let second = export_tree(rt, alloc, graph, pass, arena, numbers, second)?;
            two(alloc, first, second)
        }
    }
}

// The reference of a tree: each distinct node of it that isn't known is interned, premises before conclusions.
#[cycle(export)]
fn export_tree<R: Wait>(
    rt: &R,
    alloc: Global,
    graph: &Graph,
    pass: &mut GraphPass,
    arena: &Arena,
    numbers: &mut ProofNumbers,
    proof: u32,
) -> Result<ProofRef, AllocError>
    requires pass_of { IsPassOf graph.now pass.old }
    requires numbers { AreNumbersOf graph.now arena.now numbers.old }
    requires there { IsTreeAt arena.now proof }
    requires valid { IsValid (tree_at arena.now proof) }
    requires formed { HasFormedEnd (tree_at arena.now proof) }
    ensures made { IfOk result (Makes graph.now (tree_at arena.now proof)) }
    ensures extends { Extends graph.now pass.old pass.new }
    ensures numbers_stay { AreNumbersOf graph.now arena.now numbers.new }
{
    if let Some(known) = numbers.proof(graph, arena, proof) {
        return known.keep();
    }
    let made = export_new(rt, alloc, graph, pass, arena, numbers, proof)?;
    numbers.note(graph, arena, &made, proof)?;
    Ok(made)
}

/// The reference in the graph of a valid tree whose end sequent has well-formed formulas, as then all its conclusions have. A tree that is
/// known costs one look-up by its number. Else each distinct node of it that isn't known is interned, premises before conclusions; a node
/// that the graph has keeps its number. A wide proof's nodes are interned level by level, many in one turn, so that threads that share the
/// graph wait less for each other. The formulas that leave are put into order once, and each distinct side is made once.
pub fn export_proof<R: Wait>(
    rt: &R,
    alloc: Global,
    graph: &Graph,
    pass: &mut GraphPass,
    arena: &Arena,
    numbers: &mut ProofNumbers,
    proof: u32,
) -> Result<ProofRef, AllocError>
    requires pass_of { IsPassOf graph.now pass.old }
    requires numbers { AreNumbersOf graph.now arena.now numbers.old }
    requires there { IsTreeAt arena.now proof }
    requires valid { IsValid (tree_at arena.now proof) }
    requires formed { HasFormedEnd (tree_at arena.now proof) }
    ensures made { IfOk result (Makes graph.now (tree_at arena.now proof)) }
    ensures extends { Extends graph.now pass.old pass.new }
    ensures numbers_stay { AreNumbersOf graph.now arena.now numbers.new }
{
    let hints = numbers.take_hints(alloc, graph, arena);
    let met = meet(alloc, arena, numbers, hints, proof)?;
    numbers.rank(alloc, graph, arena, met.hints, &met.formulas)?;
    export_levels(rt, alloc, graph, pass, arena, numbers, &met.trees)?;
    export_tree(rt, alloc, graph, pass, arena, numbers, proof)
}
