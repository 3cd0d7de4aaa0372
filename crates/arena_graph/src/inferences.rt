//! Last inferences of trees that go from an arena into a graph.
ghost use Rattle.std.specs.Prelude.{◌≡◌, ◌∷◌, [], IfOk, IfSome};
ghost use Rattle.std.specs.List.{All};
ghost use Rattle.proof_trees.specs.Trees.{below};
ghost use Rattle.proof_trees.specs.Conclusions.{IsFormedSequent};
ghost use Rattle.proof_graph.specs.References.{trees_of};
ghost use Rattle.proof_graph.specs.Graphs.{IsOf};
ghost use Rattle.proof_graph.specs.Inferences.{IsInferenceOf, tree_by};
ghost use Rattle.arena_cells.specs.Standing.{sequent_at, tree_at, IsSequentAt};
ghost use Rattle.arena_cells.specs.Meaning.{trees_at};
ghost use Rattle.arena_graph.specs.ProofNumbers.{AreNumbersOf};
ghost use Rattle.arena_graph.specs.Leaving.{IsLeaving};

use crate::proof_numbers::ProofNumbers;
use arena::{Arena, Parts};
use arena_proofs::{end, export_rule, premises, rule};
use lk_rules::{Sequent, Side};
use proof_graph::{Graph, Inference, ProofRef};
use std::alloc::{AllocError, Global};

/// The list of one reference.
pub(crate) fn one(alloc: Global, only: ProofRef) -> Result<Vec<ProofRef>, AllocError>
    ensures { IfOk result (λ list. list.items ≡ only ∷ []) }
{
    let mut list = Vec::with_capacity(alloc, 1)?;
    list.push(only)?;
    Ok(list)
}

/// The list of two references.
pub(crate) fn two(
    alloc: Global,
    first: ProofRef,
    second: ProofRef,
) -> Result<Vec<ProofRef>, AllocError>
    ensures { IfOk result (λ list. list.items ≡ first ∷ second ∷ []) }
{
    let mut list = Vec::with_capacity(alloc, 2)?;
    list.push(first)?;
    list.push(second)?;
    Ok(list)
}

/// A sequent of well-formed formulas.
#[tactic(auto, using(arena_cells::proofs::Facts::sequents))]
pub(crate) fn export_end(
    alloc: Global,
    graph: &Graph,
    arena: &Arena,
    numbers: &mut ProofNumbers,
    end: u32,
) -> Result<Sequent, AllocError>
    requires numbers { AreNumbersOf graph.now arena.now numbers.old }
    requires there { IsSequentAt arena.now end }
    requires formed { IsFormedSequent (sequent_at arena.now end) }
    ensures end { IfOk result (λ s. s ≡ sequent_at arena.now end) }
    ensures numbers_stay { AreNumbersOf graph.now arena.now numbers.new }
{
    let (left, right) = arena.sides(end);
    let left = numbers.side(alloc, graph, arena, Side::Left, left)?;
    let right = numbers.side(alloc, graph, arena, Side::Right, right)?;
    Ok(Sequent { left, right })
}

/// The last inference of a tree, over the references of the premises' trees.
pub(crate) fn inference_over(
    alloc: Global,
    graph: &Graph,
    arena: &Arena,
    numbers: &mut ProofNumbers,
    proof: u32,
    premises: Vec<ProofRef>,
) -> Result<Inference, AllocError>
    requires numbers { AreNumbersOf graph.now arena.now numbers.old }
    requires leaving { IsLeaving arena.now proof }
    requires premises_of { All (IsOf graph.now) premises.items }
    requires trees { trees_of premises.items ≡ below (tree_at arena.now proof) }
    ensures of { IfOk result (IsInferenceOf graph.now) }
    ensures tree { IfOk result (λ i. tree_by i ≡ tree_at arena.now proof) }
    ensures numbers_stay { AreNumbersOf graph.now arena.now numbers.new }
{
    let rule = export_rule(arena, rule(arena, proof))?;
    let end = export_end(alloc, graph, arena, numbers, end(arena, proof))?;
    Ok(Inference {
        rule,
        end,
        premises,
    })
}

// The references of the premises' trees, where they are known.
fn known_premises(
    alloc: Global,
    graph: &Graph,
    arena: &Arena,
    numbers: &ProofNumbers,
    premises: Parts,
) -> Result<Option<Vec<ProofRef>>, AllocError>
    requires { AreNumbersOf graph.now arena.now numbers.now }
    ensures of { IfOk result (λ known. IfSome known (λ refs. All (IsOf graph.now) refs.items)) }
    ensures trees { IfOk result (λ known. IfSome known (λ refs. trees_of refs.items ≡ trees_at arena.now premises)) }
{
    match premises {
        Parts::Zero => Ok(Some(Vec::new(alloc))),
        Parts::One(only) => {
            let Some(only) = numbers.proof(graph, arena, only) else {
                return Ok(None);
            };
            Ok(Some(one(alloc, only.keep()?)?))
        }
        Parts::Two(first, second) => {
            let Some(first) = numbers.proof(graph, arena, first) else {
                return Ok(None);
            };
            let Some(second) = numbers.proof(graph, arena, second) else {
                return Ok(None);
            };
            Ok(Some(two(alloc, first.keep()?, second.keep()?)?))
        }
    }
}

/// The last inference of a tree, where the premises' trees are known.
pub(crate) fn inference_at(
    alloc: Global,
    graph: &Graph,
    arena: &Arena,
    numbers: &mut ProofNumbers,
    proof: u32,
) -> Result<Option<Inference>, AllocError>
    requires numbers { AreNumbersOf graph.now arena.now numbers.old }
    requires leaving { IsLeaving arena.now proof }
    ensures of { IfOk result (λ known. IfSome known (IsInferenceOf graph.now)) }
    ensures tree { IfOk result (λ known. IfSome known (λ i. tree_by i ≡ tree_at arena.now proof)) }
    ensures numbers_stay { AreNumbersOf graph.now arena.now numbers.new }
{
    let below = premises(arena, proof);
    let Some(below) = known_premises(alloc, graph, arena, numbers, below)? else {
        return Ok(None);
    };
    let inference = inference_over(alloc, graph, arena, numbers, proof, below)?;
    Ok(Some(inference))
}
