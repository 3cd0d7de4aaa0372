//! A tree as a list of steps.
ghost use Rattle.std.specs.Prelude.{◌≡◌, ◌↔◌, length, IsNone, IfOk};
ghost use Rattle.std.specs.List.{All, position};
ghost use Rattle.lk_rules.specs.Rules.{IsFormedRule};
ghost use Rattle.proof_trees.specs.Trees.{IsCutFree};
ghost use Rattle.proof_graph.specs.Graphs.{IsOf};
ghost use Rattle.step_laws.specs.Checking.{IsProof};
ghost use Rattle.step_laws.specs.StepTrees.{trees_of_steps, IsTreeOf};
ghost use Rattle.step_laws.specs.Subtrees.{distinct_subtrees};
ghost use Rattle.step_laws.specs.Places.{steps_of, is_cut_step};

use crate::listing::Listing;
use crate::visiting::visit;
use lk_rules::Step;
use proof_graph::{Graph, ProofRef};
use std::alloc::{AllocError, Global};

// The listing of the distinct subtrees.
fn list(alloc: Global, graph: &Graph, proof: &ProofRef) -> Result<Listing, AllocError>
    requires { IsOf graph.now proof.now }
    ensures trees { IfOk result (λ listing. listing.trees ≡ distinct_subtrees proof.now.tree) }
    ensures home { IfOk result (λ listing. listing.home ≡ graph.now.nodes) }
{
    let mut listing = Listing::new(alloc, graph);
    visit(&mut listing, graph, alloc, proof)?;
    Ok(listing)
}

/// The distinct subtrees in post-order, the premises' from left to right and the root last, each as a step whose premises are the places
/// of their trees in this list. It takes O(n) look-ups by hashes for n distinct references.
pub fn steps(alloc: Global, graph: &Graph, proof: &ProofRef) -> Result<Vec<Step>, AllocError>
    requires { IsOf graph.now proof.now }
    ensures steps { IfOk result (λ steps. steps.items ≡ steps_of proof.now.tree) }
    ensures trees { IfOk result (λ steps. trees_of_steps steps.items ≡ distinct_subtrees proof.now.tree) }
    ensures root { IfOk result (λ steps. IsTreeOf steps.items proof.now.tree) }
    ensures proof { IfOk result (λ steps. IsProof steps.items) }
    ensures formed { IfOk result (λ steps. All (λ s. IsFormedRule s.rule) steps.items) }
{
    proof.known();
    let listing = list(alloc, graph, proof)?;
    listing.to_steps(graph, alloc)
}

/// The number of distinct subtrees.
pub fn nodes(alloc: Global, graph: &Graph, proof: &ProofRef) -> Result<u64, AllocError>
    requires { IsOf graph.now proof.now }
    ensures { IfOk result (λ n. n ≡ length (steps_of proof.now.tree)) }
{
    let listing = list(alloc, graph, proof)?;
    Ok(listing.len())
}

/// The place of the first cut in `steps`.
pub fn first_cut(alloc: Global, graph: &Graph, proof: &ProofRef) -> Result<Option<u64>, AllocError>
    requires { IsOf graph.now proof.now }
    ensures place { IfOk result (λ place. place ≡ position is_cut_step (steps_of proof.now.tree)) }
    ensures none { IfOk result (λ place. IsNone place ↔ IsCutFree proof.now.tree) }
{
    let listing = list(alloc, graph, proof)?;
    Ok(listing.first_cut(graph))
}
