//! The walk over a tree that lists its distinct subtrees.
ghost use Rattle.std.specs.Prelude.{◌≡◌, slice_get, Some, IfOk};
ghost use Rattle.std.specs.List.{All};
ghost use Rattle.proof_trees.specs.Trees.{below};
ghost use Rattle.proof_graph.specs.References.{trees_of};
ghost use Rattle.proof_graph.specs.Graphs.{IsOf};
ghost use Rattle.step_laws.specs.Subtrees.{subtrees, subtrees_all, appended, appended_each};
ghost use Rattle.proof_steps.specs.Listed.{ArePlaces};

use crate::listing::Listing;
use proof_graph::{Graph, ProofRef};
use std::alloc::{AllocError, Global};

/// Lists the subtrees of a tree that aren't listed yet, and answers the place of the tree.
#[cycle(visit)]
pub(crate) fn visit(
    listing: &mut Listing,
    graph: &Graph,
    alloc: Global,
    proof: &ProofRef,
) -> Result<u64, AllocError>
    requires home { listing.old.home ≡ graph.now.nodes }
    requires of { IsOf graph.now proof.now }
    ensures home { listing.new.home ≡ graph.now.nodes }
    ensures trees { IfOk result (λ _. listing.new.trees ≡ appended_each listing.old.trees (subtrees proof.now.tree)) }
    ensures place { IfOk result (λ place. slice_get listing.new.trees place ≡ Some proof.now.tree) }
{
    if let Some(place) = listing.seen_at(graph, proof) {
        return Ok(place);
    }
    let places = visit_all(listing, graph, alloc, proof.premises())?;
    enter(listing, graph, alloc, proof, places)
}

// Lists the subtrees of several trees, and answers the places of these.
#[cycle(visit)]
fn visit_all(
    listing: &mut Listing,
    graph: &Graph,
    alloc: Global,
    proofs: &[ProofRef],
) -> Result<Vec<u64>, AllocError>
    requires home { listing.old.home ≡ graph.now.nodes }
    requires of { All (IsOf graph.now) proofs.now }
    ensures home { listing.new.home ≡ graph.now.nodes }
    ensures trees { IfOk result (λ _. listing.new.trees ≡ appended_each listing.old.trees (subtrees_all (trees_of proofs.now))) }
    ensures places { IfOk result (λ places. ArePlaces listing.new.trees places.items (trees_of proofs.now)) }
{
    let mut places = Vec::with_capacity(alloc, proofs.len())?;
    for proof in proofs {
        let place = visit(listing, graph, alloc, proof)?;
        places.push(place)?;
    }
    Ok(places)
}

// Lists a tree whose premises' trees are listed at these places, unless it is listed.
fn enter(
    listing: &mut Listing,
    graph: &Graph,
    alloc: Global,
    proof: &ProofRef,
    places: Vec<u64>,
) -> Result<u64, AllocError>
    requires home { listing.old.home ≡ graph.now.nodes }
    requires of { IsOf graph.now proof.now }
    requires places { ArePlaces listing.old.trees places.items (below proof.now.tree) }
    ensures home { listing.new.home ≡ graph.now.nodes }
    ensures trees { IfOk result (λ _. listing.new.trees ≡ appended listing.old.trees proof.now.tree) }
    ensures place { IfOk result (λ place. slice_get listing.new.trees place ≡ Some proof.now.tree) }
{
    let key = listing.key(graph, alloc, proof, &places)?;
    match listing.find(&key) {
        Some(place) => Ok(place),
        None => {
            let place = listing.len();
            listing.push(graph, key, proof.keep()?, places)?;
            Ok(place)
        }
    }
}
