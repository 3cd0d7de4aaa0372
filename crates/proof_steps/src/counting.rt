//! How many nodes a tree has. A reference keeps these numbers, so each call is one look.
ghost use Rattle.std.specs.Prelude.{◌≡◌, ◌-◌, ◌^◌, min, IfOk};
ghost use Rattle.proof_trees.specs.Trees.{size as size_of, cuts as cuts_of, quants as quants_of};
ghost use Rattle.proof_graph.specs.Graphs.{IsOf};

use proof_graph::{Graph, ProofRef};
use std::alloc::{AllocError, Global};

/// The number of nodes in the tree, at most 2^64 - 1.
pub fn size(_alloc: Global, _graph: &Graph, proof: &ProofRef) -> Result<u64, AllocError>
    requires { IsOf _graph.now proof.now }
    ensures { IfOk result (λ n. n ≡ min (size_of proof.now.tree) (2 ^ 64 - 1)) }
{
    Ok(proof.counts().nodes)
}

/// The number of nodes by cut in the tree, at most 2^64 - 1.
pub fn cuts(_alloc: Global, _graph: &Graph, proof: &ProofRef) -> Result<u64, AllocError>
    requires { IsOf _graph.now proof.now }
    ensures { IfOk result (λ n. n ≡ min (cuts_of proof.now.tree) (2 ^ 64 - 1)) }
{
    Ok(proof.counts().cuts)
}

/// The number of nodes by a quantifier rule in the tree, at most 2^64 - 1.
pub fn quants(_alloc: Global, _graph: &Graph, proof: &ProofRef) -> Result<u64, AllocError>
    requires { IsOf _graph.now proof.now }
    ensures { IfOk result (λ n. n ≡ min (quants_of proof.now.tree) (2 ^ 64 - 1)) }
{
    Ok(proof.counts().quantifiers)
}
