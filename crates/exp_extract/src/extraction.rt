//! Extraction.
ghost use Rattle.std.specs.Prelude.{◌≡◌, false, IfOk, IfErr};
ghost use Rattle.proof_trees.specs.Trees.{concl, IsCutFree};
ghost use Rattle.proof_trees.specs.Occurrence.{has_body_in_sequent};
ghost use Rattle.proof_graph.specs.Graphs.{IsOf};
ghost use Rattle.expansion_laws.specs.Proofs.{shallow_sequent, IsExpansionProof};
ghost use Rattle.exp_tree.specs.Reads.{expansion_of};
ghost use Rattle.extraction_laws.specs.Extraction.{extracted};
ghost use Rattle.extraction_laws.specs.Extracting.{extracting};
ghost use Rattle.exp_extract.specs.Extracting.{Extracts, NamesFormed};

use crate::faults::check;
use crate::marked_proof::mark_proof;
use crate::reading::read_side;
use crate::variables::variables;
use exp_tree::{CheckedExp, ExpSequent};
use extraction_laws::{ExtractFault, laws};
use proof_graph::{Graph, ProofRef};
use std::alloc::{AllocError, Global};

// The trees of a proof's conclusion.
fn extract_trees(alloc: Global, graph: &Graph, proof: &ProofRef) -> Result<ExpSequent, AllocError>
    requires of { IsOf graph.now proof.now }
    requires cut_free { IsCutFree proof.now.tree }
    requires bodies { has_body_in_sequent (concl proof.now.tree) ≡ false }
    ensures { IfOk result (λ e. expansion_of e ≡ extracted proof.now.tree) }
{
    let outside = variables(alloc, graph, proof)?;
    let marked = mark_proof(alloc, graph, proof, outside)?;
    let left = read_side(alloc, &marked.marks, &marked.left)?;
    let right = read_side(alloc, &marked.marks, &marked.right)?;
    Ok(ExpSequent { left, right })
}

/// The expansion proof that a proof without cuts stands for, after Miller (1987), A Compact Representation of Proofs: for each formula of
/// its end sequent a tree of the instances that the proof uses. Formulas that no rule uses are never expanded, an axiom's formula is
/// expanded down to its atoms, and what is used at one place by several inferences is merged. Each strong quantifier that is used gets a
/// numbered variable of its own, by order of use, that occurs nowhere in the proof.
///
/// The faults come in this order, and the first is answered: `Cut` with the place of the first cut among the proof's steps; `Defined` with
/// the first formula of the end sequent, left before right, in which a predicate symbol has a body; `Budget` where the proof's unfolded
/// tree has more nodes than the budget allows, though only its distinct nodes are gone through. Numbers of nodes from 2^64 - 1 on aren't
/// told apart, so a budget of that number is answered by `Memory` where the tree has as many.
pub fn extract(
    alloc: Global,
    graph: &Graph,
    proof: &ProofRef,
    budget: u64,
) -> Result<CheckedExp, ExtractFault>
    requires of { IsOf graph.now proof.now }
    // It is the expansion, or the first fault, unless memory runs out.
    ensures exact { Extracts result (extracting proof.now.tree budget) }
    ensures proof { IfOk result (λ e. IsExpansionProof (expansion_of e) (concl proof.now.tree)) }
    ensures sequent { IfOk result (λ e. shallow_sequent (expansion_of e) ≡ concl proof.now.tree) }
    ensures named { IfErr result NamesFormed }
{
    proof.known();
    laws::extractions();
    check(graph, alloc, proof, budget)?;
    let trees = extract_trees(alloc, graph, proof)?;
    Ok(CheckedExp::new(trees))
}
