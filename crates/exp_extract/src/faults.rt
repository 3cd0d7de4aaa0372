//! The faults that stand in the way of an extraction, in their order.
ghost use Rattle.std.specs.Prelude.{◌≡◌, None, Ok, Err, IfOk, IfErr};
ghost use Rattle.std.specs.List.{position};
ghost use Rattle.proof_graph.specs.Graphs.{IsOf};
ghost use Rattle.step_laws.specs.Places.{steps_of, is_cut_step};
ghost use Rattle.extraction_laws.specs.Extraction.{extracted};
ghost use Rattle.extraction_laws.specs.Extracting.{extracting};
ghost use Rattle.exp_extract.specs.Extracting.{Extracts, NamesFormed};

use extraction_laws::ExtractFault;
use proof_graph::{Graph, ProofRef};
use proof_steps::{exceeds, first_cut, first_defined};
use std::alloc::Global;

/// The first fault, if there is one.
pub(crate) fn check(
    graph: &Graph,
    alloc: Global,
    proof: &ProofRef,
    budget: u64,
) -> Result<(), ExtractFault>
    requires { IsOf graph.now proof.now }
    ensures ok { IfOk result (λ _. extracting proof.now.tree budget ≡ Ok (extracted proof.now.tree)) }
    ensures err { IfErr result (λ fault. Extracts (Err fault) (extracting proof.now.tree budget)) }
    ensures named { IfErr result NamesFormed }
{
    if let Some(place) = first_cut(alloc, graph, proof)? {
        return Err(ExtractFault::Cut(place));
    }
    match first_defined(&graph.get(proof).end)? {
        Some((formula, side)) => Err(ExtractFault::Defined { formula, side }),
        None if exceeds(proof, budget)? => Err(ExtractFault::Budget),
        None => Ok(()),
    }
}
