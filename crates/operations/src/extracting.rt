//! What an extraction of an expansion proof comes to.
ghost use Rattle.std.specs.Prelude.{[], ◌∷◌};
ghost use Rattle.operation_laws.specs.Running.{run};
ghost use Rattle.held_values.specs.Means.{sense, Fits};
ghost use Rattle.operations.specs.Means.{ComesTo};

use crate::answers::{Made, Ran};
use crate::given::proof_given;
use exp_extract::{ExtractFault, extract};
use held_values::Held;
use job_lang::Op;
use job_words::{FormedFormula, Utf8Text};
use operation_laws::Failure;
use proof_graph::Graph;
use std::alloc::Global;

/// The expansion proof of the end sequent of the proof that is named, within a budget of inferences of its tree.
#[tactic(auto, using(crate::proofs::Givings::proofless_comes, crate::proofs::Lacking::extracted_lacks))]
pub fn extract_of(graph: &Graph, alloc: Global, of: &Utf8Text, value: &Held, budget: u64) -> Ran
    requires { Fits graph.now value.now }
    ensures { ComesTo graph.now result (run (Op.Expand of.now budget) (sense value.now ∷ [])) }
{
    let proof = match proof_given(alloc, of, value) {
        Ok(proof) => proof,
        Err(absent) => return Ran::from(absent),
    };
    match extract(alloc, graph, proof, budget) {
        Ok(trees) => Ran::Done(Made::Expansion(trees)),
        Err(ExtractFault::Cut(step)) => Ran::Failed(Failure::Cut(step)),
        Err(ExtractFault::Defined { formula, side }) => Ran::Failed(Failure::Defined {
            formula: FormedFormula::new(formula),
            side,
        }),
        Err(ExtractFault::Budget) => Ran::Failed(Failure::Budget),
        Err(ExtractFault::Memory) => Ran::Lacking,
    }
}
