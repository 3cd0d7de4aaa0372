//! What the Herbrand sequent of a proof comes to.
ghost use Rattle.std.specs.Prelude.{[], ◌∷◌};
ghost use Rattle.operation_laws.specs.Running.{run};
ghost use Rattle.held_values.specs.Means.{sense, Fits};
ghost use Rattle.operations.specs.Means.{ComesTo};

use crate::answers::{Made, Ran};
use crate::given::proof_given;
use cut_intro::{HerbrandFault, herbrand, herbrand_sequent};
use delta_table::count;
use held_values::Held;
use job_lang::Op;
use job_words::{FormedFormula, Utf8Text};
use operation_laws::Failure;
use proof_graph::Graph;
use std::alloc::Global;

/// The Herbrand sequent of the proof that is named, within a budget of inferences of its tree.
#[tactic(auto, using(crate::proofs::Givings::proofless_comes, crate::proofs::Lacking::instanced_lacks))]
pub fn herbrand_in(graph: &Graph, alloc: Global, of: &Utf8Text, value: &Held, budget: u64) -> Ran
    requires { Fits graph.now value.now }
    ensures { ComesTo graph.now result (run (Op.Herbrand of.now budget) (sense value.now ∷ [])) }
{
    let proof = match proof_given(alloc, of, value) {
        Ok(proof) => proof,
        Err(absent) => return Ran::from(absent),
    };
    let instances = match herbrand(alloc, graph, proof, budget) {
        Ok(instances) => instances,
        Err(HerbrandFault::Cut(step)) => return Ran::Failed(Failure::Cut(step)),
        Err(HerbrandFault::NotPrenex { formula, side }) => {
            return Ran::Failed(Failure::NotPrenex {
                formula: FormedFormula::new(formula),
                side,
            });
        }
        Err(HerbrandFault::Budget) => return Ran::Failed(Failure::Budget),
        Err(HerbrandFault::Memory) => return Ran::Lacking,
    };
    match herbrand_sequent(alloc, &instances) {
        Ok(sequent) => Ran::Done(Made::Herbrand {
            count: count(&instances),
            sequent,
        }),
        Err(_) => Ran::Lacking,
    }
}
