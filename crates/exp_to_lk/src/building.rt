//! Proofs from expansion proofs.
ghost use Rattle.std.specs.Prelude.{◌≡◌, ◌≢◌, IfOk, IfErr};
ghost use Rattle.proof_trees.specs.Trees.{concl, IsValid, IsCutFree};
ghost use Rattle.proof_graph.specs.Graphs.{IsOf, IsPassOf, history, Extends};
ghost use Rattle.expansion_laws.specs.Proofs.{shallow_sequent};
ghost use Rattle.exp_tree.specs.Reads.{expansion_of};
ghost use Rattle.building_laws.specs.Budgets.{building};
ghost use Rattle.exp_to_lk.specs.Building.{Builds};

use arena::Arena;
use arena_building::build_in;
use arena_graph::{ProofNumbers, export_proof};
use building_laws::BuildFault;
use exp_tree::CheckedExp;
use proof_graph::{Graph, GraphPass, ProofRef};
use std::alloc::Global;
use std::sync::Wait;

/// Builds the proof without cuts of an expansion proof, from the conclusion upwards, after Miller (1987): its end sequent has the formulas
/// of the trees. The budget bounds the number of inferences, each counted as often as it stands in the tree. They are counted before
/// anything is built, and `Budget` is answered at the first one over it. The proof goes into the graph once it is built, so of all
/// refusals only `Memory` may leave new nodes there.
pub fn build<R: Wait>(
    rt: &R,
    alloc: Global,
    graph: &Graph,
    pass: &mut GraphPass,
    exps: &CheckedExp,
    budget: u64,
) -> Result<ProofRef, BuildFault>
    requires pass_of { IsPassOf graph.now pass.old }
    // It is the proof that building makes, or there are more inferences than the budget allows, unless memory runs out.
    ensures exact { Builds result (building (expansion_of exps.now) budget) }
    ensures valid { IfOk result (λ r. IsValid r.tree) }
    ensures cut_free { IfOk result (λ r. IsCutFree r.tree) }
    ensures end { IfOk result (λ r. concl r.tree ≡ shallow_sequent (expansion_of exps.now)) }
    ensures unchanged { IfErr result (λ e. e ≢ BuildFault.Memory → history pass.new ≡ history pass.old) }
    ensures of { IfOk result (IsOf graph.now) }
    ensures extends { Extends graph.now pass.old pass.new }
{
    let mut arena = Arena::new(alloc);
    let built = match build_in(&mut arena, alloc, exps, budget) {
        Ok(built) => built,
        Err(fault) => return Err(fault),
    };
    let mut numbers = ProofNumbers::new(alloc);
    Ok(export_proof(rt, alloc, graph, pass, &arena, &mut numbers, built)?)
}
