//! What operations come to that only read the values that they are given.
ghost use Rattle.std.specs.Prelude.{◌≡◌, [], ◌∷◌, IfOk};
ghost use Rattle.proof_graph.specs.declared.graph.Graph.{Graph as GraphMeaning};
ghost use Rattle.proof_graph.specs.Graphs.{IsOf};
ghost use Rattle.operation_laws.specs.Answers.{lacking};
ghost use Rattle.operation_laws.specs.Given.{problem_given as problem_found};
ghost use Rattle.operation_laws.specs.Running.{over, sizes_of, compares, run};
ghost use Rattle.held_values.specs.Means.{sense, Fits};
ghost use Rattle.operations.specs.Means.{made_of, Comes, ComesTo};

use crate::answers::{Absent, Made, Ran};
use crate::given::{ToShow, problem_given, proof_given, shown_given};
use exp_tree::write_nodes;
use held_values::Held;
use job_lang::Op;
use job_words::{Steps, Utf8Text};
use proof_graph::{Graph, ProofRef};
use proof_steps::{cuts, nodes, quants, size, steps};
use std::alloc::{AllocError, Global};

/// The canonical steps of the proof that is named, or the flat list of the expansion trees.
#[tactic(auto, using(crate::proofs::Givings::proofless_comes, crate::proofs::Lacking::lists_lacks))]
pub fn show(graph: &Graph, alloc: Global, of: &Utf8Text, value: &Held) -> Ran
    requires { Fits graph.now value.now }
    ensures { ComesTo graph.now result (run (Op.Show of.now) (sense value.now ∷ [])) }
{
    match shown_given(alloc, of, value) {
        Ok(ToShow::Proof(proof)) => match steps(alloc, graph, proof) {
            Ok(list) => Ran::Done(Made::Steps(Steps::from_vec(list))),
            Err(_) => Ran::Lacking,
        },
        Ok(ToShow::Expansion(checked)) => match write_nodes(alloc, checked.tree()) {
            Ok(flat) => Ran::Done(Made::Nodes(flat)),
            Err(_) => Ran::Lacking,
        },
        Err(absent) => Ran::from(absent),
    }
}

fn sizes(graph: &Graph, alloc: Global, proof: &ProofRef) -> Result<Made, AllocError>
    requires { IsOf graph.now proof.now }
    ensures { IfOk result (λ made. made_of made ≡ sizes_of proof.now.tree) }
{
    let cuts = cuts(alloc, graph, proof)?;
    let nodes = nodes(alloc, graph, proof)?;
    let quants = quants(alloc, graph, proof)?;
    let size = size(alloc, graph, proof)?;
    Ok(Made::Sizes {
        cuts,
        nodes,
        quants,
        size,
    })
}

/// The sizes of the proof that is named.
#[tactic(auto, using(crate::proofs::Givings::proofless_comes))]
pub fn measure(graph: &Graph, alloc: Global, of: &Utf8Text, value: &Held) -> Ran
    requires { Fits graph.now value.now }
    ensures { ComesTo graph.now result (run (Op.Measure of.now) (sense value.now ∷ [])) }
{
    let proof = match proof_given(alloc, of, value) {
        Ok(proof) => proof,
        Err(absent) => return Ran::from(absent),
    };
    match sizes(graph, alloc, proof) {
        Ok(made) => Ran::Done(made),
        Err(_) => Ran::Lacking,
    }
}

// Whether a proof proves the problem that is named.
#[tactic(auto, using(crate::proofs::Givings::absent_comes))]
fn compared(graph: &Graph, alloc: Global, proof: &ProofRef, problem: &Utf8Text, value: &Held) -> Ran
    requires { IsOf graph.now proof.now }
    ensures { Comes graph.now result (over (problem_found problem.now (sense value.now)) (compares proof.now.tree)) }
{
    match problem_given(alloc, problem, value) {
        Ok(problem) => Ran::Done(Made::Proves(graph.get(proof).end.subset(&problem.sequent))),
        Err(absent) => Ran::from(absent),
    }
}

// The fault of the field for a problem, or want of memory, where the proof's job lacked it, or there was none for the proof.
#[tactic(auto, using(crate::proofs::Givings::absent_comes))]
fn behind_want(alloc: Global, problem: &Utf8Text, value: &Held) -> Ran
    ensures { (g : GraphMeaning) → Comes g result (over (problem_found problem.now (sense value.now)) (λ _. lacking)) }
{
    match problem_given(alloc, problem, value) {
        Ok(_) => Ran::Lacking,
        Err(absent) => Ran::from(absent),
    }
}

/// Whether the proof that is named proves the problem that is named.
#[tactic(auto, using(crate::proofs::Givings::first_comes, crate::proofs::Givings::first_refused, crate::proofs::Givings::first_unnamed, crate::proofs::Givings::first_wanting, crate::proofs::Givings::first_unmade, crate::proofs::Lacking::compares_lacks))]
pub fn prove(
    graph: &Graph,
    alloc: Global,
    proof: &Utf8Text,
    proof_value: &Held,
    problem: &Utf8Text,
    problem_value: &Held,
) -> Ran
    requires { Fits graph.now proof_value.now }
    ensures { ComesTo graph.now result (run (Op.Proves proof.now problem.now) (sense proof_value.now ∷ sense problem_value.now ∷ [])) }
{
    match proof_given(alloc, proof, proof_value) {
        Ok(proof) => compared(graph, alloc, proof, problem, problem_value),
        Err(Absent::Refused(refusal)) => Ran::Refused(refusal),
        Err(Absent::Unnamed) => Ran::Unnamed,
        Err(Absent::Wanting) => behind_want(alloc, problem, problem_value),
        Err(Absent::Unmade) => behind_want(alloc, problem, problem_value),
    }
}
