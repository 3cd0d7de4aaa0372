//! Making the proofs that refutations stand for, before an operation is run over them.
ghost use Rattle.std.specs.Prelude.{◌≡◌, IfOk, map};
ghost use Rattle.std.specs.List.{All};
ghost use Rattle.proof_graph.specs.Graphs.{IsOf};
ghost use Rattle.proof_subst.specs.Benches.{graph_of, IsBenchPassOf};
ghost use Rattle.cut_elim.specs.Desks.{bench_of, IsDeskPassOf};
ghost use Rattle.held_values.specs.Means.{proof_of, sense, Stands, Fits};

use cut_elim::{Desk, DeskPass};
use held_values::{Held, Refutation};
use proof_graph::ProofRef;
use proof_subst::{Bench, BenchPass};
use resolution_import::import;
use std::alloc::{AllocError, Global};
use std::sync::Wait;
use tptp_problem::clauses;

// The proof that a refutation stands for, in the graph of the bench.
fn make_proof<R: Wait>(
    rt: &R,
    alloc: Global,
    bench: &Bench,
    pass: &mut BenchPass,
    refutation: &Refutation,
) -> Result<ProofRef, AllocError>
    requires pass { IsBenchPassOf bench.now pass.old }
    requires stands { Stands refutation.now }
    ensures tree { IfOk result (λ r. r.tree ≡ proof_of refutation.now) }
    ensures of { IfOk result (IsOf (graph_of bench.now)) }
    ensures pass { IsBenchPassOf bench.now pass.new }
{
    let clauses = clauses(alloc, &refutation.problem)?;
    match import(
        rt,
        alloc,
        bench,
        pass,
        &clauses,
        refutation.steps.as_slice(),
    ) {
        Ok(proof) => Ok(proof),
        Err(_) => Err(AllocError),
    }
}

// The value that means the same, with its proof made.
fn with_proof<R: Wait>(
    rt: &R,
    alloc: Global,
    bench: &Bench,
    pass: &mut BenchPass,
    value: &Held,
) -> Result<Held, AllocError>
    requires pass { IsBenchPassOf bench.now pass.old }
    requires fits { Fits (graph_of bench.now) value.now }
    ensures sense { IfOk result (λ made. sense made ≡ sense value.now) }
    ensures fits { IfOk result (Fits (graph_of bench.now)) }
    ensures pass { IsBenchPassOf bench.now pass.new }
{
    match value {
        Held::Refutation(refutation) => {
            let proof = make_proof(rt, alloc, bench, pass, refutation)?;
            Ok(Held::Proof(proof))
        }
        _ => value.copy(alloc),
    }
}

/// Whether one of the values is a refutation, whose proof isn't made.
pub fn has_refutation(given: &[Held]) -> bool {
    given
        .iter()
        .any(|value| matches!(value, Held::Refutation(_)))
}

// The same for each of the values, at the bench.
fn each_with_proof<R: Wait>(
    rt: &R,
    alloc: Global,
    bench: &Bench,
    pass: &mut BenchPass,
    given: &[Held],
) -> Result<Vec<Held>, AllocError>
    requires pass { IsBenchPassOf bench.now pass.old }
    requires fits { All (Fits (graph_of bench.now)) given.now }
    ensures senses { IfOk result (λ made. map sense made.items ≡ map sense given.now) }
    ensures fits { IfOk result (λ made. All (Fits (graph_of bench.now)) made.items) }
    ensures pass { IsBenchPassOf bench.now pass.new }
{
    let mut made = Vec::with_capacity(alloc, given.len())?;
    for value in given {
        made.push(with_proof(rt, alloc, bench, pass, value)?)?;
    }
    Ok(made)
}

/// Values that mean the same, with the proof made that each refutation among them stands for. It is put into the graph of the desk.
pub fn with_proofs<R: Wait>(
    rt: &R,
    alloc: Global,
    desk: &Desk,
    pass: &mut DeskPass,
    given: &[Held],
) -> Result<Vec<Held>, AllocError>
    requires pass { IsDeskPassOf desk.now pass.old }
    requires fits { All (Fits (graph_of (bench_of desk.now))) given.now }
    ensures senses { IfOk result (λ made. map sense made.items ≡ map sense given.now) }
    ensures fits { IfOk result (λ made. All (Fits (graph_of (bench_of desk.now))) made.items) }
    ensures pass { IsDeskPassOf desk.now pass.new }
{
    each_with_proof(rt, alloc, desk.bench(), Desk::bench_pass(pass), given)
}
