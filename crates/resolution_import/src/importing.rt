//! The proof that a refutation stands for.
ghost use Rattle.std.specs.Prelude.{◌≡◌, ◌≢◌, Ok, IfOk, IfErr};
ghost use Rattle.std.specs.List.{All};
ghost use Rattle.fol.specs.Formed.{IsFormed};
ghost use Rattle.proof_trees.specs.Trees.{concl, IsValid};
ghost use Rattle.proof_graph.specs.Graphs.{IsOf, history};
ghost use Rattle.arena_cells.specs.Standing.{tree_at, IsTreeAt};
ghost use Rattle.proof_subst.specs.Benches.{graph_of, pass_in, images_in, arena_in, IsBenchPassOf, Extends};
ghost use Rattle.refutations.specs.Clauses.{IsClauseOf, closure_of, closures};
ghost use Rattle.refutations.specs.Refutations.{refutation, AreFormedSteps};
ghost use Rattle.arena_refutations.specs.Importing.{IsRefuted, Refutes};
ghost use Rattle.resolution_import.specs.Importing.{Imports};

use arena_refutations::{ImportFault, clauses_of_refutation, prove_last};
use proof_graph::ProofRef;
use proof_subst::{Bench, BenchPass, make_room, proof_at};
use refutations::{Clause, ResStep, laws};
use std::alloc::{AllocError, Global};
use std::sync::Wait;

// The clauses of all steps, in the arena of the pass, or the first faulty step.
#[tactic(auto, using(proof_subst::proofs::Passes::pass_stays))]
fn find_clauses(
    alloc: Global,
    bench: &Bench,
    pass: &mut BenchPass,
    clauses: &[Clause],
    steps: &[ResStep],
) -> Result<Vec<u32>, ImportFault>
    requires pass_of { IsBenchPassOf bench.now pass.old }
    requires clauses { All IsClauseOf clauses.now }
    ensures value { Refutes (λ ns. ns.items) (arena_in pass.new) result clauses.now steps.now }
    ensures graph_stays { pass_in pass.new ≡ pass_in pass.old }
    ensures images_stay { images_in pass.new ≡ images_in pass.old }
    ensures pass_stays { IsBenchPassOf bench.now pass.new }
{
    let _bench = bench;
    clauses_of_refutation(Bench::arena(pass), alloc, clauses, steps)
}

// The tree of the proof, in the arena of the pass, whose steps derive these clauses.
#[tactic(auto, using(proof_subst::proofs::Passes::pass_stays))]
fn find_proof(
    alloc: Global,
    bench: &Bench,
    pass: &mut BenchPass,
    clauses: &[Clause],
    steps: &[ResStep],
    found: &[u32],
) -> Result<u32, AllocError>
    requires pass_of { IsBenchPassOf bench.now pass.old }
    requires clauses { All IsClauseOf clauses.now }
    requires steps { AreFormedSteps steps.now }
    requires found { IsRefuted (arena_in pass.old) clauses.now steps.now found.now }
    ensures tree { IfOk result (λ n. refutation clauses.now steps.now ≡ Ok (tree_at (arena_in pass.new) n)) }
    ensures there { IfOk result (IsTreeAt (arena_in pass.new)) }
    ensures formed { IfOk result (λ _. All (λ c. IsFormed (closure_of c)) clauses.now) }
    ensures graph_stays { pass_in pass.new ≡ pass_in pass.old }
    ensures images_stay { images_in pass.new ≡ images_in pass.old }
    ensures pass_stays { IsBenchPassOf bench.now pass.new }
{
    let _bench = bench;
    prove_last(Bench::arena(pass), alloc, clauses, steps, found)
}

/// The proof in LK that a resolution refutation of these clauses stands for: its end sequent has the closures of the clauses on the left
/// and nothing on the right. An input clause is proved from its closure, a step under a map by substitution in the proof, and a resolution
/// by a cut. Where a step is faulty, the first one is named with its fault: a number that is no clause or no earlier step, an atom that
/// isn't among the positive literals of the one clause and the negative ones of the other, or a last clause that isn't empty. The clauses of
/// all steps are found before the first proof is made, so a faulty refutation leaves the graph as it was. Where no step is faulty, a clause
/// of 2^32 variables or more is refused as want of memory, since no index would fit.
pub fn import<R: Wait>(
    rt: &R,
    alloc: Global,
    bench: &Bench,
    pass: &mut BenchPass,
    clauses: &[Clause],
    steps: &[ResStep],
) -> Result<ProofRef, ImportFault>
    requires pass_of { IsBenchPassOf bench.now pass.old }
    requires clauses { All IsClauseOf clauses.now }
    requires steps { AreFormedSteps steps.now }
    // It is the tree of the last step, or the first faulty step, unless memory runs out.
    ensures exact { Imports result (refutation clauses.now steps.now) }
    ensures valid { IfOk result (λ r. IsValid r.tree) }
    ensures end { IfOk result (λ r. concl r.tree ≡ closures clauses.now) }
    ensures of { IfOk result (IsOf (graph_of bench.now)) }
    // Each step is looked at before the first proof is put into the graph.
    ensures unchanged { IfErr result (λ e. e ≢ ImportFault.Memory → history (pass_in pass.new) ≡ history (pass_in pass.old)) }
    ensures images_stay { images_in pass.new ≡ images_in pass.old }
    ensures extends { Extends bench.now pass.old pass.new }
{
    laws::refutations();
    laws::valid_refutations();
    make_room(alloc, bench, pass);
    let found = find_clauses(alloc, bench, pass, clauses, steps)?;
    let last = find_proof(alloc, bench, pass, clauses, steps, &found)?;
    Ok(proof_at(rt, alloc, bench, pass, last)?)
}
