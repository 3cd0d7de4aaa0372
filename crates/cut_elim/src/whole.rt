//! The elimination of cuts without a budget.
ghost use Rattle.std.specs.Prelude.{◌≡◌, ◌<◌, ◌≤◌, ◌-◌, ◌^◌, ℕ, min, Some, IfOk};
ghost use mathlib.Core.List.{IsPrefix};
ghost use Rattle.proof_trees.specs.Trees.{Tree as Proof, concl, IsCutFree, IsValid};
ghost use Rattle.proof_trees.specs.Conclusions.{HasFormedEnd};
ghost use Rattle.proof_graph.specs.Graphs.{IsOf};
ghost use Rattle.proof_subst.specs.Benches.{graph_of, pass_in, images_in, arena_in, IsBenchPassOf, Extends as ExtendsBench};
ghost use Rattle.cut_laws.specs.Elimination.{elimination, Reaches};
ghost use Rattle.arena_cells.specs.Standing.{tree_at, IsTreeAt};
ghost use Rattle.arena_cuts.specs.Whole.{ReducesTo};
ghost use Rattle.cut_elim.specs.Desks.{bench_of, pass_in as bench_pass_in, eliminations_in, HasElimination, IsDeskPassOf, Extends as ExtendsDesk};
ghost use Rattle.cut_elim.specs.Eliminations.{IsReduced};
ghost use Rattle.cut_elim.specs.Whole.{IsWhole};

use crate::desk::{Desk, DeskPass};
use crate::eliminating::eliminate;
use crate::known::Reduced;
use arena_cuts::{ElimFault, Steps, eliminate_whole_in};
use number_hash::ByNumber;
use proof_graph::ProofRef;
use proof_subst::{Bench, BenchPass, make_room, number_of, proof_at};
use std::alloc::{AllocError, Global};
use std::collections::HashMap;
use std::sync::Wait;
use std::sync::ledger::Ledger;
use std::thread::Threads;

// What the tree of a proof comes to, in the arena of the pass.
#[tactic(auto, using(proof_subst::proofs::Passes::pass_stays))]
fn whole_tree<L: Ledger>(
    alloc: Global,
    bench: &Bench,
    pass: &mut BenchPass,
    proof: &ProofRef,
    steps: &mut Steps<L>,
) -> Result<u32, AllocError>
    requires pass_of { IsBenchPassOf bench.now pass.old }
    requires of { IsOf (graph_of bench.now) proof.now }
    ensures reduced { IfOk result (λ number. ReducesTo proof.now.tree (tree_at (arena_in pass.new) number)) }
    ensures there { IfOk result (λ number. IsTreeAt (arena_in pass.new) number) }
    ensures formed { IfOk result (λ number. HasFormedEnd (tree_at (arena_in pass.new) number)) }
    ensures graph_stays { pass_in pass.new ≡ pass_in pass.old }
    ensures images_stay { images_in pass.new ≡ images_in pass.old }
    ensures pass_stays { IsBenchPassOf bench.now pass.new }
{
    proof.known();
    let Ok(number) = number_of(alloc, bench, pass, proof) else {
        return Err(AllocError);
    };
    let arena = Bench::arena(pass);
    let mut table = HashMap::with_hasher(alloc, ByNumber);
    eliminate_whole_in(arena, alloc, &mut table, number, steps)
}

// What a proof that takes more contractions than a budget can allow comes to, by way of the arena of the pass, which is given up where it has
// become much.
fn compute_whole<R: Wait, L: Ledger>(
    rt: &R,
    alloc: Global,
    bench: &Bench,
    pass: &mut BenchPass,
    proof: &ProofRef,
    steps: &mut Steps<L>,
) -> Result<Reduced, AllocError>
    requires pass_of { IsBenchPassOf bench.now pass.old }
    requires of { IsOf (graph_of bench.now) proof.now }
    requires beyond { (k : ℕ) (u : Proof) → Reaches proof.now.tree k u → 2 ^ 64 ≤ k }
    ensures whole { IfOk result (IsWhole (graph_of bench.now) proof.now) }
    ensures images_stay { images_in pass.new ≡ images_in pass.old }
    ensures extends { ExtendsBench bench.now pass.old pass.new }
{
    proof.known();
    let Ok(number) = whole_tree(alloc, bench, pass, proof, steps) else {
        make_room(alloc, bench, pass);
        return Err(AllocError);
    };
    let answer = proof_at(rt, alloc, bench, pass, number);
    make_room(alloc, bench, pass);
    match answer {
        Ok(proof) => Ok(Reduced {
            proof,
            reductions: u64::MAX,
        }),
        Err(fault) => Err(fault),
    }
}

// A number of contractions is one of its type.
fn see_number(reductions: u64)
    ensures { reductions < 2 ^ 64 }
{
    let _reductions = reductions;
}

// What is known of a proof is all of its elimination.
fn answer_known(desk: &Desk, proof: &ProofRef, known: Reduced) -> Reduced
    requires { IsReduced (graph_of (bench_of desk.now)) proof.now known }
    ensures whole { IsWhole (graph_of (bench_of desk.now)) proof.now result }
    ensures same { result ≡ known }
{
    let (_desk, _proof) = (desk, proof);
    see_number(known.reductions);
    known
}

// The elimination in a proof that the table of the desk hasn't: within the greatest budget, and where that doesn't suffice, without one. The
// budget is a parameter, since a proof about a numeral would count it down.
fn eliminate_unknown<R: Wait + Threads, L: Ledger>(
    rt: &R,
    alloc: Global,
    desk: &Desk,
    pass: &mut DeskPass,
    proof: &ProofRef,
    budget: u64,
    steps: &mut Steps<L>,
) -> Result<Reduced, AllocError>
    requires pass_of { IsDeskPassOf desk.now pass.old }
    requires of { IsOf (graph_of (bench_of desk.now)) proof.now }
    requires greatest { 2 ^ 64 - 1 ≤ budget }
    ensures whole { IfOk result (IsWhole (graph_of (bench_of desk.now)) proof.now) }
    ensures noted { (k : ℕ) (u : Proof) → Reaches proof.now.tree k u → k < 2 ^ 64 → IfOk result (λ _. HasElimination pass.new proof.now.number) }
    ensures untouched { IsCutFree proof.now.tree → bench_pass_in pass.new ≡ bench_pass_in pass.old }
    ensures images_stay { images_in (bench_pass_in pass.new) ≡ images_in (bench_pass_in pass.old) }
    ensures eliminations_grown { IsPrefix (eliminations_in pass.old) (eliminations_in pass.new) }
    ensures extends { ExtendsDesk desk.now pass.old pass.new }
{
    match eliminate(rt, alloc, desk, pass, proof, budget, steps) {
        Ok(made) => Ok(made),
        Err(ElimFault::Memory) => Err(AllocError),
        Err(ElimFault::Budget) => {
            let bench_pass = Desk::bench_pass(pass);
            compute_whole(rt, alloc, desk.bench(), bench_pass, proof, steps)
        }
    }
}

/// The elimination of cuts in a proof, without a budget: it always ends (Gentzen's Hauptsatz, 1935). The answer has the proof without cuts
/// that is reached when the first cut in post-order, premises from left to right, gives way to its contraction until no cut is left, and
/// how many contractions led to it, where these are fewer than 2^64; else it has 2^64 - 1, as where there are just so many.
///
/// Parts that the proof shares are worked on once, so far fewer contractions may be made than led to the answer; `steps` counts those that
/// are made. What the elimination came to is noted in the table of the desk where its number is exact. Where the table has it no contraction
/// is made.
pub fn eliminate_all<R: Wait + Threads, L: Ledger>(
    rt: &R,
    alloc: Global,
    desk: &Desk,
    pass: &mut DeskPass,
    proof: &ProofRef,
    steps: &mut Steps<L>,
) -> Result<Reduced, AllocError>
    requires pass_of { IsDeskPassOf desk.now pass.old }
    requires of { IsOf (graph_of (bench_of desk.now)) proof.now }
    ensures reached { IfOk result (λ made. (k : ℕ) × Reaches proof.now.tree k made.proof.tree × (made.reductions ≡ min k (2 ^ 64 - 1))) }
    ensures exact { IfOk result (λ made. made.reductions < 2 ^ 64 - 1 → elimination proof.now.tree made.reductions ≡ Some (made.proof.tree, made.reductions)) }
    ensures of { IfOk result (λ made. IsOf (graph_of (bench_of desk.now)) made.proof) }
    ensures cut_free { IfOk result (λ made. IsCutFree made.proof.tree) }
    ensures valid { IfOk result (λ made. IsValid made.proof.tree) }
    ensures end { IfOk result (λ made. concl made.proof.tree ≡ concl proof.now.tree) }
    ensures noted { (k : ℕ) (u : Proof) → Reaches proof.now.tree k u → k < 2 ^ 64 → IfOk result (λ _. HasElimination pass.new proof.now.number) }
    ensures untouched { IsCutFree proof.now.tree → bench_pass_in pass.new ≡ bench_pass_in pass.old }
    ensures images_stay { images_in (bench_pass_in pass.new) ≡ images_in (bench_pass_in pass.old) }
    ensures eliminations_grown { IsPrefix (eliminations_in pass.old) (eliminations_in pass.new) }
    ensures extends { ExtendsDesk desk.now pass.old pass.new }
    ensures free { HasElimination pass.old proof.now.number → steps.new ≡ steps.old }
{
    proof.known();
    let known = match desk.look_up(rt, alloc, pass, proof) {
        Ok(known) => known,
        Err(fault) => return Err(fault),
    };
    match known {
        Some(known) => Ok(answer_known(desk, proof, known)),
        None => eliminate_unknown(rt, alloc, desk, pass, proof, u64::MAX, steps),
    }
}
