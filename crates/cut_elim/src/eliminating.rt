//! The elimination of cuts.
ghost use Rattle.std.specs.Prelude.{◌≡◌, ◌+◌, ◌*◌, ◌<◌, ◌≤◌, ℕ, Some, None, IfOk, IfErr};
ghost use mathlib.Core.List.{IsPrefix};
ghost use Rattle.proof_trees.specs.Trees.{none, more, concl, below, IsCutFree, IsValid};
ghost use Rattle.proof_graph.specs.Graphs.{IsOf, history};
ghost use Rattle.proof_subst.specs.Benches.{graph_of, pass_in, images_in, arena_in, IsBenchPassOf, Extends as ExtendsBench};
ghost use Rattle.cut_laws.specs.Elimination.{elimination};
ghost use Rattle.arena_cells.specs.Standing.{Extends, tree_at, IsTreeAt};
ghost use Rattle.proof_trees.specs.Conclusions.{HasFormedEnd};
ghost use Rattle.cut_elim.specs.Desks.{bench_of, pass_in as bench_pass_in, eliminations_in, HasElimination, IsDeskPassOf, Extends as ExtendsDesk};
ghost use Rattle.cut_elim.specs.Branches.{AreBoth};
ghost use Rattle.cut_elim.specs.Eliminations.{IsReduced};

use crate::desk::{Desk, DeskPass};
use crate::forking::{Both, Branch, start, take_both};
use crate::known::Reduced;
use crate::weighing::are_worth_a_fork;
use arena::{Arena, Parts};
use arena_cuts::{ElimFault, Reduced as Numbered, Steps, eliminate_in};
use arena_graph::see_formed;
use arena_proofs::put_node;
use cut_laws::laws;
use number_hash::ByNumber;
use proof_graph::{Graph, ProofRef};
use proof_subst::{Bench, BenchPass, make_room, number_of, proof_at};
use std::alloc::Global;
use std::collections::HashMap;
use std::marker::Brand;
use std::sync::Wait;
use std::sync::ledger::{Blank, Ledger};
use std::thread::Threads;

// The elimination in the tree of a proof, in the arena of the pass.
#[tactic(auto, using(proof_subst::proofs::Passes::pass_stays))]
fn eliminate_tree<L: Ledger>(
    alloc: Global,
    bench: &Bench,
    pass: &mut BenchPass,
    proof: &ProofRef,
    budget: u64,
    steps: &mut Steps<L>,
) -> Result<Numbered, ElimFault>
    requires pass_of { IsBenchPassOf bench.now pass.old }
    requires of { IsOf (graph_of bench.now) proof.now }
    ensures ok { IfOk result (λ made. elimination proof.now.tree budget ≡ Some (tree_at (arena_in pass.new) made.proof, made.reductions)) }
    ensures budget { result ≡ Err ElimFault.Budget → elimination proof.now.tree budget ≡ None }
    ensures there { IfOk result (λ made. IsTreeAt (arena_in pass.new) made.proof) }
    ensures formed { IfOk result (λ made. HasFormedEnd (tree_at (arena_in pass.new) made.proof)) }
    ensures graph_stays { pass_in pass.new ≡ pass_in pass.old }
    ensures images_stay { images_in pass.new ≡ images_in pass.old }
    ensures pass_stays { IsBenchPassOf bench.now pass.new }
    ensures counted_ok { IfOk result (λ made. steps.new ≤ steps.old + made.reductions) }
    ensures counted { steps.new ≤ steps.old + budget }
    ensures rises { steps.old ≤ steps.new }
    ensures least { steps.new ≡ steps.old → IfOk result (λ made. made.reductions ≡ 0) }
{
    laws::results();
    proof.known();
    let Ok(number) = number_of(alloc, bench, pass, proof) else {
        return Err(ElimFault::Memory);
    };
    let arena = Bench::arena(pass);
    let mut table = HashMap::with_hasher(alloc, ByNumber);
    eliminate_in(arena, alloc, &mut table, number, budget, steps)
}

// The elimination in a proof of two premises, after that in each of them.
fn eliminate_below<L: Ledger>(
    alloc: Global,
    graph: &Graph,
    arena: &mut Arena,
    proof: &ProofRef,
    left: &ProofRef,
    right: &ProofRef,
    both: Both,
    budget: u64,
    steps: &mut Steps<L>,
) -> Result<Numbered, ElimFault>
    requires of { IsOf graph.now proof.now }
    requires premises { below proof.now.tree ≡ more left.now.tree (more right.now.tree none) }
    requires both { AreBoth arena.old left.now.tree right.now.tree budget both }
    ensures ok { IfOk result (λ made. elimination proof.now.tree budget ≡ Some (tree_at arena.new made.proof, made.reductions)) }
    ensures budget { result ≡ Err ElimFault.Budget → elimination proof.now.tree budget ≡ None }
    ensures there { IfOk result (λ made. IsTreeAt arena.new made.proof) }
    ensures formed { IfOk result (λ made. HasFormedEnd (tree_at arena.new made.proof)) }
    ensures grown { Extends arena.old arena.new }
    ensures counted_ok { IfOk result (λ made. steps.new + (both.left.reductions + both.right.reductions) ≤ steps.old + made.reductions) }
    ensures counted { steps.new + (both.left.reductions + both.right.reductions) ≤ steps.old + budget }
    ensures rises { steps.old ≤ steps.new }
    ensures least { steps.new ≡ steps.old → IfOk result (λ made. made.reductions ≡ both.left.reductions + both.right.reductions) }
{
    laws::forks();
    laws::budgets();
    laws::results();
    proof.known();
    let _left = left;
    let _right = right;
    let root = graph.get(proof);
    see_formed(&root.end);
    let premises = Parts::Two(both.left.proof, both.right.proof);
    let Ok(number) = put_node(arena, alloc, &root.rule, &root.end, premises) else {
        return Err(ElimFault::Memory);
    };
    let above = both.left.reductions + both.right.reductions;
    let mut table = HashMap::with_hasher(alloc, ByNumber);
    match eliminate_in(arena, alloc, &mut table, number, budget - above, steps) {
        Ok(last) => Ok(Numbered {
            proof: last.proof,
            reductions: above + last.reductions,
        }),
        Err(fault) => Err(fault),
    }
}

// The elimination in the tree of a proof of two premises, with the work on these at once, in the arena of the pass: the left one in a thread
// of its own, which counts in the ledger. Where no thread can be started all is done here.
#[tactic(auto, using(proof_subst::proofs::Passes::pass_stays))]
fn eliminate_forked<R: Wait + Threads, L: Ledger, M: Ledger + Send + 'static>(
    rt: &R,
    alloc: Global,
    bench: &Bench,
    pass: &mut BenchPass,
    proof: &ProofRef,
    left: &ProofRef,
    right: &ProofRef,
    budget: u64,
    steps: &mut Steps<L>,
    ledger: Blank,
) -> Result<Numbered, ElimFault>
    requires pass_of { IsBenchPassOf bench.now pass.old }
    requires of { IsOf (graph_of bench.now) proof.now }
    requires left { IsOf (graph_of bench.now) left.now }
    requires right { IsOf (graph_of bench.now) right.now }
    requires premises { below proof.now.tree ≡ more left.now.tree (more right.now.tree none) }
    requires name { ledger.name ≡ M.name }
    requires parts { ledger.parts ≡ M.parts }
    requires one_part { 0 < ledger.parts }
    ensures ok { IfOk result (λ made. elimination proof.now.tree budget ≡ Some (tree_at (arena_in pass.new) made.proof, made.reductions)) }
    ensures budget { result ≡ Err ElimFault.Budget → elimination proof.now.tree budget ≡ None }
    ensures there { IfOk result (λ made. IsTreeAt (arena_in pass.new) made.proof) }
    ensures formed { IfOk result (λ made. HasFormedEnd (tree_at (arena_in pass.new) made.proof)) }
    ensures graph_stays { pass_in pass.new ≡ pass_in pass.old }
    ensures images_stay { images_in pass.new ≡ images_in pass.old }
    ensures pass_stays { IsBenchPassOf bench.now pass.new }
    ensures counted_ok { IfOk result (λ made. steps.new ≤ steps.old + made.reductions) }
    ensures counted { steps.new ≤ steps.old + 2 * budget }
    ensures rises { steps.old ≤ steps.new }
    ensures least { steps.new ≡ steps.old → IfOk result (λ made. made.reductions ≡ 0) }
{
    laws::forks();
    let graph = bench.graph();
    let Ok(started) = start::<R, M>(rt, alloc, graph, left, budget, ledger) else {
        return Err(ElimFault::Memory);
    };
    let Some(thread) = started else {
        return eliminate_tree(alloc, bench, pass, proof, budget, steps);
    };
    let second = eliminate_tree(alloc, bench, pass, right, budget, steps);
    let Branch {
        arena: from,
        made: first,
        steps: counted,
    } = thread.join(rt);
    steps.add(counted);
    let both = match (first, second) {
        (Ok(first), Ok(second)) => Both {
            left: first,
            right: second,
        },
        (Err(fault), _) => return Err(fault),
        (_, Err(fault)) => return Err(fault),
    };
    let arena = Bench::arena(pass);
    let both = match take_both(alloc, arena, &from, left, right, both, budget) {
        Ok(both) => both,
        Err(fault) => return Err(fault),
    };
    eliminate_below(alloc, graph, arena, proof, left, right, both, budget, steps)
}

// The elimination in the tree of a proof, in the arena of the pass. Where both premises of its last inference have enough work, they are
// worked on at once. In a branch of the work no other fork is made.
fn eliminate_number<R: Wait + Threads, L: Ledger>(
    rt: &R,
    alloc: Global,
    bench: &Bench,
    pass: &mut BenchPass,
    proof: &ProofRef,
    budget: u64,
    steps: &mut Steps<L>,
) -> Result<Numbered, ElimFault>
    requires pass_of { IsBenchPassOf bench.now pass.old }
    requires of { IsOf (graph_of bench.now) proof.now }
    ensures ok { IfOk result (λ made. elimination proof.now.tree budget ≡ Some (tree_at (arena_in pass.new) made.proof, made.reductions)) }
    ensures budget { result ≡ Err ElimFault.Budget → elimination proof.now.tree budget ≡ None }
    ensures there { IfOk result (λ made. IsTreeAt (arena_in pass.new) made.proof) }
    ensures formed { IfOk result (λ made. HasFormedEnd (tree_at (arena_in pass.new) made.proof)) }
    ensures graph_stays { pass_in pass.new ≡ pass_in pass.old }
    ensures images_stay { images_in pass.new ≡ images_in pass.old }
    ensures pass_stays { IsBenchPassOf bench.now pass.new }
    ensures counted_ok { IfOk result (λ made. steps.new ≤ steps.old + made.reductions) }
    ensures counted { steps.new ≤ steps.old + 2 * budget }
    ensures rises { steps.old ≤ steps.new }
    ensures least { steps.new ≡ steps.old → IfOk result (λ made. made.reductions ≡ 0) }
{
    match proof.premises() {
        [left, right] if are_worth_a_fork(alloc, left, right) => {
            let ledger = Blank::new(1);
            eliminate_forked::<R, L, Brand>(
                rt, alloc, bench, pass, proof, left, right, budget, steps, ledger,
            )
        }
        _ => eliminate_tree(alloc, bench, pass, proof, budget, steps),
    }
}

// The elimination in a proof without cuts: the proof itself.
#[tactic(auto, using(cut_laws::proofs::Unrolled::finished))]
fn itself(proof: &ProofRef) -> Result<Reduced, ElimFault>
    requires { IsCutFree proof.now.tree }
    ensures proof { IfOk result (λ made. made.proof ≡ proof.now) }
    ensures none { IfOk result (λ made. made.reductions ≡ 0) }
    ensures is { (budget : ℕ) → elimination proof.now.tree budget ≡ Some (proof.now.tree, 0) }
    ensures memory { IfErr result (λ fault. fault ≡ ElimFault.Memory) }
{
    match proof.keep() {
        Ok(proof) => Ok(Reduced {
            proof,
            reductions: 0,
        }),
        Err(_) => Err(ElimFault::Memory),
    }
}

// The elimination in a proof, by way of the arena of the pass, which is given up where it has become much. A proof without cuts isn't taken
// apart.
#[tactic(auto, using(crate::proofs::CutCounts::none_counted))]
fn compute<R: Wait + Threads, L: Ledger>(
    rt: &R,
    alloc: Global,
    bench: &Bench,
    pass: &mut BenchPass,
    proof: &ProofRef,
    budget: u64,
    steps: &mut Steps<L>,
) -> Result<Reduced, ElimFault>
    requires pass_of { IsBenchPassOf bench.now pass.old }
    requires of { IsOf (graph_of bench.now) proof.now }
    ensures reduced { IfOk result (IsReduced (graph_of bench.now) proof.now) }
    ensures ok { IfOk result (λ made. elimination proof.now.tree budget ≡ Some (made.proof.tree, made.reductions)) }
    ensures budget { result ≡ Err ElimFault.Budget → elimination proof.now.tree budget ≡ None }
    ensures unchanged { result ≡ Err ElimFault.Budget → history (pass_in pass.new) ≡ history (pass_in pass.old) }
    ensures images_stay { images_in pass.new ≡ images_in pass.old }
    ensures untouched { IsCutFree proof.now.tree → pass.new ≡ pass.old }
    ensures extends { ExtendsBench bench.now pass.old pass.new }
    ensures counted_ok { IfOk result (λ made. steps.new ≤ steps.old + made.reductions) }
    ensures counted { steps.new ≤ steps.old + 2 * budget }
    ensures least { steps.new ≡ steps.old → IfOk result (λ made. made.reductions ≡ 0) }
{
    if proof.counts().cuts == 0 {
        return itself(proof);
    }
    laws::budgets();
    laws::results();
    proof.known();
    let made = match eliminate_number(rt, alloc, bench, pass, proof, budget, steps) {
        Ok(made) => made,
        Err(fault) => {
            make_room(alloc, bench, pass);
            return Err(fault);
        }
    };
    let answer = proof_at(rt, alloc, bench, pass, made.proof);
    make_room(alloc, bench, pass);
    match answer {
        Ok(proof) => Ok(Reduced {
            proof,
            reductions: made.reductions,
        }),
        Err(_) => Err(ElimFault::Memory),
    }
}

// What is known of a proof, within a budget.
fn answer(proof: &ProofRef, known: Reduced, budget: u64) -> Result<Reduced, ElimFault>
    requires { elimination proof.now.tree known.reductions ≡ Some (known.proof.tree, known.reductions) }
    ensures ok { IfOk result (λ made. elimination proof.now.tree budget ≡ Some (made.proof.tree, made.reductions)) }
    ensures budget { result ≡ Err ElimFault.Budget → elimination proof.now.tree budget ≡ None }
    ensures same { IfOk result (λ made. made ≡ known) }
{
    laws::budgets();
    let _proof = proof;
    if budget < known.reductions {
        return Err(ElimFault::Budget);
    }
    Ok(known)
}

/// The elimination of cuts in a proof: the proof without cuts that is reached when the first cut in post-order, premises from left to
/// right, gives way to its contraction until no cut is left. The budget bounds the number of contractions, and `Budget` is answered where
/// a cut is left after so many. Parts that the proof shares are worked on once, so fewer contractions may be made than are counted in the
/// answer; `steps` counts those that are made. What is left in the arena of the pass is given up where it has become much.
///
/// Where both premises of the last inference have much work apart from each other, it is done at once, on the left one in a thread of its
/// own. Each has the whole budget, so up to twice as many contractions may be counted where the budget doesn't suffice.
///
/// What the elimination came to is noted in the table of the desk. Where the table has it no contraction is made, and the answer within
/// each budget follows from what is noted. So where another worker is at the same elimination, by a budget that is no greater, this one waits
/// for it. A proof without cuts is its own elimination, and isn't taken apart.
pub fn eliminate<R: Wait + Threads, L: Ledger>(
    rt: &R,
    alloc: Global,
    desk: &Desk,
    pass: &mut DeskPass,
    proof: &ProofRef,
    budget: u64,
    steps: &mut Steps<L>,
) -> Result<Reduced, ElimFault>
    requires pass_of { IsDeskPassOf desk.now pass.old }
    requires of { IsOf (graph_of (bench_of desk.now)) proof.now }
    ensures ok { IfOk result (λ made. elimination proof.now.tree budget ≡ Some (made.proof.tree, made.reductions)) }
    ensures budget { result ≡ Err ElimFault.Budget → elimination proof.now.tree budget ≡ None }
    ensures of { IfOk result (λ made. IsOf (graph_of (bench_of desk.now)) made.proof) }
    ensures cut_free { IfOk result (λ made. IsCutFree made.proof.tree) }
    ensures valid { IfOk result (λ made. IsValid made.proof.tree) }
    ensures end { IfOk result (λ made. concl made.proof.tree ≡ concl proof.now.tree) }
    ensures noted { IfOk result (λ _. HasElimination pass.new proof.now.number) }
    ensures unchanged { result ≡ Err ElimFault.Budget → history (pass_in (bench_pass_in pass.new)) ≡ history (pass_in (bench_pass_in pass.old)) }
    ensures untouched { IsCutFree proof.now.tree → bench_pass_in pass.new ≡ bench_pass_in pass.old }
    ensures images_stay { images_in (bench_pass_in pass.new) ≡ images_in (bench_pass_in pass.old) }
    ensures eliminations_grown { IsPrefix (eliminations_in pass.old) (eliminations_in pass.new) }
    ensures extends { ExtendsDesk desk.now pass.old pass.new }
    ensures counted_ok { IfOk result (λ made. steps.new ≤ steps.old + made.reductions) }
    ensures counted { steps.new ≤ steps.old + 2 * budget }
    ensures free { HasElimination pass.old proof.now.number → steps.new ≡ steps.old }
{
    laws::results();
    proof.known();
    let begun = desk.begun().begin(rt, proof.number(), budget);
    let known = match desk.look_up(rt, alloc, pass, proof) {
        Ok(known) => known,
        Err(_) => {
            desk.begun().end(rt, begun);
            return Err(ElimFault::Memory);
        }
    };
    if let Some(known) = known {
        desk.begun().end(rt, begun);
        return answer(proof, known, budget);
    }
    let bench_pass = Desk::bench_pass(pass);
    let made = match compute(rt, alloc, desk.bench(), bench_pass, proof, budget, steps) {
        Ok(made) => made,
        Err(fault) => {
            desk.begun().end(rt, begun);
            return Err(fault);
        }
    };
    let noted = desk.note(rt, pass, proof, &made);
    desk.begun().end(rt, begun);
    match noted {
        Ok(()) => Ok(made),
        Err(_) => Err(ElimFault::Memory),
    }
}
