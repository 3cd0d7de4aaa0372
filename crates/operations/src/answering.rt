//! Answering an operation over the values that its names of jobs stand for.
ghost use Rattle.std.specs.Prelude.{◌≡◌, ◌≢◌, true, length, map, IfSome};
ghost use Rattle.std.specs.List.{All};
ghost use mathlib.Core.List.{IsPrefix};
ghost use Rattle.proof_graph.specs.declared.graph.Graph.{Graph as GraphMeaning};
ghost use Rattle.proof_graph.specs.Graphs.{history};
ghost use Rattle.proof_subst.specs.Benches.{graph_of, pass_in, images_in, IsBenchPassOf};
ghost use Rattle.cut_elim.specs.Desks.{bench_of, pass_in as bench_pass_in, eliminations_in, IsDeskPassOf, Extends as ExtendsDesk};
ghost use Rattle.tptp_problem.specs.ProblemClauses.{IsReadProblem};
ghost use Rattle.job_lang.specs.FormedOps.{IsFormedOp};
ghost use Rattle.operation_laws.specs.Values.{IsSound};
ghost use Rattle.operation_laws.specs.Answers.{product, problem as problem_made};
ghost use Rattle.operation_laws.specs.Given.{names_in};
ghost use Rattle.operation_laws.specs.Running.{run};
ghost use Rattle.held_values.specs.Means.{sense, Fits, IsAnsweredTo};
ghost use Rattle.operations.specs.Means.{a_graph, a_bench, a_desk, needs, Comes, ComesTo};
ghost use Rattle.operations.specs.Noted.{IsNoted, is_done, is_reduced};
ghost use Rattle.operations.specs.Claimed.{IsClaimedAnswer};
ghost use Rattle.operations.specs.Runs.{Runs, RunsAtDesk};

use crate::answers::{Made, Ran};
use crate::building::build_from;
use crate::concluding::conclude;
use crate::defining::define_in;
use crate::expanding::check_expansion;
use crate::extracting::extract_of;
use crate::given::{first, second};
use crate::instancing::herbrand_in;
use crate::interpolating::interpolate_in;
use crate::introducing::introduce_in;
use crate::proofs::{eliminate_all_in, eliminate_in, substitute_in};
use crate::readings::{measure, prove, show};
use crate::refuting::refute;
use crate::satisfying::satisfy;
use crate::saturating::prove_in;
use crate::searching::prove_sequent;
use crate::unfolding::{admit_with, unfold_in};
use cut_elim::{Desk, DeskPass};
use held_values::Held;
use job_lang::Op;
use operation_laws::laws::claims;
use proof_graph::Graph;
use proof_subst::{Bench, BenchPass};
use reply_lines::Outcome;
use std::alloc::Global;
use std::marker::Brand;
use std::sync::Wait;
use std::sync::ledger::Blank;
use std::thread::Threads;
use tptp_problem::Problem;

// A problem, as it is read.
fn hold(problem: &Problem) -> Ran
    requires { IsReadProblem problem.now }
    ensures { (g : GraphMeaning) → Comes g result (product (problem_made problem.now)) }
{
    match problem.copy() {
        Ok(problem) => Ran::Done(Made::Problem(problem)),
        Err(_) => Ran::Lacking,
    }
}

// What running an operation comes to that puts nothing into the graph.
fn run_reading(graph: &Graph, alloc: Global, op: &Op, given: &[Held]) -> Ran
    requires needs { needs op.now ≡ a_graph }
    requires count { length given.now ≡ length (names_in op.now) }
    requires op { IsFormedOp op.now }
    requires fits { All (Fits graph.now) given.now }
    ensures { ComesTo graph.now result (run op.now (map sense given.now)) }
{
    match op {
        Op::Problem { problem } => hold(problem),
        Op::Proves { proof, problem } => {
            prove(graph, alloc, proof, first(given), problem, second(given))
        }
        Op::Show { of } => show(graph, alloc, of, first(given)),
        Op::Measure { proof } => measure(graph, alloc, proof, first(given)),
        Op::Sat { problem } => satisfy(alloc, problem, first(given)),
        Op::Prove { problem, rounds } => prove_in(alloc, problem, first(given), rounds.get()),
        Op::Define {
            symbol,
            vars,
            body,
            using,
        } => define_in(alloc, symbol, vars, body, using, given),
        Op::Expansion { flat, budget } => check_expansion(alloc, flat, budget.get()),
        Op::Expand { proof, budget } => {
            extract_of(graph, alloc, proof, first(given), budget.get())
        }
        Op::Herbrand { proof, budget } => {
            herbrand_in(graph, alloc, proof, first(given), budget.get())
        }
        _ => unreachable!(),
    }
}

// What running an operation comes to that makes proofs at the bench.
fn run_making<R: Wait + Threads + Sync>(
    rt: &R,
    alloc: Global,
    bench: &Bench,
    pass: &mut BenchPass,
    op: &Op,
    given: &[Held],
) -> Ran
    requires pass { IsBenchPassOf bench.now pass.old }
    requires needs { needs op.now ≡ a_bench }
    requires count { length given.now ≡ length (names_in op.now) }
    requires op { IsFormedOp op.now }
    requires fits { All (Fits (graph_of bench.now)) given.now }
    ensures { Runs bench.now pass.old pass.new result (run op.now (map sense given.now)) }
{
    match op {
        Op::Lk { steps, using } => admit_with(rt, alloc, bench, pass, steps, using, given),
        Op::Unfold { proof } => unfold_in(rt, alloc, bench, pass, proof, first(given)),
        Op::Subst { proof, map } => {
            substitute_in(rt, alloc, bench, pass, proof, first(given), map.as_subst())
        }
        Op::Resolution { problem, steps } => {
            let value = first(given);
            refute(rt, alloc, bench, pass, problem, value, steps.as_slice())
        }
        Op::Tautology { sequent, budget } => {
            prove_sequent(rt, alloc, bench, pass, sequent, budget.get())
        }
        Op::Fromexp { expansion, budget } => {
            let value = first(given);
            build_from(rt, alloc, bench, pass, expansion, value, budget.get())
        }
        Op::Interpolate {
            proof,
            first: one,
            second: two,
            budget,
        } => {
            let value = first(given);
            let budget = budget.get();
            interpolate_in(rt, alloc, bench, pass, proof, value, one, two, budget)
        }
        Op::Cutintro {
            proof,
            width,
            budget,
        } => {
            let value = first(given);
            introduce_in(rt, alloc, bench, pass, proof, value, width, budget.get())
        }
        _ => unreachable!(),
    }
}

// What running an operation over the values comes to.
fn run_given<R: Wait + Threads + Sync>(
    rt: &R,
    alloc: Global,
    desk: &Desk,
    pass: &mut DeskPass,
    op: &Op,
    given: &[Held],
) -> Ran
    requires pass { IsDeskPassOf desk.now pass.old }
    requires count { length given.now ≡ length (names_in op.now) }
    requires op { IsFormedOp op.now }
    requires fits { All (Fits (graph_of (bench_of desk.now))) given.now }
    ensures runs { RunsAtDesk desk.now pass.old pass.new result (run op.now (map sense given.now)) }
    ensures noted { is_done result ≡ true → IsNoted op.now given.now pass.new }
    ensures eliminations_only { needs op.now ≢ a_desk → eliminations_in pass.new ≡ eliminations_in pass.old }
{
    let bench = desk.bench();
    let graph = bench.graph();
    match op {
        Op::Problem { .. }
        | Op::Proves { .. }
        | Op::Show { .. }
        | Op::Measure { .. }
        | Op::Define { .. }
        | Op::Sat { .. }
        | Op::Prove { .. }
        | Op::Expansion { .. }
        | Op::Expand { .. }
        | Op::Herbrand { .. } => run_reading(graph, alloc, op, given),
        Op::Lk { .. }
        | Op::Subst { .. }
        | Op::Unfold { .. }
        | Op::Resolution { .. }
        | Op::Tautology { .. }
        | Op::Fromexp { .. }
        | Op::Interpolate { .. }
        | Op::Cutintro { .. } => { run_making(rt, alloc, bench, Desk::bench_pass(pass), op, given) }
        Op::Cutelim { proof, budget } => {
            let ledger = Blank::new(1);
            let budget = budget.get();
            eliminate_in::<R, Brand>(rt, alloc, desk, pass, proof, first(given), budget, ledger)
        }
        Op::Eliminate { proof } => {
            let ledger = Blank::new(1);
            eliminate_all_in::<R, Brand>(rt, alloc, desk, pass, proof, first(given), ledger)
        }
    }
}

// Values that fit the graph are sound.
fn are_sound(given: &[Held])
    requires { (g : GraphMeaning) × All (Fits g) given.now }
    ensures { All (λ v. IfSome v IsSound) (map sense given.now) }
{
    for held in given {
        held.known();
    }
}

/// Runs an operation over the values that its names of jobs stand for: `given` has one for each, in the order in which the fields are read
/// (none for `Problem`, `Tautology` and `Expansion`, the proof and then the problem for `Proves`, the definitions that are used for `Lk` and
/// `Define`, and one for the others). The answer
/// is the outcome with what the job holds.
///
/// A text with the suffix `.first` or `.second` stands for that proof of a `Pair`. A value that has a fault is refused, the first such value
/// alone: at `Unknown` by `UnknownName`, and by `Kind` at another kind of value than the field takes, at a pair without a suffix, and at
/// any other value with one. `Unheld` is no fault: where no value has one and one is `Unheld`, the answer is `Outcome::Memory` with
/// `Held::Unheld`, as it is where memory runs out in the operation, and where a field for a proof is given a `Refutation`, whose proof isn't made
/// here (`with_proofs` makes it). Each refusal holds `Held::Refused`. Where there is no memory for the name
/// that a refusal shows, the answer is `Outcome::Memory` with `Held::Refused`, which is the answer in no other case.
pub fn answer<R: Wait + Threads + Sync>(
    rt: &R,
    alloc: Global,
    desk: &Desk,
    pass: &mut DeskPass,
    op: &Op,
    given: &[Held],
) -> (Outcome, Held)
    requires pass { IsDeskPassOf desk.now pass.old }
    requires count { length given.now ≡ length (names_in op.now) }
    requires op { IsFormedOp op.now }
    requires fits { All (Fits (graph_of (bench_of desk.now))) given.now }
    ensures answered { IsAnsweredTo result.0 (sense result.1) (run op.now (map sense given.now)) }
    // What it made is what the operation claims.
    ensures claimed { IsClaimedAnswer op.now (map sense given.now) result.0 (sense result.1) }
    ensures fits { Fits (graph_of (bench_of desk.now)) result.1 }
    // An elimination of cuts that is done has noted the proof that it was given.
    ensures noted { is_reduced result.0 ≡ true → IsNoted op.now given.now pass.new }
    // A refusal comes before any work, and what work found to have no product is thrown away, but for what an elimination of cuts has found
    // when its budget is used up.
    ensures unchanged { result.1 ≡ Held.Refused → history (pass_in (bench_pass_in pass.new)) ≡ history (pass_in (bench_pass_in pass.old)) }
    ensures images_unchanged { result.1 ≡ Held.Refused → images_in (bench_pass_in pass.new) ≡ images_in (bench_pass_in pass.old) }
    ensures eliminations_unchanged { result.1 ≡ Held.Refused → result.0 ≢ Outcome.Budget → eliminations_in pass.new ≡ eliminations_in pass.old }
    // Nothing but an elimination of cuts notes any.
    ensures eliminations_only { needs op.now ≢ a_desk → eliminations_in pass.new ≡ eliminations_in pass.old }
    ensures images_grown { IsPrefix (images_in (bench_pass_in pass.old)) (images_in (bench_pass_in pass.new)) }
    ensures eliminations_grown { IsPrefix (eliminations_in pass.old) (eliminations_in pass.new) }
    ensures extends { ExtendsDesk desk.now pass.old pass.new }
{
    claims();
    are_sound(given);
    let ran = run_given(rt, alloc, desk, pass, op, given);
    conclude(desk.bench().graph(), alloc, ran)
}
