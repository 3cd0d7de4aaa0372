//! Eliminations with work in one premise and in both, and eliminations that are known.
ghost use Rattle.std.specs.Prelude.{◌≡◌, ◌<◌, IfOk};
ghost use Rattle.proof_graph.specs.Graphs.{IsOf};
ghost use Rattle.proof_subst.specs.Benches.{graph_of};
ghost use Rattle.cut_elim.specs.Desks.{bench_of, IsDeskPassOf};

use crate::samples::{assert_proof, proof};
use cut_contract::Steps;
use cut_elim::{Desk, DeskPass, ElimFault, Reduced, eliminate};
use proof_graph::ProofRef;
use proof_subst::Bench;
use std::alloc::Global;
use std::marker::Brand;
use std::process::Abort;
use std::sync::Wait;
use std::sync::ledger::{Blank, Ledger};
use std::test::Fail;
use std::thread::Threads;

// Six cuts, each over the one before it twice: a tree of 63 cuts and 127 nodes, which takes 63 contractions, one for each cut.
const CUTS: &str =
    "ax p p/p;cut p p/p 0,0;cut p p/p 1,1;cut p p/p 2,2;cut p p/p 3,3;cut p p/p 4,4;cut p p/p 5,5";

// What they come to. How many contractions these proofs take, and what they come to, was found by a program of another kind, which
// contracts trees.
const WEAKENINGS: &str =
    "ax p p/p;weak - p/p 0;weak - p/p 1;weak - p/p 2;weak - p/p 3;weak - p/p 4;weak - p/p 5";

// An elimination, as far as a test tells it apart.
fn told(made: &Result<Reduced, ElimFault>) -> Result<u64, bool> {
    match made {
        Ok(made) => Ok(made.reductions),
        Err(ElimFault::Budget) => Err(true),
        Err(ElimFault::Memory) => Err(false),
    }
}

// The text of a proof, how many contractions its elimination takes, the text of what it comes to, and whether two threads work on it.
#[derive(Drop)]
struct Elimination {
    cuts: String,
    reductions: u64,
    reduced: String,
    by_two_threads: bool,
}

// Sees that two eliminations came to one proof.
fn see_same<R: Abort>(rt: &R, desk: &Desk, made: &ProofRef, again: &ProofRef)
    requires made { IsOf (graph_of (bench_of desk.now)) made.now }
    requires again { IsOf (graph_of (bench_of desk.now)) again.now }
{
    assert!(rt; desk.bench().graph().same(made, again));
}

// Sees that the elimination takes more contractions than the budget allows.
fn see_short<R: Abort + Wait + Threads + Sync, L: Ledger>(
    rt: &R,
    alloc: Global,
    desk: &Desk,
    pass: &mut DeskPass,
    proof: &ProofRef,
    budget: u64,
    steps: &mut Steps<L>,
)
    requires pass_of { IsDeskPassOf desk.now pass.old }
    requires of { IsOf (graph_of (bench_of desk.now)) proof.now }
    ensures { IsDeskPassOf desk.now pass.new }
{
    let made = eliminate(rt, alloc, desk, pass, proof, budget, steps);
    assert!(rt; told(&made) == Err(true));
}

// Sees that the elimination takes just so many contractions, and that none is made once it is known. Where one contraction is lacking, more
// than the budget are counted only by two threads, each of which has the whole budget.
fn see_known<R: Abort + Wait + Threads + Sync, L: Ledger>(
    rt: &R,
    alloc: Global,
    desk: &Desk,
    pass: &mut DeskPass,
    proof: &ProofRef,
    wanted: &Elimination,
    steps: &mut Steps<L>,
) -> Result<ProofRef, Fail>
    requires pass_of { IsDeskPassOf desk.now pass.old }
    requires of { IsOf (graph_of (bench_of desk.now)) proof.now }
    ensures of { IfOk result (IsOf (graph_of (bench_of desk.now))) }
    ensures pass_stays { IsDeskPassOf desk.now pass.new }
{
    let reductions = wanted.reductions;
    let less = reductions.saturating_sub(1);
    see_short(rt, alloc, desk, pass, proof, less, steps);
    assert_eq!(rt; steps.count() > less, wanted.by_two_threads);
    let made = eliminate(rt, alloc, desk, pass, proof, reductions, steps)?;
    assert_eq!(rt; made.reductions, reductions);
    let counted = steps.count();
    assert!(rt; 0 < counted);
    let again = eliminate(rt, alloc, desk, pass, proof, u64::MAX, steps)?;
    assert_eq!(rt; again.reductions, reductions);
    see_same(rt, desk, &made.proof, &again.proof);
    see_short(rt, alloc, desk, pass, proof, less, steps);
    assert_eq!(rt; steps.count(), counted);
    Ok(made.proof)
}

// Sees on a desk what an elimination takes and comes to.
fn see_elimination<R: Abort + Wait + Threads + Sync, L: Ledger>(
    rt: &R,
    alloc: Global,
    ledger: Blank,
    desk: &Desk,
    pass: &mut DeskPass,
    wanted: &Elimination,
) -> Result<(), Fail>
    requires name { ledger.name ≡ L.name }
    requires parts { ledger.parts ≡ L.parts }
    requires one_part { 0 < ledger.parts }
    requires pass_of { IsDeskPassOf desk.now pass.old }
    ensures { IsDeskPassOf desk.now pass.new }
{
    let graph = desk.bench().graph();
    let graph_pass = Bench::graph_pass(Desk::bench_pass(pass));
    let cuts = proof(rt, alloc, graph, graph_pass, wanted.cuts.as_str())?;
    let mut steps = Steps::<L>::new(ledger);
    let made = see_known(rt, alloc, desk, pass, &cuts, wanted, &mut steps);
    steps.end();
    let made = made?;
    let graph_pass = Bench::graph_pass(Desk::bench_pass(pass));
    assert_proof(rt, alloc, graph, graph_pass, &made, wanted.reduced.as_str())
}

// The same, on a desk of its own.
fn assert_on_desk<R: Abort + Wait + Threads + Sync, L: Ledger>(
    rt: &R,
    alloc: Global,
    ledger: Blank,
    wanted: &Elimination,
) -> Result<(), Fail>
    requires name { ledger.name ≡ L.name }
    requires parts { ledger.parts ≡ L.parts }
    requires one_part { 0 < ledger.parts }
{
    let (desk, mut pass) = Desk::new(rt, alloc)?;
    let seen = see_elimination::<R, L>(rt, alloc, ledger, &desk, &mut pass, wanted);
    desk.close(rt, pass);
    seen
}

// The same, with a ledger of its own.
fn assert_elimination<R: Abort + Wait + Threads + Sync>(
    rt: &R,
    alloc: Global,
    wanted: &Elimination,
) -> Result<(), Fail> {
    assert_on_desk::<R, Brand>(rt, alloc, Blank::new(1), wanted)
}

#[test]
fn work_in_both_premises_of_a_cut(rt: HostRuntime) -> Result<(), Fail> {
    let wanted = Elimination {
        cuts: format!(in rt.alloc(); "{CUTS};cut p p/p 6,6")?,
        reductions: 127,
        reduced: format!(in rt.alloc(); "{WEAKENINGS};weak - p/p 6")?,
        by_two_threads: false,
    };
    assert_elimination(&rt, rt.alloc(), &wanted)
}

#[test]
fn work_in_both_premises_of_another_rule(rt: HostRuntime) -> Result<(), Fail> {
    let wanted = Elimination {
        cuts: format!(in rt.alloc(); "{CUTS};andR {{p&p}} p/{{p&p}} 6,6")?,
        reductions: 126,
        reduced: format!(in rt.alloc(); "{WEAKENINGS};andR {{p&p}} p/{{p&p}} 6,6")?,
        by_two_threads: false,
    };
    assert_elimination(&rt, rt.alloc(), &wanted)
}

#[test]
fn work_in_the_left_premise(rt: HostRuntime) -> Result<(), Fail> {
    let wanted = Elimination {
        cuts: format!(in rt.alloc(); "{CUTS};cut p p/p 6,0")?,
        reductions: 64,
        reduced: format!(in rt.alloc(); "{WEAKENINGS};weak - p/p 6")?,
        by_two_threads: false,
    };
    assert_elimination(&rt, rt.alloc(), &wanted)
}

#[test]
fn work_in_the_right_premise(rt: HostRuntime) -> Result<(), Fail> {
    let wanted = Elimination {
        cuts: format!(in rt.alloc(); "{CUTS};cut p p/p 0,6")?,
        reductions: 64,
        reduced: String::from_str(rt.alloc(), "ax p p/p;weak - p/p 0")?,
        by_two_threads: false,
    };
    assert_elimination(&rt, rt.alloc(), &wanted)
}

// How many cuts each of two chains has: so many are worth a thread of their own.
const CHAIN: u64 = 16;

// Adds a chain to a text: an atom from a universal formula of which it is an instance, and then cuts on it, each over the one before, or in
// place of each the weakening that it comes to. The first step has that number.
fn push_chain(
    alloc: Global,
    text: &mut String,
    atom: char,
    first: u64,
    is_reduced: bool,
) -> Result<(), Fail> {
    let instance = first.wrapping_add(1);
    let start = format!(in alloc; "ax {atom} abA/{atom};allL A@{atom} abA/{atom} {first};")?;
    text.push_str(start.as_str())?;
    for cut in 0..CHAIN {
        let last = instance.wrapping_add(cut);
        let step = if is_reduced {
            format!(in alloc; "weak - abA/{atom} {last};")?
        } else {
            format!(in alloc; "cut {atom} abA/{atom} {last},{instance};")?
        };
        text.push_str(step.as_str())?;
    }
    Ok(())
}

// Two chains on two instances above one inference.
fn two_chains(alloc: Global, is_reduced: bool) -> Result<String, Fail> {
    let mut text = String::new(alloc);
    push_chain(alloc, &mut text, 'a', 0, is_reduced)?;
    push_chain(alloc, &mut text, 'b', CHAIN + 2, is_reduced)?;
    let both = format!(in alloc;
        "andR {{u(a)&u(b)}} abA/{{u(a)&u(b)}} {},{}",
        CHAIN + 1,
        2 * CHAIN + 3
    )?;
    text.push_str(both.as_str())?;
    Ok(text)
}

// Both threads count: together more contractions than the budget, within which each comes to an end.
#[test]
fn work_in_both_premises_by_two_threads(rt: HostRuntime) -> Result<(), Fail> {
    let wanted = Elimination {
        cuts: two_chains(rt.alloc(), false)?,
        reductions: 2 * CHAIN,
        reduced: two_chains(rt.alloc(), true)?,
        by_two_threads: true,
    };
    assert_elimination(&rt, rt.alloc(), &wanted)
}
