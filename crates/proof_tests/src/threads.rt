//! Two threads that put proofs into one graph.
ghost use Rattle.std.specs.Prelude.{IfOk, IfSome};
ghost use Rattle.std.specs.List.{All};
ghost use Rattle.lk_rules.specs.Rules.{IsFormedRule};
ghost use Rattle.proof_graph.specs.Graphs.{IsOf, IsPassOf};

use crate::meetings::meets;
use crate::samples::{proof, steps};
use lk_check::admit;
use lk_rules::Step;
use proof_graph::{Graph, GraphPass, ProofRef};
use std::alloc::Global;
use std::process::Abort;
use std::sync::Wait;
use std::sync::atomic::AtomicU64;
use std::test::Fail;
use std::thread::{Threads, join};

// The proof of a list of steps, put in by a pass that is handed back, once two threads have come.
fn put<R: Wait>(
    rt: &R,
    alloc: Global,
    graph: &Graph,
    mut pass: GraphPass,
    list: &[Step],
    came: &AtomicU64,
) -> (GraphPass, Option<ProofRef>)
    requires pass_of { IsPassOf graph.now pass }
    requires formed { All (λ step. IsFormedRule step.rule) list.now }
    ensures pass_stays { IsPassOf graph.now result.0 }
    ensures of { IfSome result.1 (IsOf graph.now) }
{
    if !meets(came, 2) {
        return (pass, None);
    }
    let made = admit(rt, alloc, graph, &mut pass, list).ok();
    (pass, made)
}

// The proofs of two lists of steps, each put in by a thread of its own, from the same moment on.
fn put_both<R: Abort + Threads + Wait + Sync>(
    rt: &R,
    alloc: Global,
    graph: &Graph,
    pass: &mut GraphPass,
    first: &[Step],
    second: &[Step],
) -> Result<(ProofRef, ProofRef), Fail>
    requires pass_of { IsPassOf graph.now pass.old }
    requires first_formed { All (λ step. IsFormedRule step.rule) first.now }
    requires second_formed { All (λ step. IsFormedRule step.rule) second.now }
    ensures of { IfOk result (λ made. IsOf graph.now made.0 × IsOf graph.now made.1) }
    ensures pass_stays { IsPassOf graph.now pass.new }
{
    let one = graph.split(pass);
    let two = graph.split(pass);
    let came = AtomicU64::new(0);
    let ((one, first), (two, second)) = join(
        rt,
        || -> (GraphPass, Option<ProofRef>)
            requires { IsPassOf graph.now one × All (λ step. IsFormedRule step.rule) first.now }
            ensures { IsPassOf graph.entry.now result.0 × IfSome result.1 (IsOf graph.entry.now) }
        { put(rt, alloc, graph, one, first, &came) },
        || -> (GraphPass, Option<ProofRef>)
            requires { IsPassOf graph.now two × All (λ step. IsFormedRule step.rule) second.now }
            ensures { IsPassOf graph.entry.now result.0 × IfSome result.1 (IsOf graph.entry.now) }
        { put(rt, alloc, graph, two, second, &came) },
    );
    graph.join(pass, one);
    graph.join(pass, two);
    let first = first.ok_or("nothing from the first thread")?;
    let second = second.ok_or("nothing from the second thread")?;
    Ok((first, second))
}

// How often two threads put in a node of the same key, each time another one.
const ROUNDS: u64 = 1000;

// Two threads put in one node each, of the same key. It has one number, which it keeps.
fn assert_same_key<R: Abort + Threads + Wait + Sync>(
    rt: &R,
    alloc: Global,
    graph: &Graph,
    pass: &mut GraphPass,
    round: u64,
) -> Result<(), Fail>
    requires { IsPassOf graph.now pass.old }
    ensures { IsPassOf graph.now pass.new }
{
    let text = format!(in alloc; "ax {{p{round}}} {{p{round}}}/{{p{round}}}")?;
    let list = steps(alloc, text.as_str())?;
    let (first, second) = put_both(rt, alloc, graph, pass, &list, &list)?;
    assert_eq!(rt; first.number(), second.number());
    let third = proof(rt, alloc, graph, pass, text.as_str())?;
    assert_eq!(rt; first.number(), third.number());
    assert!(rt; graph.same(&first, &third));
    Ok(())
}

// The same for so many keys, and no other node gets a number.
fn assert_same_keys<R: Abort + Threads + Wait + Sync>(
    rt: &R,
    alloc: Global,
    graph: &Graph,
    pass: &mut GraphPass,
) -> Result<(), Fail>
    requires { IsPassOf graph.now pass.old }
    ensures { IsPassOf graph.now pass.new }
{
    for round in 0..ROUNDS {
        assert_same_key(rt, alloc, graph, pass, round)?;
    }
    assert_eq!(rt; count(rt, alloc, graph, pass)?, ROUNDS);
    Ok(())
}

#[test]
fn same_key_two_threads(rt: HostRuntime) -> Result<(), Fail> {
    let (graph, mut pass) = Graph::new(rt.alloc())?;
    let seen = assert_same_keys(&rt, rt.alloc(), &graph, &mut pass);
    graph.close(&rt, pass);
    seen
}

// The axioms on ten thousand atoms: those of the first five thousand numbers, and those of another five thousand.
fn ten_thousand_axioms(alloc: Global, block: u64) -> Result<Vec<Step>, Fail>
    ensures { IfOk result (λ v. All (λ step. IsFormedRule step.rule) v.items) }
{
    let mut text = String::from_str(alloc, "ax {p0} {p0}/{p0}")?;
    for number in 1..10_000u64 {
        let atom = if number < 5000 {
            number
        } else {
            block.wrapping_mul(5000).wrapping_add(number - 5000)
        };
        let axiom = format!(in alloc; ";ax {{p{atom}}} {{p{atom}}}/{{p{atom}}}")?;
        text.push_str(axiom.as_str())?;
    }
    steps(alloc, text.as_str())
}

// How many nodes there are: one more gets that number.
fn count<R: Wait>(rt: &R, alloc: Global, graph: &Graph, pass: &mut GraphPass) -> Result<u64, Fail>
    requires { IsPassOf graph.now pass.old }
    ensures { IsPassOf graph.now pass.new }
{
    Ok(proof(rt, alloc, graph, pass, "ax q q/q")?.number())
}

// How many nodes one thread puts in for two lists.
fn count_by_one<R: Wait>(
    rt: &R,
    alloc: Global,
    graph: &Graph,
    pass: &mut GraphPass,
) -> Result<u64, Fail>
    requires { IsPassOf graph.now pass.old }
    ensures { IsPassOf graph.now pass.new }
{
    for block in 1..3u64 {
        let list = ten_thousand_axioms(alloc, block)?;
        admit(rt, alloc, graph, pass, &list)?;
    }
    count(rt, alloc, graph, pass)
}

// How many nodes two threads put in for the same lists, as the pass in which theirs are joined has it. It finds the nodes of both.
fn count_by_two<R: Abort + Threads + Wait + Sync>(
    rt: &R,
    alloc: Global,
    graph: &Graph,
    pass: &mut GraphPass,
) -> Result<u64, Fail>
    requires { IsPassOf graph.now pass.old }
    ensures { IsPassOf graph.now pass.new }
{
    let first = ten_thousand_axioms(alloc, 1)?;
    let second = ten_thousand_axioms(alloc, 2)?;
    put_both(rt, alloc, graph, pass, &first, &second)?;
    admit(rt, alloc, graph, pass, &first)?;
    admit(rt, alloc, graph, pass, &second)?;
    count(rt, alloc, graph, pass)
}

// How many nodes one thread puts into a graph of its own.
fn entries_by_one<R: Wait>(rt: &R, alloc: Global) -> Result<u64, Fail> {
    let (graph, mut pass) = Graph::new(alloc)?;
    let entries = count_by_one(rt, alloc, &graph, &mut pass);
    graph.close(rt, pass);
    entries
}

// How many nodes two threads put into a graph of their own.
fn entries_by_two<R: Abort + Threads + Wait + Sync>(rt: &R, alloc: Global) -> Result<u64, Fail> {
    let (graph, mut pass) = Graph::new(alloc)?;
    let entries = count_by_two(rt, alloc, &graph, &mut pass);
    graph.close(rt, pass);
    entries
}

// Two threads put in ten thousand nodes each, half of which are the same. There are as many as by one thread: fifteen thousand.
#[test]
fn shared_nodes_two_threads(rt: HostRuntime) -> Result<(), Fail> {
    let by_one = entries_by_one(&rt, rt.alloc())?;
    let by_two = entries_by_two(&rt, rt.alloc())?;
    assert_eq!(rt; by_one, 15_000);
    assert_eq!(rt; by_two, by_one);
    Ok(())
}
