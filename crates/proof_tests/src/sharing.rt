//! Proofs with shared parts.
ghost use Rattle.proof_graph.specs.Graphs.{IsPassOf};

use crate::samples::proof;
use proof_graph::{Graph, GraphPass};
use std::alloc::Global;
use std::process::Abort;
use std::sync::Wait;
use std::test::Fail;

// A key that is interned again keeps its number, and another key gets another.
fn assert_one_number<R: Abort + Wait>(
    rt: &R,
    alloc: Global,
    graph: &Graph,
    pass: &mut GraphPass,
) -> Result<(), Fail>
    requires { IsPassOf graph.now pass.old }
    ensures { IsPassOf graph.now pass.new }
{
    let first = proof(rt, alloc, graph, pass, "ax p p/p;orL = =/p 0,0")?;
    let text = "ax p p/p;ax p p/p;orL = =/p 1,0";
    let again = proof(rt, alloc, graph, pass, text)?;
    let text = "ax p p/p;orL = =/p 0,0;weak - q=/p 1";
    let above = proof(rt, alloc, graph, pass, text)?;
    assert!(rt; graph.same(&first, &again));
    assert!(rt; !graph.same(&first, &above));
    assert_eq!(rt; above.number(), 2);
    let numbers = graph.get(&above).premises.as_slice();
    assert_eq!(rt; numbers.len(), 1);
    assert_eq!(rt; numbers[0], 1);
    let premise = graph.premise(&above, 0)?;
    assert!(rt; graph.same(&first, &graph.keep(&premise)?));
    Ok(())
}

// Keys whose fingerprints are equal are told apart, and each keeps its number.
fn assert_own_numbers<R: Abort + Wait>(
    rt: &R,
    alloc: Global,
    graph: &Graph,
    pass: &mut GraphPass,
) -> Result<(), Fail>
    requires { IsPassOf graph.now pass.old }
    ensures { IsPassOf graph.now pass.new }
{
    let first = "ax {u(V0)} {u(V0)}/{u(V0)}";
    let second = "ax {w(V7933695308399017924)} {w(V7933695308399017924)}/{w(V7933695308399017924)}";
    let third = "ax {v(V5782278949438213727)} {v(V5782278949438213727)}/{v(V5782278949438213727)}";
    assert_eq!(rt; proof(rt, alloc, graph, pass, first)?.number(), 0);
    assert_eq!(rt; proof(rt, alloc, graph, pass, second)?.number(), 1);
    assert_eq!(rt; proof(rt, alloc, graph, pass, third)?.number(), 2);
    assert_eq!(rt; proof(rt, alloc, graph, pass, second)?.number(), 1);
    assert_eq!(rt; proof(rt, alloc, graph, pass, third)?.number(), 2);
    assert_eq!(rt; proof(rt, alloc, graph, pass, first)?.number(), 0);
    Ok(())
}

#[test]
fn keys_with_one_fingerprint(rt: HostRuntime) -> Result<(), Fail> {
    let (graph, mut pass) = Graph::new(rt.alloc())?;
    let seen = assert_own_numbers(&rt, rt.alloc(), &graph, &mut pass);
    graph.close(&rt, pass);
    seen
}

#[test]
fn one_key_has_one_number(rt: HostRuntime) -> Result<(), Fail> {
    let (graph, mut pass) = Graph::new(rt.alloc())?;
    let seen = assert_one_number(&rt, rt.alloc(), &graph, &mut pass);
    graph.close(&rt, pass);
    seen
}
