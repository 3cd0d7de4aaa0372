//! Sessions over a desk that is lent.
ghost use Rattle.std.specs.Prelude.{IfOk};
ghost use Rattle.fol.specs.Formed.{IsFormed};
ghost use Rattle.proof_graph.specs.Graphs.{IsPassOf};
ghost use Rattle.cut_elim.specs.Desks.{IsDeskPassOf};

use crate::running::{JOB, REPLY};
use cut_elim::{Desk, DeskPass};
use edge_io::{MemSink, NeverSource};
use fol::Formula;
use lk_check::admit;
use lk_rules::{Formulas, Numbers, Rule, Sequent, Step};
use proof_graph::{Graph, GraphPass};
use proof_server::{NoGate, serve_on};
use proof_subst::Bench;
use std::alloc::Global;
use std::process::Abort;
use std::sync::Wait;
use std::test::Fail;
use std::thread::Threads;
use tptp_read::read_formula;

// The longest text of a formula, in bytes.
const LONGEST: usize = 100;

fn formula(alloc: Global, text: &str) -> Result<Formula, Fail>
    ensures { IfOk result IsFormed }
{
    if text.len() > LONGEST {
        return Err(Fail::from("a long formula"));
    }
    Ok(read_formula(alloc, text.as_bytes())?)
}

// The number of the axiom of a formula in a graph.
fn axiom_number<R: Wait>(
    rt: &R,
    alloc: Global,
    graph: &Graph,
    pass: &mut GraphPass,
    text: &str,
) -> Result<u64, Fail>
    requires { IsPassOf graph.now pass.old }
    ensures { IsPassOf graph.now pass.new }
{
    let left = Formulas::from_vec(alloc, vec![in alloc; formula(alloc, text)?]?)?;
    let right = Formulas::from_vec(alloc, vec![in alloc; formula(alloc, text)?]?)?;
    let step = Step {
        rule: Rule::Ax(formula(alloc, text)?),
        premises: Numbers::from_vec(Vec::new(alloc)),
        end: Sequent { left, right },
    };
    let steps = vec![in alloc; step]?;
    Ok(admit(rt, alloc, graph, pass, steps.as_slice())?.number())
}

// Sees that a session over the desk puts the axiom of p into its graph: it has a lower number than that of q, which comes after.
fn see_session<R: Abort + Wait + Threads + Sync>(
    rt: &R,
    alloc: Global,
    desk: &Desk,
    pass: &mut DeskPass,
) -> Result<(), Fail>
    requires { IsDeskPassOf desk.now pass.old }
    ensures { IsDeskPassOf desk.now pass.new }
{
    let mut source = NeverSource::new(Vec::from_slice(alloc, JOB.as_bytes())?);
    let mut sink = MemSink::new(alloc, 1000, Vec::new(alloc));
    let status = serve_on(rt, alloc, desk, pass, &mut source, &mut sink, &NoGate, 1);
    let replies = sink.into_bytes();
    assert_eq!(rt; status, 0);
    assert_eq!(rt; str::from_utf8(replies.as_slice()), Ok(REPLY));
    let graph = desk.bench().graph();
    let graph_pass = Bench::graph_pass(Desk::bench_pass(pass));
    let later = axiom_number(rt, alloc, graph, graph_pass, "q")?;
    let first = axiom_number(rt, alloc, graph, graph_pass, "p")?;
    assert!(rt; first < later);
    Ok(())
}

#[test]
fn session_uses_desk(rt: HostRuntime) -> Result<(), Fail> {
    let (desk, mut pass) = Desk::new(&rt, rt.alloc())?;
    let seen = see_session(&rt, rt.alloc(), &desk, &mut pass);
    desk.close(&rt, pass);
    seen
}
