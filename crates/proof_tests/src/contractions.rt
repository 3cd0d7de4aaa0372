//! Contractions of small cuts.
ghost use Rattle.std.specs.Prelude.{◌≡◌, ◌<◌, IfOk};
ghost use Rattle.proof_graph.specs.Graphs.{IsOf};
ghost use Rattle.proof_subst.specs.Benches.{graph_of, IsBenchPassOf};

use crate::samples::{assert_proof, proof};
use cut_contract::{Steps, contract};
use lk_rules::Rule;
use proof_graph::ProofRef;
use proof_steps::first_cut;
use proof_subst::{Bench, BenchPass};
use std::alloc::Global;
use std::marker::Brand;
use std::process::Abort;
use std::sync::Wait;
use std::sync::ledger::{Blank, Ledger};
use std::test::Fail;

// The case, the cut, and the canonical steps of what takes its place. The first six are the contractions of the cut on ~p over p, one
// after the other. In the last one an eigenvariable that would be captured gets a new name. The results were found by a program of another
// kind, which contracts trees.
const CONTRACTIONS: &str =
    "splitting left: ax p p/p~;negR ~ /p~ 0;ax p p~/p;negL ~ p~/ 2;cut ~ p/p 1,3 -> ax p p/p~;ax p p~/p;negL ~ p~/ 1;cut ~ p/p 0,2;negR ~ p/p~ 3;cut ~ p/p 4,2
leaf left: ax p p/p~;ax p p~/p;negL ~ p~/ 1;cut ~ p/p 0,2 -> ax p p/p
splitting right: ax p p/p;negR ~ p/p~ 0;ax p p~/p;negL ~ p~/ 2;cut ~ p/p 1,3 -> ax p p/p;negR ~ p/p~ 0;ax p p~/p;cut ~ p/p 1,2;negL ~ p~/p 3;cut ~ p/p 1,4
leaf right: ax p p/p;negR ~ p/p~ 0;ax p p~/p;cut ~ p/p 1,2 -> ax p p/p
reduction: ax p p/p;negR ~ p/p~ 0;ax p p/p;negL ~ p~/p 2;cut ~ p/p 1,3 -> ax p p/p;cut p p/p 0,0
weakening left: ax p p/p;ax p p/p;cut p p/p 0,1 -> ax p p/p;weak - p/p 0
weakening right: ax q q/qp;ax q pq/q;cut p pq/q 0,1 -> ax q pq/q;weak - pq/q 0
passing left: ax p p/p;andL & &/p 0;ax p p/pq;orR | p/| 2;cut p &/| 1,3 -> ax p p/p;ax p p/pq;orR | p/| 1;cut p pq&/| 0,2;andL & &/| 3
passing right: ax p p/p;negR ~ /p~ 0;ax p p~/pq;orR | p~/| 2;cut ~ p/p| 1,3 -> ax p p/p;negR ~ /p~ 0;ax p p~/pq;cut ~ p/pq| 1,2;orR | p/p| 3
reduction: ax p p/p;ax q q/q;andR & pq/& 0,1;andL & &/p 0;cut & pq/p 2,3 -> ax p p/p;ax q q/q;cut q pq/p 1,0;cut p pq/p 0,2
reduction: ax p p/pq;orR | p/| 0;ax p p/p;ax q q/q;orL | |/pq 2,3;cut | p/pq 1,4 -> ax p p/pq;ax p p/p;cut p p/pq 0,1;ax q q/q;cut q p/pq 2,3
reduction: ax p p/pq;impR > /p> 0;ax p p/p;ax q q/q;impL > p>/q 2,3;cut > p/pq 1,4 -> ax p p/p;ax p p/pq;cut p p/pq 0,1;ax q q/q;cut q p/pq 2,3
reduction: ax p p/py;allR A@Y p/pA 0;ax a a/a;allL A@a A/a 2;cut A p/pa 1,3 -> ax p p/pa;ax a a/a;cut a p/pa 0,1
reduction: ax a a/a;exR E@a a/E 0;ax p yp/p;exL E@Y Ep/p 2;cut E ap/p 1,3 -> ax a a/a;ax p pa/p;cut a pa/p 0,1
passing left: ax p yp/p;andL & y&/p 0;exL E@Y E&/p 1;ax p py/pq;orR | py/| 3;cut p E&y/| 2,4 -> ax p pv/p;andL & v&/p 0;ax p py/pq;orR | py/| 2;cut p yv&E/| 1,3;exL E@V0 y&E/| 4";

// The contraction of a proof whose last rule is a cut and whose premises have no cut.
fn contracted<R: Abort + Wait, L: Ledger>(
    rt: &R,
    alloc: Global,
    bench: &Bench,
    pass: &mut BenchPass,
    proof: &ProofRef,
    steps: &mut Steps<L>,
) -> Result<ProofRef, Fail>
    requires pass_of { IsBenchPassOf bench.now pass.old }
    requires of { IsOf (graph_of bench.now) proof.now }
    ensures of { IfOk result (IsOf (graph_of bench.now)) }
    ensures pass_stays { IsBenchPassOf bench.now pass.new }
{
    let graph = bench.graph();
    let (Rule::Cut(_), [left, right]) = (&graph.get(proof).rule, proof.premises()) else {
        panic!(rt; "no cut")
    };
    let left_cut = first_cut(alloc, graph, left)?;
    let right_cut = first_cut(alloc, graph, right)?;
    assert!(rt; left_cut.is_none() && right_cut.is_none());
    Ok(contract(rt, alloc, bench, pass, proof, steps)?)
}

// Sees on a bench what takes the place of the cut of a row.
fn see_contraction<R: Abort + Wait, L: Ledger>(
    rt: &R,
    alloc: Global,
    ledger: Blank,
    bench: &Bench,
    pass: &mut BenchPass,
    row: &String,
) -> Result<(), Fail>
    requires name { ledger.name ≡ L.name }
    requires parts { ledger.parts ≡ L.parts }
    requires one_part { 0 < ledger.parts }
    requires pass_of { IsBenchPassOf bench.now pass.old }
    ensures { IsBenchPassOf bench.now pass.new }
{
    let (_case, rest) = row.as_str().split_once(": ").ok_or("no case")?;
    let (text, contraction) = rest.split_once(" -> ").ok_or("no contraction")?;
    let graph = bench.graph();
    let cut = proof(rt, alloc, graph, Bench::graph_pass(pass), text)?;
    let mut steps = Steps::<L>::new(ledger);
    let made = contracted(rt, alloc, bench, pass, &cut, &mut steps);
    steps.end();
    let made = made?;
    let graph_pass = Bench::graph_pass(pass);
    assert_proof(rt, alloc, graph, graph_pass, &made, contraction)
}

// Sees what takes the place of the cut of a row.
fn assert_contraction<R: Abort + Wait, L: Ledger>(
    rt: &R,
    alloc: Global,
    ledger: Blank,
    row: &String,
) -> Result<(), Fail>
    requires name { ledger.name ≡ L.name }
    requires parts { ledger.parts ≡ L.parts }
    requires one_part { 0 < ledger.parts }
{
    let (bench, mut pass) = Bench::new(rt, alloc)?;
    let seen = see_contraction::<R, L>(rt, alloc, ledger, &bench, &mut pass, row);
    bench.close(rt, pass);
    seen
}

// The same, with a ledger of its own.
fn assert_row<R: Abort + Wait>(rt: &R, alloc: Global, row: &String) -> Result<(), Fail> {
    assert_contraction::<R, Brand>(rt, alloc, Blank::new(1), row)
}

#[test]
fn contractions(rt: HostRuntime) -> Result<(), Fail> {
    for row in CONTRACTIONS.lines() {
        let row = String::from_str(rt.alloc(), row)?;
        assert_row(&rt, rt.alloc(), &row)?;
    }
    Ok(())
}
