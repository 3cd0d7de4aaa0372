//! A cut on an atom whose predicate symbol carries a definition.
ghost use Rattle.std.specs.Prelude.{◌≡◌, ◌<◌, IfOk};
ghost use Rattle.std.specs.List.{All};
ghost use Rattle.fol.specs.Formed.{IsFormed};
ghost use Rattle.lk_rules.specs.Rules.{IsFormedRule};
ghost use Rattle.proof_graph.specs.Graphs.{IsOf};
ghost use Rattle.proof_subst.specs.Benches.{graph_of, IsBenchPassOf};
ghost use Rattle.cut_elim.specs.Desks.{IsDeskPassOf};

use crate::samples::{assert_proof, formula};
use cut_contract::Steps;
use cut_elim::{Desk, DeskPass, eliminate};
use fol::{Formula, FormulaNode, Predicate, well_formed};
use lk_check::admit;
use lk_rules::{Formulas, Numbers, Rule, Sequent, Step};
use proof_graph::ProofRef;
use proof_subst::{Bench, BenchPass};
use std::alloc::Global;
use std::marker::Brand;
use std::process::Abort;
use std::sync::Wait;
use std::sync::ledger::{Blank, Ledger};
use std::test::Fail;
use std::thread::Threads;

// The atom of a text, with a body for its symbol.
fn defined(alloc: Global, text: &str, body: &Formula) -> Result<Formula, Fail>
    ensures { IfOk result IsFormed }
{
    let plain = formula(alloc, text)?;
    let FormulaNode::Atom(predicate, terms) = plain.node() else {
        return Err(Fail::from("no atom"));
    };
    let predicate = Predicate {
        symbol: predicate.symbol.copy()?,
        body: Some(body.copy()?),
    };
    let atom = Formula::atom_of(alloc, predicate, terms.copy()?)?;
    if !well_formed(&atom) {
        return Err(Fail::from("not well formed"));
    }
    Ok(atom)
}

// The set of one formula.
fn only(alloc: Global, formula: &Formula) -> Result<Formulas, Fail>
    requires { IsFormed formula.now }
{
    let mut list = Vec::new(alloc);
    list.push(formula.copy()?)?;
    Ok(Formulas::from_vec(alloc, list)?)
}

// The step with one formula on each side of its conclusion.
fn step(
    alloc: Global,
    rule: Rule,
    premises: &[u64],
    left: &Formula,
    right: &Formula,
) -> Result<Step, Fail>
    requires rule { IsFormedRule rule }
    requires left { IsFormed left.now }
    requires right { IsFormed right.now }
    ensures { IfOk result (λ step. IsFormedRule step.rule) }
{
    let mut numbers = Vec::new(alloc);
    for premise in premises {
        numbers.push(*premise)?;
    }
    let left = only(alloc, left)?;
    let right = only(alloc, right)?;
    Ok(Step {
        rule,
        premises: Numbers::from_vec(numbers),
        end: Sequent { left, right },
    })
}

// The steps of a cut on a defined atom, which both premises unfold over an axiom on what it means.
fn defined_steps(alloc: Global, atom: &Formula, meant: &Formula) -> Result<Vec<Step>, Fail>
    requires atom { IsFormed atom.now }
    requires meant { IsFormed meant.now }
    ensures { IfOk result (λ v. All (λ step. IsFormedRule step.rule) v.items) }
{
    let mut list = Vec::new(alloc);
    let rule = Rule::Ax(meant.copy()?);
    list.push(step(alloc, rule, &[], meant, meant)?)?;
    let rule = Rule::DefR(atom.copy()?);
    list.push(step(alloc, rule, &[0], meant, atom)?)?;
    let rule = Rule::DefL(atom.copy()?);
    list.push(step(alloc, rule, &[0], atom, meant)?)?;
    let rule = Rule::Cut(atom.copy()?);
    list.push(step(alloc, rule, &[1, 2], meant, meant)?)?;
    Ok(list)
}

// The proof that the steps are, in the graph of the bench.
fn admitted<R: Wait>(
    rt: &R,
    alloc: Global,
    bench: &Bench,
    pass: &mut BenchPass,
    list: &[Step],
) -> Result<ProofRef, Fail>
    requires pass { IsBenchPassOf bench.now pass.old }
    requires formed { All (λ step. IsFormedRule step.rule) list.now }
    ensures of { IfOk result (IsOf (graph_of bench.now)) }
    ensures pass_stays { IsBenchPassOf bench.now pass.new }
{
    Ok(admit(rt, alloc, bench.graph(), Bench::graph_pass(pass), list)?)
}

// Sees on a desk what the elimination of such a cut comes to: a cut on its unfolding takes the place of the cut, and a weakening that of
// the second one.
fn see_eliminated<R: Abort + Wait + Threads + Sync, L: Ledger>(
    rt: &R,
    alloc: Global,
    ledger: Blank,
    desk: &Desk,
    pass: &mut DeskPass,
) -> Result<(), Fail>
    requires name { ledger.name ≡ L.name }
    requires parts { ledger.parts ≡ L.parts }
    requires one_part { 0 < ledger.parts }
    requires pass_of { IsDeskPassOf desk.now pass.old }
    ensures { IsDeskPassOf desk.now pass.new }
{
    let meant = formula(alloc, "p")?;
    let atom = defined(alloc, "e", &meant)?;
    let list = defined_steps(alloc, &atom, &meant)?;
    let bench_pass = Desk::bench_pass(pass);
    let cut = admitted(rt, alloc, desk.bench(), bench_pass, list.as_slice())?;
    let mut steps = Steps::<L>::new(ledger);
    let made = eliminate(rt, alloc, desk, pass, &cut, 2, &mut steps);
    steps.end();
    let made = made?;
    assert_eq!(rt; made.reductions, 2);
    let graph_pass = Bench::graph_pass(Desk::bench_pass(pass));
    assert_proof(
        rt,
        alloc,
        desk.bench().graph(),
        graph_pass,
        &made.proof,
        "ax p p/p;weak - p/p 0",
    )
}

// The same, on a desk of its own.
fn assert_eliminated<R: Abort + Wait + Threads + Sync, L: Ledger>(
    rt: &R,
    alloc: Global,
    ledger: Blank,
) -> Result<(), Fail>
    requires name { ledger.name ≡ L.name }
    requires parts { ledger.parts ≡ L.parts }
    requires one_part { 0 < ledger.parts }
{
    let (desk, mut pass) = Desk::new(rt, alloc)?;
    let seen = see_eliminated::<R, L>(rt, alloc, ledger, &desk, &mut pass);
    desk.close(rt, pass);
    seen
}

// The same, with a ledger of its own.
fn assert_defined_cut<R: Abort + Wait + Threads + Sync>(rt: &R, alloc: Global) -> Result<(), Fail> {
    assert_eliminated::<R, Brand>(rt, alloc, Blank::new(1))
}

#[test]
fn defined_cut(rt: HostRuntime) -> Result<(), Fail> {
    assert_defined_cut(&rt, rt.alloc())
}
