//! What the search for the proof of a sequent comes to.
ghost use Rattle.std.specs.Prelude.{◌≡◌, find, option_copied, option_map, IfSome};
ghost use Rattle.std.specs.List.{All};
ghost use Rattle.fol.specs.Formed.{IsFormed};
ghost use Rattle.proof_graph.specs.declared.graph.Graph.{Graph as GraphMeaning};
ghost use Rattle.proof_subst.specs.Benches.{IsBenchPassOf};
ghost use Rattle.search_laws.specs.Truth.{has_quantifier as is_quantified, IsPropositional};
ghost use Rattle.search_laws.specs.Search.{walk};
ghost use Rattle.search_laws.specs.Budgets.{found};
ghost use Rattle.operation_laws.specs.declared.refusals.Failure.TheVariants.{Quantified};
ghost use Rattle.operation_laws.specs.Answers.{failed, one};
ghost use Rattle.operation_laws.specs.Running.{quantified_in as quantified_of, searched, searches};
ghost use Rattle.operations.specs.Means.{Comes};
ghost use Rattle.operations.specs.Runs.{Runs};

use crate::answers::{Made, Ran};
use fol::Formula;
use job_words::FormedFormula;
use lk_rules::{Sequent, Side};
use operation_laws::Failure;
use proof_subst::{Bench, BenchPass};
use prop_search::{SearchFault, has_quantifier, search};
use std::alloc::Global;
use std::sync::Wait;

// The first formula that has a quantifier.
fn first_quantified(formulas: &[Formula]) -> Option<&Formula>
    requires { All IsFormed formulas.now }
    ensures value { option_copied result ≡ find is_quantified formulas.now }
    ensures formed { IfSome result (λ f. IsFormed f.now) }
{
    for formula in formulas {
        if has_quantifier(formula) {
            return Some(formula);
        }
    }
    None
}

// The first formula of a sequent that has a quantifier, with its side.
fn quantified_in(sequent: &Sequent) -> Option<(&Formula, Side)>
    ensures value { option_map (λ q. (q.0.now, q.1)) result ≡ quantified_of sequent.now }
    ensures formed { IfSome result (λ q. IsFormed q.0.now) }
{
    if let Some(formula) = first_quantified(sequent.left()) {
        return Some((formula, Side::Left));
    }
    match first_quantified(sequent.right()) {
        Some(formula) => Some((formula, Side::Right)),
        None => None,
    }
}

// There is no search where this formula stands on this side, since it has a quantifier.
fn quantified(formula: &Formula, side: Side) -> Ran
    requires { IsFormed formula.now }
    ensures { (g : GraphMeaning) → Comes g result (failed (Quantified formula.now side)) }
{
    match formula.copy() {
        Ok(formula) => Ran::Failed(Failure::Quantified {
            formula: FormedFormula::new(formula),
            side,
        }),
        Err(_) => Ran::Lacking,
    }
}

// What the search for the proof of a sequent without quantifiers comes to.
#[tactic(auto, using(crate::proofs::Searched::search_gives, crate::proofs::Searched::search_falsifies, crate::proofs::Searched::search_ends, crate::proofs::Searched::search_lacks))]
fn search_for<R: Wait>(
    rt: &R,
    alloc: Global,
    bench: &Bench,
    pass: &mut BenchPass,
    sequent: &Sequent,
    budget: u64,
) -> Ran
    requires pass { IsBenchPassOf bench.now pass.old }
    requires propositional { IsPropositional sequent.now }
    ensures { Runs bench.now pass.old pass.new result (one (searched (found budget (walk sequent.now)))) }
{
    let graph = bench.graph();
    match search(rt, alloc, graph, Bench::graph_pass(pass), sequent, budget) {
        Ok(proof) => Ran::Done(Made::Proof(proof)),
        Err(SearchFault::Falsified(atoms)) => Ran::Failed(Failure::Falsified(atoms)),
        Err(SearchFault::Budget) => Ran::Failed(Failure::Budget),
        Err(SearchFault::Memory) => Ran::Lacking,
    }
}

/// The proof of a sequent without quantifiers that a search finds, within a budget of sequents that it visits.
#[tactic(auto, using(crate::proofs::Searched::quantified_comes, crate::proofs::Searched::searches_comes))]
pub fn prove_sequent<R: Wait>(
    rt: &R,
    alloc: Global,
    bench: &Bench,
    pass: &mut BenchPass,
    sequent: &Sequent,
    budget: u64,
) -> Ran
    requires pass { IsBenchPassOf bench.now pass.old }
    ensures { Runs bench.now pass.old pass.new result (one (searches (quantified_of sequent.now) sequent.now budget)) }
{
    match quantified_in(sequent) {
        Some((formula, side)) => quantified(formula, side),
        None => search_for(rt, alloc, bench, pass, sequent, budget),
    }
}
