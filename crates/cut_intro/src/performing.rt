//! The proof with a cut, by its parts.
ghost use Rattle.std.specs.Prelude.{◌≡◌, ◌≢◌, ◌≤◌, Some, Ok, IfOk, IfErr};
ghost use Rattle.proof_graph.specs.Graphs.{IsOf, IsPassOf, history, Extends};
ghost use Rattle.search_laws.specs.Truth.{IsPropositional};
ghost use Rattle.search_laws.specs.Search.{visits, proved, walk};
ghost use Rattle.prop_search.specs.Deciding.{IsProved};
ghost use Rattle.cut_intro.specs.Performing.{IsShort, Performs, IsReady, performed};

use crate::branch::{Branch, over};
use fol::Formula;
use introduction_laws::IntroFault;
use lk_rules::{Rule, Sequent};
use proof_graph::{Graph, GraphPass, ProofRef};
use prop_search::{SearchFault, decide, search};
use std::alloc::{AllocError, Global};
use std::sync::Wait;

/// What a proof with a cut is made of: the cut formula, and the inferences of its two premises.
#[derive(Drop)]
pub(crate) struct Cutting {
    pub formula: Formula,
    pub left: Branch,
    pub right: Branch,
}

// Whether the search visits at most so many sequents.
#[tactic(auto, using(crate::proofs::Searched::found_within, crate::proofs::Searched::found_short, crate::proofs::Searched::found_false))]
fn check(alloc: Global, sequent: &Sequent, budget: u64) -> Result<(), IntroFault>
    requires propositional { IsPropositional sequent.now }
    requires proved { IsProved (walk sequent.now) }
    ensures within { IfOk result (λ _. visits (walk sequent.now) ≤ budget) }
    ensures short { IfErr result (λ fault. IsShort fault budget (walk sequent.now)) }
{
    match decide(alloc, sequent, budget) {
        Ok(()) => Ok(()),
        Err(SearchFault::Budget) => Err(IntroFault::Budget),
        Err(SearchFault::Memory) => Err(IntroFault::Memory),
        Err(SearchFault::Falsified(_)) => unreachable!(),
    }
}

// The proof that the search finds, if it visits at most so many sequents.
#[tactic(auto, using(crate::proofs::Searched::found_within, crate::proofs::Searched::found_short, crate::proofs::Searched::found_false, crate::proofs::Searched::found_proof))]
fn prove<R: Wait>(
    rt: &R,
    alloc: Global,
    graph: &Graph,
    pass: &mut GraphPass,
    sequent: &Sequent,
    budget: u64,
) -> Result<ProofRef, IntroFault>
    requires pass_of { IsPassOf graph.now pass.old }
    requires propositional { IsPropositional sequent.now }
    requires proved { IsProved (walk sequent.now) }
    ensures found { IfOk result (λ r. walk sequent.now ≡ proved r.tree) }
    ensures within { IfOk result (λ _. visits (walk sequent.now) ≤ budget) }
    ensures short { IfErr result (λ fault. IsShort fault budget (walk sequent.now)) }
    ensures unchanged { IfErr result (λ fault. fault ≢ IntroFault.Memory → history pass.new ≡ history pass.old) }
    ensures of { IfOk result (IsOf graph.now) }
    ensures extends { Extends graph.now pass.old pass.new }
{
    match search(rt, alloc, graph, pass, sequent, budget) {
        Ok(proof) => Ok(proof),
        Err(SearchFault::Budget) => Err(IntroFault::Budget),
        Err(SearchFault::Memory) => Err(IntroFault::Memory),
        Err(SearchFault::Falsified(_)) => unreachable!(),
    }
}

// The proof that a search finds which visits at most so many sequents.
#[tactic(auto, using(crate::proofs::Searched::found_enough, crate::proofs::Searched::found_false, crate::proofs::Searched::found_proof))]
fn prove_checked<R: Wait>(
    rt: &R,
    alloc: Global,
    graph: &Graph,
    pass: &mut GraphPass,
    sequent: &Sequent,
    budget: u64,
) -> Result<ProofRef, AllocError>
    requires pass_of { IsPassOf graph.now pass.old }
    requires propositional { IsPropositional sequent.now }
    requires proved { IsProved (walk sequent.now) }
    requires within { visits (walk sequent.now) ≤ budget }
    ensures found { IfOk result (λ r. walk sequent.now ≡ proved r.tree) }
    ensures of { IfOk result (IsOf graph.now) }
    ensures extends { Extends graph.now pass.old pass.new }
{
    match search(rt, alloc, graph, pass, sequent, budget) {
        Ok(proof) => Ok(proof),
        Err(SearchFault::Memory) => Err(AllocError),
        Err(SearchFault::Budget | SearchFault::Falsified(_)) => unreachable!(),
    }
}

// The proof by the inferences of a branch over the proof of what is searched there.
fn finish<R: Wait>(
    rt: &R,
    alloc: Global,
    graph: &Graph,
    pass: &mut GraphPass,
    end: &Sequent,
    cutting: Cutting,
    first: ProofRef,
    second: ProofRef,
) -> Result<ProofRef, AllocError>
    requires pass_of { IsPassOf graph.now pass.old }
    requires ready { IsReady end.now cutting }
    requires first_of { IsOf graph.now first }
    requires second_of { IsOf graph.now second }
    requires first_found { walk cutting.left.searched ≡ proved first.tree }
    requires second_found { walk cutting.right.searched ≡ proved second.tree }
    ensures proof { IfOk result (λ r. performed end.now cutting ≡ Some r.tree) }
    ensures of { IfOk result (IsOf graph.now) }
    ensures extends { Extends graph.now pass.old pass.new }
{
    let Cutting {
        formula,
        left,
        right,
    } = cutting;
    let first = over(rt, alloc, graph, pass, left.inferences, first)?;
    let second = over(rt, alloc, graph, pass, right.inferences, second)?;
    let end = end.copy()?;
    let proof = graph.intern(rt, alloc, pass, Rule::Cut(formula), end, &[first, second])?;
    Ok(proof)
}

/// The proof with the cut, by searches above the inferences of its premises that visit at most so many sequents each. The proof of the first
/// goes into the graph once both are decided, so of all refusals only `Memory` may leave new nodes there.
pub(crate) fn perform<R: Wait>(
    rt: &R,
    alloc: Global,
    graph: &Graph,
    pass: &mut GraphPass,
    end: &Sequent,
    cutting: Cutting,
    budget: u64,
) -> Result<ProofRef, IntroFault>
    requires pass_of { IsPassOf graph.now pass.old }
    requires ready { IsReady end.now cutting }
    ensures made { Performs result budget (walk cutting.left.searched) (walk cutting.right.searched) (performed end.now cutting) }
    ensures unchanged { IfErr result (λ fault. fault ≢ IntroFault.Memory → history pass.new ≡ history pass.old) }
    ensures of { IfOk result (IsOf graph.now) }
    ensures extends { Extends graph.now pass.old pass.new }
{
    check(alloc, &cutting.right.searched, budget)?;
    let first = prove(rt, alloc, graph, pass, &cutting.left.searched, budget)?;
    let second = prove_checked(rt, alloc, graph, pass, &cutting.right.searched, budget)?;
    let proof = finish(rt, alloc, graph, pass, end, cutting, first, second)?;
    Ok(proof)
}
