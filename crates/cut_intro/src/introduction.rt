//! Introduction of one cut.
ghost use Rattle.std.specs.Prelude.{◌≡◌, ◌≢◌, ◌<◌, ◌≤◌, ◌^◌, ℕ, IfOk, IfErr, true};
ghost use Rattle.herbrand_laws.specs.Counted.{counted};
ghost use Rattle.proof_trees.specs.Trees.{concl, IsValid, cuts as cuts_of, quants as quants_of, size as size_of};
ghost use Rattle.proof_graph.specs.Graphs.{IsOf, IsPassOf, history, Extends};
ghost use Rattle.search_laws.specs.Search.{walk};
ghost use Rattle.herbrand_laws.specs.Introduction.{left_search, right_search, introduced as introduced_by};
ghost use Rattle.cut_intro.specs.Cuttings.{HasCandidate, IsCandidateFor};
ghost use Rattle.cut_intro.specs.Instancing.{AreInstancesFor};
ghost use Rattle.cut_intro.specs.Performing.{Performs};
ghost use Rattle.introduction_laws.specs.Introducing.{has_formed_instances, introducing};
ghost use Rattle.cut_intro.specs.Introducing.{Introduces, NamesFormedFormula, IfShorter, IfSame, answered, ChoosesBelow};

use crate::instancing::herbrand;
use crate::performing::perform;
use crate::planning::plan;
use delta_table::{Candidate, Instances, best, count};
use herbrand_laws::laws;
use introduction_laws::IntroFault;
use proof_graph::{Graph, GraphPass, ProofRef};
use proof_steps::quants;
use std::alloc::{AllocError, Global};
use std::sync::Wait;
use std::thread::Threads;

/// The most tuples of quantified formulas for which candidates are looked for.
const MAX_TUPLES: u64 = 48;

/// What takes the place of a proof.
#[derive(Drop)]
pub enum Introduced {
    /// A proof of the same end sequent with one cut and fewer quantifier inferences.
    Shorter(ProofRef),
    /// The proof itself: there is no such proof by the best candidate.
    Same(ProofRef),
}

// The best candidate, if it costs less than the proof has quantifier inferences.
fn cheaper<R: Threads + Sync>(
    rt: &R,
    alloc: Global,
    graph: &Graph,
    proof: &ProofRef,
    instances: &Instances,
    width: u64,
) -> Result<Option<Candidate>, AllocError>
    requires of { IsOf graph.now proof.now }
    requires few { counted instances.now ≤ 48 }
    requires small { size_of proof.now.tree < 2 ^ 64 }
    requires width_from { 2 ≤ width }
    requires width_to { width ≤ 4 }
    ensures { IfOk result (λ o. ChoosesBelow o width (quants_of proof.now.tree) instances.now) }
{
    laws::candidates();
    let quantifiers = quants(alloc, graph, proof)?;
    match best(rt, alloc, instances, width)? {
        Some(candidate) => {
            let is_less = candidate.cost < u128::from(quantifiers);
            if is_less {
                Ok(Some(candidate))
            } else {
                Ok(None)
            }
        }
        None => Ok(None),
    }
}

// The proof with the cut by a candidate.
fn with_cut<R: Wait>(
    rt: &R,
    alloc: Global,
    graph: &Graph,
    pass: &mut GraphPass,
    proof: &ProofRef,
    instances: &Instances,
    candidate: &Candidate,
    budget: u64,
) -> Result<ProofRef, IntroFault>
    requires pass_of { IsPassOf graph.now pass.old }
    requires of { IsOf graph.now proof.now }
    requires instances { AreInstancesFor (concl proof.now.tree) instances.now }
    requires candidate { HasCandidate instances.now candidate.now }
    ensures made { (width : ℕ) → IsCandidateFor width instances.now candidate.now → let s = concl proof.now.tree in Performs result budget (walk (left_search width s instances.now candidate.now.values)) (walk (right_search width s instances.now candidate.now.values)) (introduced_by width s instances.now candidate.now.values) }
    ensures unchanged { IfErr result (λ fault. fault ≢ IntroFault.Memory → history pass.new ≡ history pass.old) }
    ensures of { IfOk result (IsOf graph.now) }
    ensures extends { Extends graph.now pass.old pass.new }
{
    let end = &graph.get(proof).end;
    let cutting = plan(alloc, end, instances, candidate)?;
    perform(rt, alloc, graph, pass, end, cutting, budget)
}

/// Introduces one cut into a proof without cuts, after Hetzl, Leitsch, Reis and Weller (2014). The proof's Herbrand instances are looked
/// through for patterns: of all sets of terms by which two to `width` tuples of a formula have one pattern, that is taken with which a proof
/// has the fewest quantifier inferences. The cut formula says of everything what the patterns say of these terms. The answer is `Shorter` with
/// that proof, of the same end sequent with one cut, where it has fewer quantifier inferences than the given one; else `Same` with that.
///
/// The faults come in this order, and the first is answered: `Cut`, `NotPrenex` and `Budget` as `herbrand` has them, where the budget bounds the
/// number of nodes of the proof's tree; `TooMany` where the formulas with quantifiers have more than 48 tuples; `Budget` where one of the two
/// searches for the parts without quantifiers visits more sequents than the budget allows, each by itself. The proof goes into the graph once
/// both are decided, so of all refusals only `Memory` may leave new nodes there.
#[tactic(auto, using(crate::proofs::IntroductionOrder::refused_by))]
pub fn introduce<R: Wait + Threads + Sync>(
    rt: &R,
    alloc: Global,
    graph: &Graph,
    pass: &mut GraphPass,
    proof: &ProofRef,
    width: u64,
    budget: u64,
) -> Result<Introduced, IntroFault>
    requires pass_of { IsPassOf graph.now pass.old }
    requires of { IsOf graph.now proof.now }
    requires width_from { 2 ≤ width }
    requires width_to { width ≤ 4 }
    // It is the shorter proof, that there is none, or the first fault, unless memory runs out.
    ensures exact { Introduces result (introducing width proof.now.tree budget) }
    ensures valid { IfOk result (IfShorter (λ r. IsValid r.tree)) }
    ensures end { IfOk result (IfShorter (λ r. concl r.tree ≡ concl proof.now.tree)) }
    ensures one_cut { IfOk result (IfShorter (λ r. cuts_of r.tree ≡ 1)) }
    ensures fewer { IfOk result (IfShorter (λ r. quants_of r.tree < quants_of proof.now.tree)) }
    ensures same { IfOk result (IfSame (λ r. r ≡ proof.now)) }
    ensures instances { IfOk result (λ _. has_formed_instances proof.now.tree ≡ true) }
    ensures named { IfErr result NamesFormedFormula }
    ensures unchanged { IfErr result (λ fault. fault ≢ IntroFault.Memory → history pass.new ≡ history pass.old) }
    ensures unchanged_same { IfOk result (IfSame (λ _. history pass.new ≡ history pass.old)) }
    ensures of { IfOk result (λ made. IsOf graph.now (answered made)) }
    ensures extends { Extends graph.now pass.old pass.new }
{
    let instances = herbrand(alloc, graph, proof, budget)?;
    let tuples = count(&instances);
    if tuples > MAX_TUPLES {
        return Err(IntroFault::TooMany(tuples));
    }
    match cheaper(rt, alloc, graph, proof, &instances, width)? {
        Some(candidate) => {
            let made = with_cut(
                rt, alloc, graph, pass, proof, &instances, &candidate, budget,
            )?;
            Ok(Introduced::Shorter(made))
        }
        None => Ok(Introduced::Same(proof.keep()?)),
    }
}
