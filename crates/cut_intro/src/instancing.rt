//! Herbrand instances of proofs.
ghost use Rattle.std.specs.Prelude.{◌≡◌, ◌≤◌, ℕ, Some, None, Err, IfOk, IfErr};
ghost use Rattle.std.specs.List.{All};
ghost use Rattle.fol.specs.Formed.{IsFormed};
ghost use Rattle.finite.specs.Finite as set;
ghost use Rattle.proof_trees.specs.Trees.{concl, size as size_of};
ghost use Rattle.proof_graph.specs.Graphs.{IsOf};
ghost use Rattle.expansion_laws.specs.Proofs.{IsExpansionProof};
ghost use Rattle.exp_tree.specs.Reads.{expansion_of};
ghost use Rattle.exp_tree.specs.Sequents.{AreArranged};
ghost use Rattle.introduction_laws.specs.Instancing.{first_not_prenex as first_outside, instancing};
ghost use Rattle.cut_intro.specs.Instancing.{HasInstances, NamesFormed, HasTrees, AreInstancesFor};

use crate::items::items_of;
use crate::prenex::first_not_prenex;
use delta_table::Instances;
use exp_extract::{ExtractFault, extract};
use exp_tree::{CheckedExp, ExpSequent};
use fol::Formula;
use introduction_laws::HerbrandFault;
use lk_rules::{Sequent, Side};
use proof_graph::{Graph, ProofRef};
use proof_steps::first_cut;
use std::alloc::{AllocError, Global};

// The fault where a formula isn't of the right kind: a cut comes first.
#[tactic(auto, using(crate::proofs::InstancingOrder::at_cut, crate::proofs::InstancingOrder::at_formula))]
fn outside(
    alloc: Global,
    graph: &Graph,
    proof: &ProofRef,
    formula: Formula,
    side: Side,
) -> Result<HerbrandFault, AllocError>
    requires of { IsOf graph.now proof.now }
    requires first { first_outside (concl proof.now.tree) ≡ Some (formula, side) }
    requires formed { IsFormed formula }
    ensures exact { IfOk result (λ fault. (n : ℕ) → HasInstances (Err fault) (instancing proof.now.tree n)) }
    ensures named { IfOk result NamesFormed }
{
    match first_cut(alloc, graph, proof)? {
        Some(place) => Ok(HerbrandFault::Cut(place)),
        None => Ok(HerbrandFault::NotPrenex { formula, side }),
    }
}

// The formulas of a sequent are well formed.
fn see_formed(sequent: &Sequent)
    ensures left { All IsFormed (set.listing sequent.now.left) }
    ensures right { All IsFormed (set.listing sequent.now.right) }
{
    let _left = sequent.left();
    let _right = sequent.right();
}

// Trees are rightly built of what is well formed.
fn see_arranged(exps: &ExpSequent)
    ensures left { AreArranged exps.now.left }
    ensures right { AreArranged exps.now.right }
{
    let _left = exps.left.as_slice();
    let _right = exps.right.as_slice();
}

// The expansion proof of a proof whose end sequent has formulas of the right kind alone.
#[tactic(auto, using(crate::proofs::InstancingOrder::trees_found, crate::proofs::InstancingOrder::size_within, crate::proofs::InstancingOrder::trees_cut, crate::proofs::InstancingOrder::trees_budget, crate::proofs::InstancingOrder::trees_defined))]
fn trees(
    alloc: Global,
    graph: &Graph,
    proof: &ProofRef,
    budget: u64,
) -> Result<CheckedExp, HerbrandFault>
    requires of { IsOf graph.now proof.now }
    requires prenex { first_outside (concl proof.now.tree) ≡ None }
    ensures exact { HasTrees result (instancing proof.now.tree budget) }
    ensures proof { IfOk result (λ e. IsExpansionProof (expansion_of e) (concl proof.now.tree)) }
    ensures size { IfOk result (λ _. size_of proof.now.tree ≤ budget) }
    ensures named { IfErr result NamesFormed }
{
    match extract(alloc, graph, proof, budget) {
        Ok(exps) => Ok(exps),
        Err(ExtractFault::Cut(place)) => Err(HerbrandFault::Cut(place)),
        Err(ExtractFault::Budget) => Err(HerbrandFault::Budget),
        Err(ExtractFault::Memory) => Err(HerbrandFault::Memory),
        Err(ExtractFault::Defined { .. }) => unreachable!(),
    }
}

/// The Herbrand instances of a proof without cuts, after Herbrand (1930) and Miller (1987): for each formula of its end sequent the tuples of
/// terms by which the proof's expansion trees reach the formula's matrix.
///
/// The faults come in this order, and the first is answered: `Cut` with the place of the first cut among the proof's steps; `NotPrenex` with
/// the first formula of the end sequent, left before right, that isn't zero or more weak quantifiers (`All` on the left, `Ex` on the right)
/// over a formula without quantifiers and without predicate symbols that have a body; `Budget` where the proof's tree has more nodes than the
/// budget allows.
pub fn herbrand(
    alloc: Global,
    graph: &Graph,
    proof: &ProofRef,
    budget: u64,
) -> Result<Instances, HerbrandFault>
    requires of { IsOf graph.now proof.now }
    // It is the instances, or the first fault, unless memory runs out.
    ensures exact { HasInstances result (instancing proof.now.tree budget) }
    ensures proof { IfOk result (AreInstancesFor (concl proof.now.tree)) }
    ensures size { IfOk result (λ _. size_of proof.now.tree ≤ budget) }
    ensures named { IfErr result NamesFormed }
{
    let end = &graph.get(proof).end;
    see_formed(end);
    if let Some((formula, side)) = first_not_prenex(end)? {
        return Err(outside(alloc, graph, proof, formula, side)?);
    }
    let exps = trees(alloc, graph, proof, budget)?;
    let trees = exps.tree();
    see_arranged(trees);
    let instances = items_of(alloc, trees)?;
    Ok(instances)
}
