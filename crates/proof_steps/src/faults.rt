//! What stands in the way of a transformation of a proof.
ghost use Rattle.std.specs.Prelude.{◌≡◌, nat_lt, option_copied, IfOk, IfSome};
ghost use Rattle.std.specs.List.{find};
ghost use Rattle.fol.specs.Facts.{has_body};
ghost use Rattle.fol.specs.Formed.{IsFormed};
ghost use Rattle.proof_trees.specs.Trees.{size as size_of};
ghost use Rattle.step_laws.specs.Faults.{first_defined as first_defined_formula};

use fol::Formula;
use lk_rules::{Sequent, Side};
use proof_graph::ProofRef;
use std::alloc::AllocError;

// The first formula of a list in which a predicate symbol has a body.
fn first_with_body(formulas: &[Formula]) -> Option<&Formula>
    ensures { option_copied result ≡ find has_body formulas.now }
{
    formulas.iter().find(|formula| formula.has_body())
}

/// The first formula of the sequent, left before right, in which a predicate symbol has a body, with its side.
pub fn first_defined(sequent: &Sequent) -> Result<Option<(Formula, Side)>, AllocError>
    ensures first { IfOk result (λ o. o ≡ first_defined_formula sequent.now) }
    ensures formed { IfOk result (λ o. IfSome o (λ p. IsFormed p.0)) }
{
    if let Some(formula) = first_with_body(sequent.left()) {
        return Ok(Some((formula.copy()?, Side::Left)));
    }
    match first_with_body(sequent.right()) {
        Some(formula) => Ok(Some((formula.copy()?, Side::Right))),
        None => Ok(None),
    }
}

/// Whether the proof's tree has more nodes than the budget allows. Numbers of nodes from 2^64 - 1 on aren't told apart, so a budget of that
/// number can't be compared with them: it is answered as want of memory.
pub fn exceeds(proof: &ProofRef, budget: u64) -> Result<bool, AllocError>
    ensures { IfOk result (λ exceeds. exceeds ≡ nat_lt budget (size_of proof.now.tree)) }
{
    let nodes = proof.counts().nodes;
    if nodes <= budget && nodes == u64::MAX {
        return Err(AllocError);
    }
    Ok(nodes > budget)
}
