//! The faults that stand in the way of an interpolation, in their order.
ghost use Rattle.std.specs.Prelude.{◌≡◌, ◌&&◌, not as negated, option_copied, Ok, Err, IfOk, IfErr, IfSome};
ghost use Rattle.std.specs.List.{find};
ghost use Rattle.fol.specs.Formed.{IsFormed};
ghost use Rattle.finite.specs.Finite as set;
ghost use Rattle.proof_graph.specs.Graphs.{IsOf};
ghost use Rattle.interp_laws.specs.Interpolation.{itp};
ghost use Rattle.interp_laws.specs.Interpolating.{first_outside as first_outside_formula, first_difference as first_different_formula, interpolating};
ghost use Rattle.lk_interp.specs.Interpolating.{Interpolates, NamesFormed};

use fol::Formula;
use interp_laws::InterpFault;
use lk_rules::{Formulas, Sequent, Side};
use proof_graph::{Graph, ProofRef};
use proof_steps::{exceeds, first_cut, first_defined};
use std::alloc::{AllocError, Global};

// The first formula of a list that isn't in both sets.
fn first_not_in_both<'f>(
    formulas: &'f [Formula],
    one: &Formulas,
    other: &Formulas,
) -> Option<&'f Formula>
    ensures { option_copied result ≡ find (λ f. negated (set.has one.now f && set.has other.now f)) formulas.now }
{
    formulas
        .iter()
        .find(|formula| !(one.has(formula) && other.has(formula)))
}

// The first formula that is in just one of two sets.
fn first_outside(
    alloc: Global,
    one: &Formulas,
    other: &Formulas,
) -> Result<Option<Formula>, AllocError>
    ensures first { IfOk result (λ o. o ≡ first_outside_formula one.now other.now) }
    ensures formed { IfOk result (λ o. IfSome o IsFormed) }
{
    let union = one.union(alloc, other)?;
    match first_not_in_both(union.as_slice(), one, other) {
        Some(formula) => Ok(Some(formula.copy()?)),
        None => Ok(None),
    }
}

// The first formula, left before right, that stands on its side of just one of two sequents.
fn first_difference(
    alloc: Global,
    one: &Sequent,
    other: &Sequent,
) -> Result<Option<(Formula, Side)>, AllocError>
    ensures first { IfOk result (λ o. o ≡ first_different_formula one.now other.now) }
    ensures formed { IfOk result (λ o. IfSome o (λ p. IsFormed p.0)) }
{
    if let Some(formula) = first_outside(alloc, &one.left, &other.left)? {
        return Ok(Some((formula, Side::Left)));
    }
    match first_outside(alloc, &one.right, &other.right)? {
        Some(formula) => Ok(Some((formula, Side::Right))),
        None => Ok(None),
    }
}

/// The first fault, if there is one.
pub(crate) fn check(
    graph: &Graph,
    alloc: Global,
    proof: &ProofRef,
    first: &Sequent,
    second: &Sequent,
    budget: u64,
) -> Result<(), InterpFault>
    requires { IsOf graph.now proof.now }
    ensures ok { IfOk result (λ _. interpolating proof.now.tree first.now second.now budget ≡ Ok (itp proof.now.tree first.now second.now)) }
    ensures err { IfErr result (λ fault. Interpolates (Err fault) (interpolating proof.now.tree first.now second.now budget)) }
    ensures named { IfErr result NamesFormed }
{
    if let Some(place) = first_cut(alloc, graph, proof)? {
        return Err(InterpFault::Cut(place));
    }
    let end = &graph.get(proof).end;
    if let Some((formula, side)) = first_defined(end)? {
        return Err(InterpFault::Defined { formula, side });
    }
    let union = first.union(alloc, second)?;
    if let Some((formula, side)) = first_difference(alloc, &union, end)? {
        return Err(InterpFault::Partition { formula, side });
    }
    if exceeds(proof, budget)? {
        return Err(InterpFault::Budget);
    }
    Ok(())
}
