//! Choices of atoms: some members of a list, in its order, that have a unifier.
ghost use Rattle.std.specs.Prelude.{◌≡◌, ◌<◌, ◌∷◌, ◌++◌, [], length, false, Ok, IfOk, OnOk};
ghost use Rattle.std.specs.List.{All};
ghost use Rattle.res_prover.specs.Resolved.{IsAtomFormed};
ghost use Rattle.res_prover.specs.Lists.{lists_of};
ghost use Rattle.res_prover.specs.Choosing.{IsUnified, AddsExtensions, AddsChoices, AreUnifiedChoices};

use crate::unifiers::unifier;
use fol::Formula;
use std::alloc::{AllocError, Global};

/// Adds copies of the formulas.
pub(crate) fn push_copies(list: &mut Vec<Formula>, formulas: &[Formula]) -> Result<(), AllocError>
    ensures { OnOk result (list.new.items ≡ list.old.items ++ formulas.now) }
{
    for place in 0..formulas.len() {
        list.push(formulas[place].copy()?)?;
    }
    Ok(())
}

// The formulas and one more.
fn with_last(
    alloc: Global,
    formulas: &[Formula],
    last: &Formula,
) -> Result<Vec<Formula>, AllocError>
    ensures { IfOk result (λ v. v.items ≡ formulas.now ++ last.now ∷ []) }
{
    let mut list = Vec::with_capacity(alloc, formulas.len().saturating_add(1))?;
    push_copies(&mut list, formulas)?;
    list.push(last.copy()?)?;
    Ok(list)
}

// Whether the atoms have a unifier.
fn have_unifier(alloc: Global, atoms: &[Formula]) -> Result<bool, AllocError>
    requires some { 0 < length atoms.now }
    requires atoms { All IsAtomFormed atoms.now }
    ensures { result ≡ Ok false → ¬ IsUnified atoms.now }
{
    let [first, rest @ ..] = atoms else {
        unreachable!()
    };
    let Some(map) = unifier(alloc, first, rest)? else {
        return Ok(false);
    };
    drop(map);
    Ok(true)
}

// Adds the lists of the chosen atoms, then some of the others, that have a unifier. The chosen ones alone have one.
fn push_extensions(
    alloc: Global,
    chosen: Vec<Formula>,
    others: &[Formula],
    lists: &mut Vec<Vec<Formula>>,
) -> Result<(), AllocError>
    requires some { 0 < length chosen.items }
    requires atoms { All IsAtomFormed (chosen.items ++ others.now) }
    ensures { OnOk result (AddsExtensions chosen.items others.now (lists_of lists.old.items) (lists_of lists.new.items)) }
{
    let [next, rest @ ..] = others else {
        lists.push(chosen)?;
        return Ok(());
    };
    let more = with_last(alloc, chosen.as_slice(), next)?;
    if !have_unifier(alloc, more.as_slice())? {
        push_extensions(alloc, chosen, rest, lists)?;
        return Ok(());
    }
    push_extensions(alloc, more, rest, lists)?;
    push_extensions(alloc, chosen, rest, lists)?;
    Ok(())
}

// Adds the lists of one of the atoms or more that have a unifier.
fn push_choices(
    alloc: Global,
    atoms: &[Formula],
    lists: &mut Vec<Vec<Formula>>,
) -> Result<(), AllocError>
    requires { All IsAtomFormed atoms.now }
    ensures { OnOk result (AddsChoices atoms.now (lists_of lists.old.items) (lists_of lists.new.items)) }
{
    let [first, rest @ ..] = atoms else {
        return Ok(());
    };
    let alone = with_last(alloc, &[], first)?;
    push_extensions(alloc, alone, rest, lists)?;
    push_choices(alloc, rest, lists)?;
    Ok(())
}

/// The lists of one of the atoms or more that have a unifier.
pub(crate) fn choices(alloc: Global, atoms: &[Formula]) -> Result<Vec<Vec<Formula>>, AllocError>
    requires { All IsAtomFormed atoms.now }
    ensures { IfOk result (λ v. AreUnifiedChoices atoms.now (lists_of v.items)) }
{
    let mut lists = Vec::new(alloc);
    push_choices(alloc, atoms, &mut lists)?;
    Ok(lists)
}
