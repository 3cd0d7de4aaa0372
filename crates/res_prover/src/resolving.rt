//! The resolvent of two clauses that are apart, by given atoms.
ghost use Rattle.std.specs.Prelude.{◌≡◌, ◌++◌, ◌<◌, length, None, Ok, IfOk, IfSome};
ghost use Rattle.std.specs.List.{All};
ghost use Rattle.res_prover.specs.Choosing.{IsUnified};
ghost use Rattle.res_prover.specs.Resolved.{IsAtomFormed, IsResolvedBy};

use crate::choices::push_copies;
use crate::clashes::first_clash;
use crate::imaging::image_by;
use crate::normal::normal;
use crate::unifiers::unifier;
use fol::Formula;
use lk_rules::Sequent;
use refutations::resolvent;
use std::alloc::{AllocError, Global};
use substitution::{Subst, apply};

/// A resolvent, and how it was made.
#[derive(Drop)]
pub(crate) struct Made {
    /// The resolvent, with numbered variables.
    pub clause: Sequent,
    /// The unifier, after the clauses were renamed apart.
    pub unifier: Subst,
    pub atom: Formula,
    /// The map that numbers the variables of the resolvent.
    pub numbering: Subst,
}

// Atoms of one list and of another.
fn joined(alloc: Global, first: &[Formula], other: &[Formula]) -> Result<Vec<Formula>, AllocError>
    ensures { IfOk result (λ v. v.items ≡ first.now ++ other.now) }
{
    let mut list = Vec::new(alloc);
    push_copies(&mut list, first)?;
    push_copies(&mut list, other)?;
    Ok(list)
}

/// The resolvent by right atoms of the first clause and left atoms of the second, where they have a unifier.
pub(crate) fn resolve_by(
    alloc: Global,
    positive: &Sequent,
    negative: &Sequent,
    rights: &[Formula],
    lefts: &[Formula],
) -> Result<Option<Made>, AllocError>
    requires some { 0 < length rights.now }
    requires atoms { All IsAtomFormed (rights.now ++ lefts.now) }
    ensures by { IfOk result (λ o. IfSome o (λ m. IsResolvedBy positive.now negative.now rights.now lefts.now m.clause)) }
    ensures none { result ≡ Ok None → ¬ IsUnified (rights.now ++ lefts.now) }
{
    if first_clash(rights, lefts) {
        return Ok(None);
    }
    let [first, rest @ ..] = rights else {
        unreachable!()
    };
    let others = joined(alloc, rest, lefts)?;
    let Some(map) = unifier(alloc, first, others.as_slice())? else {
        return Ok(None);
    };
    let atom = apply(alloc, &map, first)?;
    let one = image_by(alloc, positive, &map)?;
    let other = image_by(alloc, negative, &map)?;
    let whole = resolvent(alloc, &one, &other, &atom)?;
    let (clause, numbering) = normal(alloc, &whole)?;
    Ok(Some(Made {
        clause,
        unifier: map,
        atom,
        numbering,
    }))
}
