//! Which clauses are kept: those that no other one makes needless.
ghost use Rattle.std.specs.Prelude.{◌≡◌, ◌∷◌, ◌++◌, [], false, not as negated, filter, IfOk, OnOk};
ghost use Rattle.std.specs.List.{All, list_any};
ghost use Rattle.clause_laws.specs.Subsumption.{IsClause};
ghost use Rattle.clause_laws.specs.Searching.{subsumes as does_subsume};
ghost use Rattle.res_prover.specs.Kept.{kept_clauses, is_needless};

use crate::kept::{Kept, copied};
use crate::subsumption::{is_tautology, subsumes};
use std::alloc::{AllocError, Global};

/// Whether one of the clauses that are kept subsumes this one.
pub(crate) fn is_subsumed(alloc: Global, kept: &[Kept], one: &Kept) -> Result<bool, AllocError>
    ensures { IfOk result (λ subsumed. All IsClause (kept_clauses kept.now) → subsumed ≡ list_any (λ k. does_subsume k.clause one.now.clause) kept.now) }
{
    for place in 0..kept.len() {
        let clause = &kept[place].clause;
        if !clause.has_marks_within(&one.clause) {
            continue;
        }
        if subsumes(alloc, clause, &one.clause)? {
            return Ok(true);
        }
    }
    Ok(false)
}

/// Whether the clause is a tautology, or one of those that are kept subsumes it.
pub(crate) fn is_covered(alloc: Global, kept: &[Kept], one: &Kept) -> Result<bool, AllocError>
    ensures { IfOk result (λ covered. All IsClause (kept_clauses kept.now) → covered ≡ is_needless kept.now one.now.clause) }
{
    if is_tautology(one.clause.clause()) {
        return Ok(true);
    }
    is_subsumed(alloc, kept, one)
}

// Adds the other clause, unless the first one subsumes it.
fn push_unless_subsumed(
    alloc: Global,
    kept: &mut Vec<Kept>,
    one: &Kept,
    other: &Kept,
) -> Result<(), AllocError>
    ensures { OnOk result (IsClause one.now.clause → kept.new.items ≡ kept.old.items ++ filter (λ k. negated (does_subsume one.now.clause k.clause)) (other.now ∷ [])) }
{
    if subsumes(alloc, &one.clause, &other.clause)? {
        return Ok(());
    }
    kept.push(copied(other)?)?;
    Ok(())
}

// Those of the others that the clause doesn't subsume.
fn remaining(alloc: Global, others: &[Kept], one: &Kept) -> Result<Vec<Kept>, AllocError>
    ensures { IfOk result (λ v. IsClause one.now.clause → v.items ≡ filter (λ k. negated (does_subsume one.now.clause k.clause)) others.now) }
{
    let mut kept = Vec::with_capacity(alloc, others.len())?;
    for place in 0..others.len() {
        push_unless_subsumed(alloc, &mut kept, one, &others[place])?;
    }
    Ok(kept)
}

/// The clause and those of the others that it doesn't subsume.
pub(crate) fn in_front(alloc: Global, others: &[Kept], one: Kept) -> Result<Vec<Kept>, AllocError>
    ensures { IfOk result (λ v. IsClause one.clause → v.items ≡ one ∷ filter (λ k. negated (does_subsume one.clause k.clause)) others.now) }
{
    let mut kept = remaining(alloc, others, &one)?;
    kept.insert(0, one)?;
    Ok(kept)
}

// Whether the clause subsumes one of the others.
fn subsumes_some(alloc: Global, others: &[Kept], one: &Kept) -> Result<bool, AllocError>
    ensures { IfOk result (λ some. IsClause one.now.clause → some ≡ list_any (λ k. does_subsume one.now.clause k.clause) others.now) }
{
    for place in 0..others.len() {
        let clause = &others[place].clause;
        if !one.clause.has_marks_within(clause) {
            continue;
        }
        if subsumes(alloc, &one.clause, clause)? {
            return Ok(true);
        }
    }
    Ok(false)
}

/// Those of the others that the clause doesn't subsume, and then the clause. Mostly these are all, and none is copied.
pub(crate) fn put_last(alloc: Global, others: Vec<Kept>, one: Kept) -> Result<Vec<Kept>, AllocError>
    ensures { IfOk result (λ v. IsClause one.clause → v.items ≡ filter (λ k. negated (does_subsume one.clause k.clause)) others.items ++ one ∷ []) }
{
    if !subsumes_some(alloc, others.as_slice(), &one)? {
        let mut kept = others;
        kept.push(one)?;
        return Ok(kept);
    }
    let mut kept = remaining(alloc, others.as_slice(), &one)?;
    kept.push(one)?;
    Ok(kept)
}
