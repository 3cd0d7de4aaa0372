//! The resolvents of a round: of each clause and each other one, where one of them is new.
ghost use Rattle.std.specs.Prelude.{◌≡◌, Bool, List, Contains, IfOk};
ghost use Rattle.std.specs.List.{All};
ghost use Rattle.finite.specs.Finite as set;
ghost use Rattle.lk_rules.specs.declared.sequent.Sequent.{Sequent as Clause};
ghost use Rattle.clause_laws.specs.Choices.{choices as choices_of};
ghost use Rattle.clause_laws.specs.Resolvents.{IsFullResolvent};
ghost use Rattle.res_prover.specs.Lists.{lists_of};
ghost use Rattle.res_prover.specs.Partners.{partner_clauses, IsPartner};
ghost use Rattle.res_prover.specs.Working.{ByAtoms, IsWork, GoesOver, FromOne, ByNew};

use crate::ground_atoms::are_apart;
use crate::notes::Notes;
use crate::partners::Partner;
use crate::resolving::resolve_by;
use crate::work::{Work, add};
use fol::Formula;
use std::alloc::{AllocError, Global};

// Adds the resolvent by such atoms, where they have a unifier.
fn add_one(
    alloc: Global,
    first: &Partner,
    second: &Partner,
    rights: &[Formula],
    lefts: &[Formula],
    work: Work,
    notes: &mut Notes,
) -> Result<Work, AllocError>
    requires first { IsPartner first.now }
    requires second { IsPartner second.now }
    requires rights { Contains (choices_of (set.listing first.now.first.right)) rights.now }
    requires lefts { Contains (choices_of (set.listing second.now.second.left)) lefts.now }
    ensures { IfOk result (λ w. (ks : List Clause) (b : Bool) → Contains ks first.now.clause → Contains ks second.now.clause → IsWork ks b work → GoesOver ks b work w (ByAtoms first.now.first second.now.second rights.now lefts.now)) }
{
    let Some(made) = resolve_by(alloc, &first.first, &second.second, rights, lefts)? else {
        return Ok(work);
    };
    let added = add(alloc, work, made, first.number, second.number, notes)?;
    Ok(added)
}

// Adds the resolvents by these right atoms and each choice of left ones.
fn add_each(
    alloc: Global,
    first: &Partner,
    second: &Partner,
    rights: &[Formula],
    work: Work,
    notes: &mut Notes,
) -> Result<Work, AllocError>
    requires first { IsPartner first.now }
    requires second { IsPartner second.now }
    requires rights { Contains (choices_of (set.listing first.now.first.right)) rights.now }
    ensures { IfOk result (λ w. (ks : List Clause) (b : Bool) → Contains ks first.now.clause → Contains ks second.now.clause → IsWork ks b work → GoesOver ks b work w (FromOne (λ gs. ByAtoms first.now.first second.now.second rights.now gs) (lists_of second.now.lefts.items))) }
{
    let mut work = work;
    for place in 0..second.lefts.len() {
        if work.is_over() {
            return Ok(work);
        }
        let lefts = second.lefts[place].as_slice();
        work = add_one(alloc, first, second, rights, lefts, work, notes)?;
    }
    Ok(work)
}

// Adds the resolvents of two clauses.
fn add_pair(
    alloc: Global,
    first: &Partner,
    second: &Partner,
    work: Work,
    notes: &mut Notes,
) -> Result<Work, AllocError>
    requires first { IsPartner first.now }
    requires second { IsPartner second.now }
    ensures { IfOk result (λ w. (ks : List Clause) (b : Bool) → Contains ks first.now.clause → Contains ks second.now.clause → IsWork ks b work → GoesOver ks b work w (IsFullResolvent first.now.clause second.now.clause)) }
{
    let mut work = work;
    for place in 0..first.rights.len() {
        if work.is_over() {
            return Ok(work);
        }
        let rights = first.rights[place].as_slice();
        work = add_each(alloc, first, second, rights, work, notes)?;
    }
    Ok(work)
}

// Adds the resolvents of two clauses, unless both stood before the last round, or none of their atoms may have a unifier.
fn add_new(
    alloc: Global,
    first: &Partner,
    second: &Partner,
    work: Work,
    notes: &mut Notes,
) -> Result<Work, AllocError>
    requires first { IsPartner first.now }
    requires second { IsPartner second.now }
    ensures { IfOk result (λ w. (ks : List Clause) (b : Bool) → Contains ks first.now.clause → Contains ks second.now.clause → IsWork ks b work → GoesOver ks b work w (ByNew first.now second.now)) }
{
    if !first.is_new && !second.is_new {
        return Ok(work);
    }
    if are_apart(first.right_marks, second.left_marks) {
        return Ok(work);
    }
    let added = add_pair(alloc, first, second, work, notes)?;
    Ok(added)
}

// Adds the resolvents of a clause and each of the others.
fn add_with(
    alloc: Global,
    first: &Partner,
    partners: &[Partner],
    work: Work,
    notes: &mut Notes,
) -> Result<Work, AllocError>
    requires first { IsPartner first.now }
    requires partners { All IsPartner partners.now }
    ensures { IfOk result (λ w. (ks : List Clause) (b : Bool) → Contains ks first.now.clause → ((c : Clause) → Contains (partner_clauses partners.now) c → Contains ks c) → IsWork ks b work → GoesOver ks b work w (FromOne (ByNew first.now) partners.now)) }
{
    let mut work = work;
    for place in 0..partners.len() {
        if work.is_over() {
            return Ok(work);
        }
        work = add_new(alloc, first, &partners[place], work, notes)?;
    }
    Ok(work)
}

/// Adds the resolvents of any two of the clauses of which one is new.
pub(crate) fn add_all(
    alloc: Global,
    partners: &[Partner],
    work: Work,
    notes: &mut Notes,
) -> Result<Work, AllocError>
    requires { All IsPartner partners.now }
    ensures { IfOk result (λ w. (ks : List Clause) (b : Bool) → ((c : Clause) → Contains (partner_clauses partners.now) c → Contains ks c) → IsWork ks b work → GoesOver ks b work w (FromOne (λ p. FromOne (ByNew p) partners.now) partners.now)) }
{
    let mut work = work;
    for place in 0..partners.len() {
        if work.is_over() {
            return Ok(work);
        }
        work = add_with(alloc, &partners[place], partners, work, notes)?;
    }
    Ok(work)
}
