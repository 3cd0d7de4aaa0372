//! Rounds of resolution.
ghost use Rattle.std.specs.Prelude.{◌≡◌, Bool, true, false, List, Contains, IfOk, Err};
ghost use Rattle.std.specs.List.{All};
ghost use Rattle.lk_rules.specs.declared.sequent.Sequent.{Sequent as Clause};
ghost use Rattle.lk_rules.specs.Sequents.{empty};
ghost use Rattle.clause_laws.specs.Subsumption.{IsClause};
ghost use Rattle.clause_laws.specs.Rounds.{IsClosed, Level};
ghost use Rattle.res_prover.specs.declared.rounds.ProveFault.TheVariants.{Rounds};
ghost use Rattle.res_prover.specs.Kept.{kept_clauses};
ghost use Rattle.res_prover.specs.Reached.{IsReady, IsRoundOf};
ghost use Rattle.res_prover.specs.Working.{IsWork};
ghost use Rattle.res_prover.specs.Outcomes.{IsOutcome};

use crate::kept::{Kept, all_as_old, clauses_alone};
use crate::notes::Notes;
use crate::pairing::add_all;
use crate::partners::prepare_all;
use crate::starting::start;
use crate::work::{Stage, Work};
use lk_rules::Sequent;
use std::alloc::{AllocError, Global};

/// Why clauses were neither refuted nor saturated.
#[derive(Clone, Copy)]
pub enum ProveFault {
    /// The rounds reach neither the empty clause nor a closed set.
    Rounds,
    /// Memory is wanting.
    Memory,
}

impl From<AllocError> for ProveFault {
    ghost use Rattle.res_prover.specs.declared.rounds.ProveFault.TheVariants.{Memory};

    ghost from_gives = { λ _ e. e ≡ Memory };

    fn from(_error: AllocError) -> ProveFault {
        ProveFault::Memory
    }
}

/// What rounds have come to.
#[derive(Drop)]
pub(crate) enum Outcome {
    /// They reach the empty clause.
    Empty,
    /// They end with these clauses.
    Saturated(Vec<Sequent>),
}

// Whether the empty clause is there.
fn has_empty(alloc: Global, kept: &[Kept]) -> bool
    ensures yes { result ≡ true → Contains (kept_clauses kept.now) empty }
    ensures no { result ≡ false → ¬ Contains (kept_clauses kept.now) empty }
{
    let none = Sequent::empty(alloc);
    for place in 0..kept.len() {
        if *kept[place].clause.clause() == none {
            return true;
        }
    }
    false
}

// A round that stops, with the resolvents of so many of the last clauses, if there are more: mostly one of them is not covered already.
fn with_last(
    alloc: Global,
    kept: &[Kept],
    count: usize,
    work: Work,
    notes: &mut Notes,
) -> Result<Work, AllocError>
    requires { All IsClause (kept_clauses kept.now) }
    ensures { IfOk result (λ w. (ks : List Clause) (b : Bool) → ((c : Clause) → Contains (kept_clauses kept.now) c → Contains ks c) → IsWork ks b work → IsWork ks b w) }
{
    if !work.stops || work.is_over() || kept.len() <= count {
        return Ok(work);
    }
    let last = &kept[kept.len() - count..];
    let partners = prepare_all(alloc, last)?;
    let added = add_all(alloc, partners.as_slice(), work, notes)?;
    Ok(added)
}

// One round more. If it stops, it is over with the first resolvent that is not covered.
fn round(alloc: Global, kept: &[Kept], stops: bool, notes: &mut Notes) -> Result<Work, AllocError>
    requires { IsReady kept.now }
    ensures { IfOk result (IsRoundOf kept.now stops) }
{
    let old = all_as_old(alloc, kept)?;
    let work = Work {
        kept: old,
        stops,
        stage: Stage::Covered,
    };
    let work = with_last(alloc, kept, 16, work, notes)?;
    let work = with_last(alloc, kept, 128, work, notes)?;
    if work.is_over() {
        return Ok(work);
    }
    let partners = prepare_all(alloc, kept)?;
    let added = add_all(alloc, partners.as_slice(), work, notes)?;
    Ok(added)
}

/// Makes at most this many rounds of resolution, in which clauses that are covered are dropped, until the empty clause is met or a further round
/// brings nothing.
pub(crate) fn search(
    alloc: Global,
    clauses: &[Sequent],
    rounds: u64,
    notes: &mut Notes,
) -> Result<Outcome, ProveFault>
    requires { All IsClause clauses.now }
    ensures outcome { IfOk result (IsOutcome clauses.now rounds) }
    ensures rounds { result ≡ Err Rounds → (¬ Level clauses.now rounds empty) × (¬ IsClosed (Level clauses.now rounds)) }
{
    let mut kept = start(alloc, clauses, notes)?;
    for _ in 0..rounds {
        if has_empty(alloc, kept.as_slice()) {
            return Ok(Outcome::Empty);
        }
        let work = round(alloc, kept.as_slice(), false, notes)?;
        match work.stage {
            Stage::Covered => {
                let ended = clauses_alone(alloc, kept.as_slice())?;
                return Ok(Outcome::Saturated(ended));
            }
            Stage::Empty => return Ok(Outcome::Empty),
            Stage::Open => kept = work.kept,
        }
    }
    if has_empty(alloc, kept.as_slice()) {
        return Ok(Outcome::Empty);
    }
    let work = round(alloc, kept.as_slice(), true, notes)?;
    match work.stage {
        Stage::Covered => {
            let ended = clauses_alone(alloc, kept.as_slice())?;
            Ok(Outcome::Saturated(ended))
        }
        Stage::Open => Err(ProveFault::Rounds),
        Stage::Empty => Err(ProveFault::Rounds),
    }
}
