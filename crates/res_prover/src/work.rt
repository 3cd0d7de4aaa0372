//! A round in the making: what is kept so far.
ghost use Rattle.std.specs.Prelude.{◌≡◌, Bool, List, IfOk};
ghost use Rattle.lk_rules.specs.declared.sequent.Sequent.{Sequent as Clause};
ghost use Rattle.res_prover.specs.Working.{is_over as over, IsNext, IsStageAfter, IsWork, GoesOver};

use crate::keeping::{is_subsumed, put_last};
use crate::kept::{Kept, as_new};
use crate::notes::{Notes, Source};
use crate::resolving::Made;
use crate::subsumption::is_tautology;
use lk_rules::Sequent;
use std::alloc::{AllocError, Global};

/// What a round has met so far.
#[derive(Clone, Copy)]
pub(crate) enum Stage {
    /// Each resolvent so far was covered before the round.
    Covered,
    /// Some resolvent was not.
    Open,
    /// The empty clause.
    Empty,
}

/// A round in the making.
#[derive(Drop)]
pub(crate) struct Work {
    /// The clauses that are kept so far. Those of the round are the new ones.
    pub kept: Vec<Kept>,
    /// Whether the round is over as soon as some resolvent is not covered.
    pub stops: bool,
    pub stage: Stage,
}

impl Work {
    /// Whether the rest of the round is not needed.
    pub fn is_over(&self) -> bool
        ensures { result ≡ over self.now }
    {
        match self.stage {
            Stage::Covered => false,
            Stage::Open => self.stops,
            Stage::Empty => true,
        }
    }
}

// The stage of a round after a clause that was not covered.
fn stage_after(alloc: Global, clause: &Sequent) -> Stage
    ensures { IsStageAfter clause.now result }
{
    if *clause == Sequent::empty(alloc) {
        Stage::Empty
    } else {
        Stage::Open
    }
}

/// The round with one more resolvent, of the clauses of two notes. It is dropped where it is covered.
pub(crate) fn add(
    alloc: Global,
    work: Work,
    made: Made,
    positive: usize,
    negative: usize,
    notes: &mut Notes,
) -> Result<Work, AllocError>
    ensures { IfOk result (λ w. (ks : List Clause) (b : Bool) → IsNext ks made.clause → IsWork ks b work → GoesOver ks b work w (λ r. made.clause ≡ r)) }
{
    let Made {
        clause,
        unifier,
        atom,
        numbering,
    } = made;
    if is_tautology(&clause) {
        return Ok(work);
    }
    let one = as_new(alloc, clause, notes.all().len())?;
    if is_subsumed(alloc, work.kept.as_slice(), &one)? {
        return Ok(work);
    }
    let source = Source::Resolvent {
        positive,
        negative,
        unifier,
        atom,
    };
    notes.push(source, numbering, one.clause.clause())?;
    let stage = stage_after(alloc, one.clause.clause());
    let Work {
        kept,
        stops,
        stage: _,
    } = work;
    let kept = put_last(alloc, kept, one)?;
    Ok(Work { kept, stops, stage })
}
