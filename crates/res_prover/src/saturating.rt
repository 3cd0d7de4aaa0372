//! Whether clauses have a refutation, by rounds of resolution.
ghost use Rattle.std.specs.Prelude.{◌≡◌, IfOk, Err};
ghost use Rattle.std.specs.List.{All};
ghost use Rattle.lk_rules.specs.Sequents.{empty};
ghost use Rattle.clause_laws.specs.Subsumption.{IsClause};
ghost use Rattle.clause_laws.specs.Rounds.{IsClosed, Level};
ghost use Rattle.res_prover.specs.declared.rounds.ProveFault.TheVariants.{Rounds};
ghost use Rattle.res_prover.specs.Clauses.{clauses_of};
ghost use Rattle.res_prover.specs.Answers.{IsFound};

use crate::answer::{Found, Lits};
use crate::notes::Notes;
use crate::planning::plan_of;
use crate::refuting::refutation;
use crate::rounds::{Outcome, ProveFault, search};
use lk_rules::Sequent;
use std::alloc::{AllocError, Global};

// The clauses as sequents, whose sides are shared.
fn sequents(alloc: Global, clauses: &[Lits]) -> Result<Vec<Sequent>, AllocError>
    ensures { IfOk result (λ v. v.items ≡ clauses_of clauses.now) }
{
    let mut all = Vec::with_capacity(alloc, clauses.len())?;
    for place in 0..clauses.len() {
        let left = clauses[place].negative.copy()?;
        let right = clauses[place].positive.copy()?;
        all.push(Sequent { left, right })?;
    }
    Ok(all)
}

// The sequents as clauses, whose sides are shared.
fn literals(alloc: Global, sequents: &[Sequent]) -> Result<Vec<Lits>, AllocError>
    ensures { IfOk result (λ v. clauses_of v.items ≡ sequents.now) }
{
    let mut all = Vec::with_capacity(alloc, sequents.len())?;
    for place in 0..sequents.len() {
        let negative = sequents[place].left.copy()?;
        let positive = sequents[place].right.copy()?;
        all.push(Lits { negative, positive })?;
    }
    Ok(all)
}

/// Makes rounds of resolution, at most so many: in each, the clauses that the round before added are taken against all that are kept, with factors,
/// and tautologies and clauses that another one subsumes are dropped. It ends with a refutation, which has only the steps that the empty clause
/// needs, or with clauses that a further round brings nothing to (Robinson 1965; Leitsch, The Resolution Calculus, 1997). The steps are looked at
/// once more, and refused as want of memory if they are no refutation. A resolvent is tested as soon as it is made, so no more is held than is
/// kept; no bound on time is claimed.
pub fn saturate(alloc: Global, clauses: &[Lits], rounds: u64) -> Result<Found, ProveFault>
    requires { All IsClause (clauses_of clauses.now) }
    ensures found { IfOk result (IsFound (clauses_of clauses.now) rounds) }
    ensures rounds { result ≡ Err Rounds → (¬ Level (clauses_of clauses.now) rounds empty) × (¬ IsClosed (Level (clauses_of clauses.now) rounds)) }
{
    let sequents = sequents(alloc, clauses)?;
    let mut notes = Notes::new(alloc);
    match search(alloc, sequents.as_slice(), rounds, &mut notes) {
        Ok(Outcome::Empty) => {
            let plan = plan_of(alloc, &notes)?;
            let steps = refutation(alloc, sequents.as_slice(), plan.as_slice())?;
            Ok(Found::Refutation(steps))
        }
        Ok(Outcome::Saturated(kept)) => {
            let clauses = literals(alloc, kept.as_slice())?;
            Ok(Found::Saturated(clauses))
        },
        Err(fault) => Err(fault),
    }
}
