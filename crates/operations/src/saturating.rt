//! What rounds of resolution on the clauses of a problem come to.
ghost use Rattle.std.specs.Prelude.{◌≡◌, ℕ, List, true, [], ◌∷◌, IfOk};
ghost use Rattle.std.specs.List.{All, list_all};
ghost use Rattle.fol.specs.Formed.{IsFormed};
ghost use Rattle.refutations.specs.declared.clause.Clause.{Clause as InputClause};
ghost use Rattle.refutations.specs.Clauses.{literals_of, IsClauseOf};
ghost use Rattle.refutations.specs.Refutations.{AreFormedSteps};
ghost use Rattle.ground_laws.specs.Steps.{sequents_of};
ghost use Rattle.clause_laws.specs.Saturation.{IsSaturation};
ghost use Rattle.res_prover.specs.Clauses.{clause_of as sequent_of_clause, clauses_of as sequents_of_clauses};
ghost use Rattle.res_prover.specs.Answers.{IsRefuted};
ghost use Rattle.proof_graph.specs.declared.graph.Graph.{Graph};
ghost use Rattle.tptp_problem.specs.ProblemClauses.{clauses_of, IsReadProblem};
ghost use Rattle.operation_laws.specs.Answers.{saturation};
ghost use Rattle.operation_laws.specs.Running.{has_closure, run};
ghost use Rattle.held_values.specs.Means.{sense, Fits};
ghost use Rattle.operations.specs.Means.{ComesTo};

use crate::answers::{Made, Ran};
use crate::given::problem_given;
use crate::refuting::have_closures;
use crate::shown::{are_shown_clauses, are_shown_steps};
use fol::Formula;
use held_values::{Held, Refutation};
use job_lang::Op;
use job_words::{ClauseList, RefutationSteps, Utf8Text};
use lk_rules::Sequent;
use operation_laws::Failure;
use refutations::{Clause, ResStep, literals};
use res_prover::{Found, Lits, ProveFault, saturate};
use std::alloc::{AllocError, Global};
use tptp_problem::{Problem, clauses};

// A clause by the sets of its negative and its positive atoms.
fn literals_in(alloc: Global, matrix: &Formula) -> Result<Lits, AllocError>
    requires { IsFormed matrix.now }
    ensures { IfOk result (λ c. sequent_of_clause c ≡ literals_of matrix.now) }
{
    let sequent = literals(alloc, matrix)?;
    Ok(Lits {
        negative: sequent.left.copy()?,
        positive: sequent.right.copy()?,
    })
}

fn literals_of_each(alloc: Global, clauses: &[Clause]) -> Result<Vec<Lits>, AllocError>
    requires { All IsClauseOf clauses.now }
    ensures { IfOk result (λ cs. sequents_of_clauses cs.items ≡ sequents_of clauses.now) }
{
    let mut all = Vec::with_capacity(alloc, clauses.len())?;
    for clause in clauses {
        all.push(literals_in(alloc, &clause.matrix)?)?;
    }
    Ok(all)
}

// Clauses that are kept as sequents, whose sides are shared.
fn sequents(alloc: Global, kept: &[Lits]) -> Result<Vec<Sequent>, AllocError>
    ensures { IfOk result (λ ss. ss.items ≡ sequents_of_clauses kept.now) }
{
    let mut all = Vec::with_capacity(alloc, kept.len())?;
    for place in 0..kept.len() {
        let left = kept[place].negative.copy()?;
        let right = kept[place].positive.copy()?;
        all.push(Sequent { left, right })?;
    }
    Ok(all)
}

// The clauses that rounds end with, where a reply can tell them.
#[tactic(auto, using(crate::proofs::Saturated::saturation_lacks))]
fn keep_clauses(alloc: Global, kept: &[Lits]) -> Ran
    ensures { (g : Graph) (cs : List InputClause) (n : ℕ) → IsSaturation (sequents_of cs) n (sequents_of_clauses kept.now) → ComesTo g result (saturation cs n) }
{
    let Ok(clauses) = sequents(alloc, kept) else {
        return Ran::Lacking;
    };
    if !are_shown_clauses(&clauses) {
        return Ran::Lacking;
    }
    Ran::Done(Made::Saturated(ClauseList::from_vec(clauses)))
}

// The steps of a refutation of the clauses of the problem, where a reply can tell them.
#[tactic(auto, using(crate::proofs::Saturated::saturation_lacks))]
fn hold_steps(alloc: Global, problem: &Problem, clauses: &[Clause], steps: Vec<ResStep>) -> Ran
    requires problem { IsReadProblem problem.now }
    requires clauses { clauses.now ≡ clauses_of problem.now.entries }
    requires known { All IsClauseOf clauses.now }
    requires closed { list_all has_closure clauses.now ≡ true }
    requires steps { AreFormedSteps steps.items }
    ensures { (g : Graph) (n : ℕ) → IsRefuted (sequents_of clauses.now) n steps.items → ComesTo g result (saturation clauses.now n) }
{
    let _clauses = clauses;
    if !are_shown_steps(&steps) {
        return Ran::Lacking;
    }
    let Ok(steps) = RefutationSteps::from_vec(alloc, steps) else {
        return Ran::Lacking;
    };
    match problem.copy() {
        Ok(problem) => Ran::Done(Made::Derivation(Refutation { problem, steps })),
        Err(_) => Ran::Lacking,
    }
}

// A refutation of the clauses of the problem, or the clauses that rounds end with.
#[tactic(auto, using(crate::proofs::Saturated::saturation_lacks))]
fn saturate_clauses(alloc: Global, problem: &Problem, clauses: &[Clause], rounds: u64) -> Ran
    requires problem { IsReadProblem problem.now }
    requires clauses { clauses.now ≡ clauses_of problem.now.entries }
    requires known { All IsClauseOf clauses.now }
    requires closed { list_all has_closure clauses.now ≡ true }
    ensures { (g : Graph) → ComesTo g result (saturation clauses.now rounds) }
{
    let Ok(sets) = literals_of_each(alloc, clauses) else {
        return Ran::Lacking;
    };
    match saturate(alloc, &sets, rounds) {
        Ok(Found::Refutation(steps)) => hold_steps(alloc, problem, clauses, steps),
        Ok(Found::Saturated(kept)) => keep_clauses(alloc, &kept),
        Err(ProveFault::Rounds) => Ran::Failed(Failure::Rounds),
        Err(ProveFault::Memory) => Ran::Lacking,
    }
}

/// A refutation of the clauses of the problem that is named, or the clauses that so many rounds end with. A refutation is held as it is, with
/// the proof that it stands for unmade.
#[tactic(auto, using(crate::proofs::Givings::absent_saturated, crate::proofs::Saturated::saturates_lacks, crate::proofs::Saturated::closed_comes))]
pub fn prove_in(alloc: Global, of: &Utf8Text, value: &Held, rounds: u64) -> Ran
    requires { (g : Graph) × Fits g value.now }
    ensures { (g : Graph) → ComesTo g result (run (Op.Prove of.now rounds) (sense value.now ∷ [])) }
{
    let problem = match problem_given(alloc, of, value) {
        Ok(problem) => problem,
        Err(absent) => return Ran::from(absent),
    };
    let Ok(clauses) = clauses(alloc, problem) else {
        return Ran::Lacking;
    };
    if !have_closures(&clauses) {
        return Ran::Lacking;
    }
    saturate_clauses(alloc, problem, &clauses, rounds)
}
