//! What the search for a model or a refutation of the clauses of a problem comes to.
ghost use Rattle.std.specs.Prelude.{◌≡◌, true, not, [], ◌∷◌, map, None, option_map, IfOk};
ghost use Rattle.std.specs.List.{All, list_all};
ghost use Rattle.fol.specs.Facts.{has_body};
ghost use Rattle.fol.specs.Formed.{IsFormed};
ghost use Rattle.fol.specs.Syntax.{Formula as Atom};
ghost use Rattle.refutations.specs.Clauses.{literals_of, IsClauseOf};
ghost use Rattle.ground_laws.specs.Steps.{IsRefutation, res_step, sequents_of, names as names_atom};
ghost use Rattle.sat_search.specs.Grounds.{clause_of as sequent_of_ground, clauses_of as sequents_of_grounds};
ghost use Rattle.tptp_problem.specs.ProblemClauses.{clauses_of, IsReadProblem};
ghost use Rattle.proof_graph.specs.declared.graph.Graph.{Graph};
ghost use Rattle.reply_lines.specs.Shown.{IsShownFormula, IsShownStep};
ghost use Rattle.operation_laws.specs.Answers.{satisfiability};
ghost use Rattle.operation_laws.specs.Running.{has_closure, first_open as first_open_in, solves_ground, run};
ghost use Rattle.held_values.specs.Means.{sense, Fits};
ghost use Rattle.operations.specs.Means.{ComesTo};

use crate::answers::{Made, Ran};
use crate::given::problem_given;
use crate::refuting::have_closures;
use fol::Formula;
use ground_laws::SatStep;
use held_values::{Held, Refutation};
use job_lang::Op;
use job_words::{RefutationSteps, Utf8Text};
use operation_laws::Failure;
use refutations::{Clause, ResStep, literals};
use sat_search::{Ground, SatAnswer, solve};
use std::alloc::{AllocError, Global};
use tptp_problem::{Problem, clauses};

// The place of the first clause in which a variable stands.
#[tactic(auto, using(crate::proofs::Satisfied::first_open_found))]
fn first_open(clauses: &[Clause]) -> Option<usize>
    ensures { result ≡ first_open_in clauses.now }
{
    clauses.iter().position(|clause| clause.matrix.has_free())
}

// Whether no symbol in the clauses stands for a formula.
fn are_primitive(clauses: &[Clause]) -> bool
    ensures { result ≡ list_all (λ c. not (has_body c.matrix)) clauses.now }
{
    clauses.iter().all(|clause| !clause.matrix.has_body())
}

// A clause by the sets of its negative and its positive atoms.
fn ground(alloc: Global, matrix: &Formula) -> Result<Ground, AllocError>
    requires { IsFormed matrix.now }
    ensures { IfOk result (λ g. sequent_of_ground g ≡ literals_of matrix.now) }
{
    let sequent = literals(alloc, matrix)?;
    Ok(Ground {
        negative: sequent.left.copy()?,
        positive: sequent.right.copy()?,
    })
}

fn grounds(alloc: Global, clauses: &[Clause]) -> Result<Vec<Ground>, AllocError>
    requires { All IsClauseOf clauses.now }
    ensures { IfOk result (λ gs. sequents_of_grounds gs.items ≡ sequents_of clauses.now) }
{
    let mut grounds = Vec::with_capacity(alloc, clauses.len())?;
    for clause in clauses {
        grounds.push(ground(alloc, &clause.matrix)?)?;
    }
    Ok(grounds)
}

// A step that was found as a step of refutations in which variables are replaced as well.
#[tactic(auto, using(crate::proofs::Satisfied::step_shown))]
fn resolution_step(step: &SatStep) -> Result<ResStep, AllocError>
    requires { (f : Atom) → names_atom f step.now ≡ true → IsShownFormula f }
    ensures step { IfOk result (λ made. made ≡ res_step step.now) }
    ensures shown { IfOk result (λ made. IsShownStep (res_step step.now)) }
{
    match step {
        SatStep::Input(clause) => Ok(ResStep::Input(*clause)),
        SatStep::Resolve {
            positive,
            negative,
            atom,
        } => Ok(ResStep::Resolve {
            positive: *positive,
            negative: *negative,
            atom: atom.copy()?,
        }),
    }
}

// The steps that were found as such steps.
fn resolution_steps(alloc: Global, steps: &[SatStep]) -> Result<RefutationSteps, AllocError>
    requires { All (λ step. (f : Atom) → names_atom f step ≡ true → IsShownFormula f) steps.now }
    ensures steps { IfOk result (λ list. list ≡ map res_step steps.now) }
    ensures shown { IfOk result (λ list. All (λ step. IsShownStep (res_step step)) steps.now) }
{
    let mut list = Vec::with_capacity(alloc, steps.len())?;
    for step in steps {
        list.push(resolution_step(step)?)?;
    }
    RefutationSteps::from_vec(alloc, list)
}

// The steps that were found as a refutation of the clauses of the problem.
#[tactic(auto, using(crate::proofs::Satisfied::solving_lacks))]
fn hold_steps(alloc: Global, problem: &Problem, clauses: &[Clause], steps: &[SatStep]) -> Ran
    requires problem { IsReadProblem problem.now }
    requires clauses { clauses.now ≡ clauses_of problem.now.entries }
    requires known { All IsClauseOf clauses.now }
    requires closed { list_all has_closure clauses.now ≡ true }
    requires refutes { IsRefutation (sequents_of clauses.now) steps.now }
    requires shown { All (λ step. (f : Atom) → names_atom f step ≡ true → IsShownFormula f) steps.now }
    ensures { (g : Graph) → ComesTo g result (satisfiability clauses.now) }
{
    let _clauses = clauses;
    let Ok(steps) = resolution_steps(alloc, steps) else {
        return Ran::Lacking;
    };
    match problem.copy() {
        Ok(problem) => Ran::Done(Made::Refutation(Refutation { problem, steps })),
        Err(_) => Ran::Lacking,
    }
}

// A model or a refutation of the clauses of the problem, in which no variable stands.
#[tactic(auto, using(crate::proofs::Satisfied::solving_lacks))]
fn solve_clauses(alloc: Global, problem: &Problem, clauses: &[Clause]) -> Ran
    requires problem { IsReadProblem problem.now }
    requires clauses { clauses.now ≡ clauses_of problem.now.entries }
    requires known { All IsClauseOf clauses.now }
    requires ground { first_open_in clauses.now ≡ None }
    requires closed { list_all has_closure clauses.now ≡ true }
    requires primitive { list_all (λ c. not (has_body c.matrix)) clauses.now ≡ true }
    ensures { (g : Graph) → ComesTo g result (satisfiability clauses.now) }
{
    let Ok(grounds) = grounds(alloc, clauses) else {
        return Ran::Lacking;
    };
    match solve(alloc, &grounds) {
        Ok(SatAnswer::Model(atoms)) => Ran::Done(Made::Model(atoms)),
        Ok(SatAnswer::Refutation(steps)) => hold_steps(alloc, problem, clauses, steps.as_slice()),
        Err(_) => Ran::Lacking,
    }
}

// A model or a refutation of the clauses of a problem.
#[tactic(auto, using(crate::proofs::Satisfied::open_comes, crate::proofs::Satisfied::ground_lacks, crate::proofs::Satisfied::ground_comes))]
fn solve_problem(alloc: Global, problem: &Problem) -> Ran
    requires { IsReadProblem problem.now }
    ensures { (g : Graph) → ComesTo g result (solves_ground (first_open_in (clauses_of problem.now.entries)) (clauses_of problem.now.entries)) }
{
    let Ok(clauses) = clauses(alloc, problem) else {
        return Ran::Lacking;
    };
    if let Some(clause) = first_open(&clauses) {
        return Ran::Failed(Failure::NotGround(clause as u64));
    }
    if !have_closures(&clauses) || !are_primitive(&clauses) {
        return Ran::Lacking;
    }
    solve_clauses(alloc, problem, &clauses)
}

/// A model or a refutation of the clauses of the problem that is named. A refutation is held as it is, with the proof that it stands for unmade.
#[tactic(auto, using(crate::proofs::Givings::absent_solved))]
pub fn satisfy(alloc: Global, of: &Utf8Text, value: &Held) -> Ran
    requires { (g : Graph) × Fits g value.now }
    ensures { (g : Graph) → ComesTo g result (run (Op.Sat of.now) (sense value.now ∷ [])) }
{
    match problem_given(alloc, of, value) {
        Ok(problem) => solve_problem(alloc, problem),
        Err(absent) => Ran::from(absent),
    }
}
