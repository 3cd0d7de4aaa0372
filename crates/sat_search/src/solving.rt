//! Whether ground clauses have a model.
ghost use Rattle.std.specs.Prelude.{◌≡◌, true, false, List, IfOk};
ghost use Rattle.lk_rules.specs.Formulas.{FormulaSet};
ghost use Rattle.ground_laws.specs.declared.step.SatStep.{SatStep as Inference};
ghost use Rattle.ground_laws.specs.Models.{IsModel};
ghost use Rattle.ground_laws.specs.Steps.{IsRefutation};
ghost use Rattle.ground_laws.specs.Deciding.{IsAnswer};
ghost use Rattle.sat_search.specs.Grounds.{clauses_of};
ghost use Rattle.sat_search.specs.Answers.{answer_of, is_model};

use crate::answer::SatAnswer;
use crate::ground::Ground;
use crate::models::model;
use crate::numbering::Numbering;
use crate::plan::Plan;
use crate::recycling::recycled;
use crate::refuting::refutation;
use crate::resolutions::Resolutions;
use crate::solver::{Solver, Verdict};
use std::alloc::{AllocError, Global};

// A search with these clauses.
fn solver(alloc: Global, clauses: &[Ground], numbering: &Numbering) -> Result<Solver, AllocError> {
    let mut solver = Solver::new(
        alloc,
        numbering.len(),
        clauses.len(),
        numbering.occurrences(),
    )?;
    for (number, clause) in clauses.iter().enumerate() {
        if clause.is_tautology() {
            solver.add_tautology()?;
        } else {
            solver.add(numbering.literals(number))?;
        }
    }
    Ok(solver)
}

// The resolutions that the refutation of a search needs, where there are so many input clauses and atoms. What isn't needed any more of the
// search, and of the way to the resolutions, is given back at once.
fn planned(alloc: Global, inputs: usize, atoms: usize, solver: Solver) -> Result<Plan, AllocError> {
    let (mut clauses, derivations) = solver.into_parts();
    clauses.truncate(inputs);
    let many = derivations.len();
    let kept = recycled(alloc, derivations, inputs, atoms)?;
    let mut resolutions = Resolutions::new(alloc, clauses, atoms, kept.links(), many)?;
    resolutions.replay_all(&kept)?;
    Ok(resolutions.into_plan())
}

/// A model or a refutation of the clauses. The search learns from conflicts: after Davis, Putnam, Logemann and Loveland (1962), Marques-Silva
/// and Sakallah (1999), and Eén and Sörensson's MiniSat (2003). What it finds is looked at once more, and refused as want of memory if it is
/// wrong. No bound on its time is claimed.
pub fn solve(alloc: Global, clauses: &[Ground]) -> Result<SatAnswer, AllocError>
    ensures answer { IfOk result (λ answer. IsAnswer (clauses_of clauses.now) (answer_of answer)) }
    ensures satisfiable { (atoms : FormulaSet) → IsModel atoms (clauses_of clauses.now) → IfOk result (λ answer. is_model answer ≡ true) }
    ensures refutable { (steps : List Inference) → IsRefutation (clauses_of clauses.now) steps → IfOk result (λ answer. is_model answer ≡ false) }
{
    let numbering = Numbering::new(alloc, clauses)?;
    let mut solver = solver(alloc, clauses, &numbering)?;
    match solver.run()? {
        Verdict::Satisfied => Ok(SatAnswer::Model(model(alloc, clauses, &numbering, &solver)?)),
        Verdict::Refuted => {
            let plan = planned(alloc, clauses.len(), numbering.len(), solver)?;
            let steps = refutation(alloc, clauses, &numbering, &plan)?;
            Ok(SatAnswer::Refutation(steps))
        }
    }
}
