//! Refutations of the clauses of problems.
ghost use Rattle.std.specs.Prelude.{◌≡◌, IfOk};

use job_words::RefutationSteps;
use std::alloc::AllocError;
use tptp_problem::Problem;

/// A refutation of the clauses of a problem, as a value: the proof in LK that it stands for. Each sequent of that has the closures of all
/// clauses, so it may be far larger than the steps, and is made only when a job needs it.
#[derive(Drop)]
pub struct Refutation {
    pub problem: Problem,
    pub steps: RefutationSteps,
}

impl Refutation {
    /// The same refutation, whose problem and steps are shared.
    pub fn copy(&self) -> Result<Refutation, AllocError>
        ensures { IfOk result (λ copy. copy ≡ self.now) }
    {
        let problem = self.problem.copy()?;
        let steps = self.steps.copy()?;
        Ok(Refutation { problem, steps })
    }
}
