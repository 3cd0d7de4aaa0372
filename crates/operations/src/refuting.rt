//! What the import of a refutation comes to.
ghost use Rattle.std.specs.Prelude.{◌≡◌, [], ◌∷◌};
ghost use Rattle.std.specs.List.{list_all};
ghost use Rattle.refutations.specs.Refutations.{AreFormedSteps};
ghost use Rattle.proof_subst.specs.Benches.{graph_of, IsBenchPassOf};
ghost use Rattle.operation_laws.specs.Running.{has_closure, refutation_shown as shown_refutation, run};
ghost use Rattle.held_values.specs.Means.{sense, Fits};
ghost use Rattle.operations.specs.Runs.{Runs};

use crate::answers::{Made, Ran};
use crate::given::problem_given;
use held_values::Held;
use job_lang::Op;
use job_words::Utf8Text;
use operation_laws::Failure;
use proof_subst::{Bench, BenchPass};
use refutations::{Clause, ResCause, ResStep};
use reply_lines::RefutationShown;
use resolution_import::{ImportFault, import};
use std::alloc::Global;
use std::sync::Wait;
use tptp_problem::clauses;

fn refutation_shown(cause: ResCause) -> RefutationShown
    ensures { result ≡ shown_refutation cause }
{
    match cause {
        ResCause::Reference => RefutationShown::Reference,
        ResCause::AtomMissing => RefutationShown::AtomMissing,
        ResCause::NotEmpty => RefutationShown::NotEmpty,
    }
}

/// Whether each clause has few enough variables for a closure.
pub(crate) fn have_closures(clauses: &[Clause]) -> bool
    ensures { result ≡ list_all has_closure clauses.now }
{
    clauses.iter().all(|clause| (clause.vars.as_slice().len() as u64) < 4_294_967_296)
}

/// The proof that a refutation of the clauses of the problem that is named stands for.
#[tactic(auto, using(crate::proofs::Givings::absent_comes, crate::proofs::Refuted::refutes_lacks, crate::proofs::Refuted::with_closures, crate::proofs::Refuted::import_gives, crate::proofs::Refuted::import_fails))]
pub fn refute<R: Wait>(
    rt: &R,
    alloc: Global,
    bench: &Bench,
    pass: &mut BenchPass,
    of: &Utf8Text,
    value: &Held,
    steps: &[ResStep],
) -> Ran
    requires pass { IsBenchPassOf bench.now pass.old }
    requires fits { Fits (graph_of bench.now) value.now }
    requires steps { AreFormedSteps steps.now }
    ensures { Runs bench.now pass.old pass.new result (run (Op.Resolution of.now steps.now) (sense value.now ∷ [])) }
{
    let problem = match problem_given(alloc, of, value) {
        Ok(problem) => problem,
        Err(absent) => return Ran::from(absent),
    };
    let Ok(clauses) = clauses(alloc, problem) else {
        return Ran::Lacking;
    };
    if !have_closures(&clauses) {
        return Ran::Lacking;
    }
    match import(rt, alloc, bench, pass, &clauses, steps) {
        Ok(proof) => Ran::Done(Made::Proof(proof)),
        Err(ImportFault::Step { step, cause }) => Ran::Failed(Failure::Refutation {
            step,
            cause: refutation_shown(cause),
        }),
        Err(ImportFault::Memory) => Ran::Lacking,
    }
}
