//! What the introduction of a cut comes to.
ghost use Rattle.std.specs.Prelude.{[], ◌∷◌};
ghost use Rattle.proof_subst.specs.Benches.{graph_of, IsBenchPassOf};
ghost use Rattle.operation_laws.specs.Running.{run};
ghost use Rattle.held_values.specs.Means.{sense, Fits};
ghost use Rattle.operations.specs.Runs.{Runs};

use crate::answers::{Made, Ran};
use crate::given::proof_given;
use cut_intro::{IntroFault, Introduced, introduce};
use held_values::Held;
use job_lang::{Op, Width};
use job_words::{FormedFormula, Utf8Text};
use operation_laws::Failure;
use proof_subst::{Bench, BenchPass};
use std::alloc::Global;
use std::sync::Wait;
use std::thread::Threads;

/// The proof that is named with a cut, where that makes it shorter, and else that proof. The width is of rows of the delta table, the budget
/// of inferences of the proof's tree, and of sequents that each search visits.
#[tactic(auto, using(crate::proofs::Givings::proofless_comes, crate::proofs::Lacking::shortened_lacks, crate::proofs::Introduced::width_from, crate::proofs::Introduced::width_to))]
pub fn introduce_in<R: Wait + Threads + Sync>(
    rt: &R,
    alloc: Global,
    bench: &Bench,
    pass: &mut BenchPass,
    of: &Utf8Text,
    value: &Held,
    width: &Width,
    budget: u64,
) -> Ran
    requires pass { IsBenchPassOf bench.now pass.old }
    requires fits { Fits (graph_of bench.now) value.now }
    ensures { Runs bench.now pass.old pass.new result (run (Op.Cutintro of.now width.now budget) (sense value.now ∷ [])) }
{
    let proof = match proof_given(alloc, of, value) {
        Ok(proof) => proof,
        Err(absent) => return Ran::from(absent),
    };
    let graph = bench.graph();
    let width = width.get();
    match introduce(
        rt,
        alloc,
        graph,
        Bench::graph_pass(pass),
        proof,
        width,
        budget,
    ) {
        Ok(Introduced::Shorter(proof)) => Ran::Done(Made::Introduced {
            proof,
            shorter: true,
        }),
        Ok(Introduced::Same(proof)) => Ran::Done(Made::Introduced {
            proof,
            shorter: false,
        }),
        Err(IntroFault::Cut(step)) => Ran::Failed(Failure::Cut(step)),
        Err(IntroFault::NotPrenex { formula, side }) => Ran::Failed(Failure::NotPrenex {
            formula: FormedFormula::new(formula),
            side,
        }),
        Err(IntroFault::Budget) => Ran::Failed(Failure::Budget),
        Err(IntroFault::TooMany(count)) => Ran::Failed(Failure::TooMany(count)),
        Err(IntroFault::Memory) => Ran::Lacking,
    }
}
