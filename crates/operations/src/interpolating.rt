//! What an interpolation comes to.
ghost use Rattle.std.specs.Prelude.{[], ◌∷◌};
ghost use Rattle.proof_subst.specs.Benches.{graph_of, IsBenchPassOf};
ghost use Rattle.operation_laws.specs.Running.{run};
ghost use Rattle.held_values.specs.Means.{sense, Fits};
ghost use Rattle.operations.specs.Runs.{Runs};

use crate::answers::{Made, Ran};
use crate::given::proof_given;
use held_values::Held;
use job_lang::Op;
use job_words::{FormedFormula, Utf8Text};
use lk_interp::{Interp, InterpFault, interpolate};
use lk_rules::Sequent;
use operation_laws::Failure;
use proof_subst::{Bench, BenchPass};
use std::alloc::Global;
use std::sync::Wait;

/// The interpolation of the proof that is named, by two parts of its end sequent, within a budget of inferences of its tree.
#[tactic(auto, using(crate::proofs::Givings::proofless_comes, crate::proofs::Lacking::interpolated_lacks))]
pub fn interpolate_in<R: Wait>(
    rt: &R,
    alloc: Global,
    bench: &Bench,
    pass: &mut BenchPass,
    of: &Utf8Text,
    value: &Held,
    one: &Sequent,
    two: &Sequent,
    budget: u64,
) -> Ran
    requires pass { IsBenchPassOf bench.now pass.old }
    requires fits { Fits (graph_of bench.now) value.now }
    ensures { Runs bench.now pass.old pass.new result (run (Op.Interpolate of.now one.now two.now budget) (sense value.now ∷ [])) }
{
    let proof = match proof_given(alloc, of, value) {
        Ok(proof) => proof,
        Err(absent) => return Ran::from(absent),
    };
    match interpolate(rt, alloc, bench, pass, proof, one, two, budget) {
        Ok(
            Interp {
                formula,
                first,
                second,
            },
        ) => Ran::Done(Made::Interpolant {
            formula: FormedFormula::new(formula),
            first,
            second,
        }),
        Err(InterpFault::Cut(step)) => Ran::Failed(Failure::Cut(step)),
        Err(InterpFault::Defined { formula, side }) => Ran::Failed(Failure::Defined {
            formula: FormedFormula::new(formula),
            side,
        }),
        Err(InterpFault::Partition { formula, side }) => Ran::Failed(Failure::Partition {
            formula: FormedFormula::new(formula),
            side,
        }),
        Err(InterpFault::Budget) => Ran::Failed(Failure::Budget),
        Err(InterpFault::Memory) => Ran::Lacking,
    }
}
