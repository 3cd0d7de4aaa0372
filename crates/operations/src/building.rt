//! What the building of a proof from an expansion proof comes to.
ghost use Rattle.std.specs.Prelude.{◌≡◌, [], ◌∷◌, true};
ghost use Rattle.proof_subst.specs.Benches.{IsBenchPassOf};
ghost use Rattle.exp_tree.specs.Reads.{expansion_of};
ghost use Rattle.building_laws.specs.Budgets.{has_formed_trees};
ghost use Rattle.operation_laws.specs.Running.{run};
ghost use Rattle.held_values.specs.Means.{sense};
ghost use Rattle.operations.specs.Runs.{Runs};

use crate::answers::{Made, Ran};
use crate::given::expansion_given;
use exp_to_lk::{BuildFault, build};
use exp_tree::CheckedExp;
use held_values::Held;
use job_lang::Op;
use job_words::Utf8Text;
use operation_laws::Failure;
use proof_subst::{Bench, BenchPass};
use std::alloc::Global;
use std::sync::Wait;

// What the trees name is well formed.
fn see_formed(exps: &CheckedExp)
    ensures { has_formed_trees (expansion_of exps.now) ≡ true }
{
    let trees = exps.tree();
    let _left = trees.left.as_slice();
    let _right = trees.right.as_slice();
}

/// The proof without cuts of the expansion proof that is named, within a budget of the proof's inferences.
#[tactic(auto, using(crate::proofs::Givings::absent_comes))]
pub fn build_from<R: Wait>(
    rt: &R,
    alloc: Global,
    bench: &Bench,
    pass: &mut BenchPass,
    of: &Utf8Text,
    value: &Held,
    budget: u64,
) -> Ran
    requires { IsBenchPassOf bench.now pass.old }
    ensures { Runs bench.now pass.old pass.new result (run (Op.Fromexp of.now budget) (sense value.now ∷ [])) }
{
    let exps = match expansion_given(alloc, of, value) {
        Ok(exps) => exps,
        Err(absent) => return Ran::from(absent),
    };
    see_formed(exps);
    let graph = bench.graph();
    match build(rt, alloc, graph, Bench::graph_pass(pass), exps, budget) {
        Ok(proof) => Ran::Done(Made::Proof(proof)),
        Err(BuildFault::Budget) => Ran::Failed(Failure::Budget),
        Err(BuildFault::Memory) => Ran::Lacking,
    }
}
