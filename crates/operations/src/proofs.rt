//! What operations come to that make proofs of other proofs.
ghost use Rattle.std.specs.Prelude.{◌≡◌, ◌<◌, [], ◌∷◌, true};
ghost use Rattle.std.specs.FinMap as fin;
ghost use Rattle.std.specs.Option.{IsSomeAnd};
ghost use Rattle.substitution.specs.Image.{IsFormedMap};
ghost use Rattle.proof_subst.specs.Benches.{graph_of, IsBenchPassOf};
ghost use Rattle.cut_elim.specs.Desks.{bench_of, HasElimination, IsDeskPassOf};
ghost use Rattle.operation_laws.specs.Running.{run};
ghost use Rattle.held_values.specs.Means.{sense, Fits};
ghost use Rattle.operations.specs.Noted.{proof_in, is_done};
ghost use Rattle.operations.specs.Runs.{Runs, RunsAtDesk};

use crate::answers::{Made, Ran};
use crate::given::proof_given;
use cut_contract::Steps as Contractions;
use cut_elim::{Desk, DeskPass, ElimFault, Reduced, eliminate, eliminate_all};
use held_values::Held;
use job_lang::Op;
use job_words::Utf8Text;
use operation_laws::Failure;
use proof_subst::{Bench, BenchPass, substitute};
use std::alloc::Global;
use std::sync::Wait;
use std::sync::ledger::{Blank, Ledger};
use std::thread::Threads;
use substitution::Subst;

/// The proof that is named, under a map.
#[tactic(auto, using(crate::proofs::Givings::proofless_comes))]
pub fn substitute_in<R: Wait>(
    rt: &R,
    alloc: Global,
    bench: &Bench,
    pass: &mut BenchPass,
    of: &Utf8Text,
    value: &Held,
    map: &Subst,
) -> Ran
    requires pass { IsBenchPassOf bench.now pass.old }
    requires fits { Fits (graph_of bench.now) value.now }
    requires map { IsFormedMap (fin.get map.now) }
    ensures { Runs bench.now pass.old pass.new result (run (Op.Subst of.now map.now) (sense value.now ∷ [])) }
{
    let proof = match proof_given(alloc, of, value) {
        Ok(proof) => proof,
        Err(absent) => return Ran::from(absent),
    };
    match substitute(rt, alloc, bench, pass, proof, map) {
        Ok(image) => Ran::Done(Made::Proof(image)),
        Err(_) => Ran::Lacking,
    }
}

/// The proof that is named, with its cuts eliminated. The ledger counts the contractions.
#[tactic(auto, using(crate::proofs::Givings::proofless_comes, crate::proofs::Lacking::eliminates_lacks))]
pub fn eliminate_in<R: Wait + Threads + Sync, L: Ledger>(
    rt: &R,
    alloc: Global,
    desk: &Desk,
    pass: &mut DeskPass,
    of: &Utf8Text,
    value: &Held,
    budget: u64,
    ledger: Blank,
) -> Ran
    requires pass { IsDeskPassOf desk.now pass.old }
    requires fits { Fits (graph_of (bench_of desk.now)) value.now }
    requires name { ledger.name ≡ L.name }
    requires parts { ledger.parts ≡ L.parts }
    requires one_part { 0 < ledger.parts }
    ensures runs { RunsAtDesk desk.now pass.old pass.new result (run (Op.Cutelim of.now budget) (sense value.now ∷ [])) }
    ensures noted { is_done result ≡ true → IsSomeAnd (proof_in of.now value.now) (λ r. HasElimination pass.new r.number) }
{
    let mut contractions = Contractions::<L>::new(ledger);
    let proof = match proof_given(alloc, of, value) {
        Ok(proof) => proof,
        Err(absent) => {
            contractions.end();
            return Ran::from(absent);
        }
    };
    let made = eliminate(rt, alloc, desk, pass, proof, budget, &mut contractions);
    contractions.end();
    match made {
        Ok(Reduced { proof, reductions }) => Ran::Done(Made::Reduced(proof, reductions)),
        Err(ElimFault::Budget) => Ran::Failed(Failure::Budget),
        Err(ElimFault::Memory) => Ran::Lacking,
    }
}

/// The same however many contractions that takes.
#[tactic(auto, using(crate::proofs::Givings::proofless_asked, crate::proofs::Eliminated::whole_gives, crate::proofs::Eliminated::whole_lacks))]
pub fn eliminate_all_in<R: Wait + Threads + Sync, L: Ledger>(
    rt: &R,
    alloc: Global,
    desk: &Desk,
    pass: &mut DeskPass,
    of: &Utf8Text,
    value: &Held,
    ledger: Blank,
) -> Ran
    requires pass { IsDeskPassOf desk.now pass.old }
    requires fits { Fits (graph_of (bench_of desk.now)) value.now }
    requires name { ledger.name ≡ L.name }
    requires parts { ledger.parts ≡ L.parts }
    requires one_part { 0 < ledger.parts }
    ensures { RunsAtDesk desk.now pass.old pass.new result (run (Op.Eliminate of.now) (sense value.now ∷ [])) }
{
    let mut contractions = Contractions::<L>::new(ledger);
    let proof = match proof_given(alloc, of, value) {
        Ok(proof) => proof,
        Err(absent) => {
            contractions.end();
            return Ran::from(absent);
        }
    };
    let made = eliminate_all(rt, alloc, desk, pass, proof, &mut contractions);
    contractions.end();
    match made {
        Ok(Reduced { proof, reductions }) => Ran::Done(Made::Reduced(proof, reductions)),
        Err(_) => Ran::Lacking,
    }
}
