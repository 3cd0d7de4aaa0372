//! What operations come to that make proofs with definitions, or without them.
ghost use Rattle.std.specs.Prelude.{◌≡◌, ◌<◌, [], ◌∷◌, length, map, IfOk};
ghost use Rattle.std.specs.List.{All};
ghost use Rattle.fol.specs.Formed.{IsFormedPred};
ghost use Rattle.lk_rules.specs.Rules.{IsFormedRule};
ghost use Rattle.step_laws.specs.Admission.{admission};
ghost use Rattle.def_laws.specs.Marking.{marked_step};
ghost use Rattle.proof_subst.specs.Benches.{graph_of, IsBenchPassOf};
ghost use Rattle.operation_laws.specs.Answers.{one};
ghost use Rattle.operation_laws.specs.Running.{step_shown as shown_step, admits_behind, proves_with, run};
ghost use Rattle.held_values.specs.Means.{sense, Fits};
ghost use Rattle.operations.specs.Means.{faulty};
ghost use Rattle.operations.specs.Runs.{Runs};

use crate::answers::{Made, Ran};
use crate::defining::{definitions_for, repeated};
use crate::given::proof_given;
use arena_graph::see_formed;
use def_symbols::{Definitions, mark_rule, mark_sequent};
use held_values::Held;
use job_lang::Op;
use job_words::{Steps, Utf8Text, Utf8Texts};
use lk_check::{AdmitFault, StepCause, admit};
use lk_rules::Step;
use operation_laws::{Failure, Refusal};
use proof_flat::flatten;
use proof_subst::{Bench, BenchPass};
use reply_lines::StepShown;
use std::alloc::{AllocError, Global};
use std::sync::Wait;

// What is wrong with a step, as it is shown.
fn step_shown(cause: StepCause) -> StepShown
    ensures { result ≡ shown_step cause }
{
    match cause {
        StepCause::Reference => StepShown::Reference,
        StepCause::Rule(fault) => StepShown::Rule(fault),
    }
}

// What steps come to that are no proof, where the definitions of these names are put into them.
fn unproved(names: &[Utf8Text], refusal: Refusal) -> Ran
    ensures { result ≡ faulty names.now refusal }
{
    if names.is_empty() {
        Ran::Refused(refusal)
    } else {
        Ran::Failed(Failure::Unproved(refusal))
    }
}

// A list of steps as a proof, into which the definitions of these names are put.
#[tactic(auto, using(crate::proofs::DefinitionsUsed::admission_gives, crate::proofs::DefinitionsUsed::admission_lacks, crate::proofs::DefinitionsUsed::empty_faulty, crate::proofs::DefinitionsUsed::step_faulty))]
fn admit_list<R: Wait>(
    rt: &R,
    alloc: Global,
    bench: &Bench,
    pass: &mut BenchPass,
    names: &[Utf8Text],
    list: &[Step],
) -> Ran
    requires pass { IsBenchPassOf bench.now pass.old }
    requires formed { All (λ s. IsFormedRule s.rule) list.now }
    ensures { Runs bench.now pass.old pass.new result (one (admits_behind names.now (admission list.now))) }
{
    let graph = bench.graph();
    match admit(rt, alloc, graph, Bench::graph_pass(pass), list) {
        Ok(proof) => Ran::Done(Made::Proof(proof)),
        Err(AdmitFault::Empty) => unproved(names, Refusal::Empty),
        Err(AdmitFault::Step { step, cause }) => {
            let cause = step_shown(cause);
            unproved(names, Refusal::Step { step, cause })
        }
        Err(AdmitFault::Memory) => Ran::Lacking,
    }
}

// A step with the definitions put into it.
fn mark_step(alloc: Global, symbols: &Definitions, step: &Step) -> Result<Step, AllocError>
    requires symbols { All IsFormedPred symbols.now }
    requires step { IsFormedRule step.now.rule }
    ensures value { IfOk result (λ s. s ≡ marked_step symbols.now step.now) }
    ensures formed { IfOk result (λ s. IsFormedRule s.rule) }
{
    Ok(Step {
        rule: mark_rule(alloc, symbols, &step.rule)?,
        premises: step.premises.copy(alloc)?,
        end: mark_sequent(alloc, symbols, &step.end)?,
    })
}

// The steps with the definitions put into them.
fn mark_steps(alloc: Global, symbols: &Definitions, steps: &[Step]) -> Result<Vec<Step>, AllocError>
    requires symbols { All IsFormedPred symbols.now }
    requires steps { All (λ s. IsFormedRule s.rule) steps.now }
    ensures value { IfOk result (λ list. list.items ≡ map (marked_step symbols.now) steps.now) }
    ensures formed { IfOk result (λ list. All (λ s. IsFormedRule s.rule) list.items) }
{
    let mut marked = Vec::with_capacity(alloc, steps.len())?;
    for step in steps {
        marked.push(mark_step(alloc, symbols, step)?)?;
    }
    Ok(marked)
}

// The steps with definitions as a proof.
#[tactic(auto, using(crate::proofs::DefinitionsUsed::twice_comes))]
fn admit_marked<R: Wait>(
    rt: &R,
    alloc: Global,
    bench: &Bench,
    pass: &mut BenchPass,
    steps: &Steps,
    names: &[Utf8Text],
    symbols: &Definitions,
) -> Ran
    requires pass { IsBenchPassOf bench.now pass.old }
    requires names { 0 < length names.now }
    requires symbols { All IsFormedPred symbols.now }
    ensures { Runs bench.now pass.old pass.new result (one (proves_with names.now steps.now symbols.now)) }
{
    match repeated(alloc, names, symbols.as_slice()) {
        Ok(Some(name)) => return Ran::Failed(Failure::DefTwice(name)),
        Ok(None) => {}
        Err(_) => return Ran::Lacking,
    }
    let Ok(list) = mark_steps(alloc, symbols, steps.as_slice()) else {
        return Ran::Lacking;
    };
    admit_list(rt, alloc, bench, pass, names, &list)
}

/// A list of steps as a proof, where the symbols of definitions stand for their formulas.
pub fn admit_with<R: Wait>(
    rt: &R,
    alloc: Global,
    bench: &Bench,
    pass: &mut BenchPass,
    steps: &Steps,
    names: &Utf8Texts,
    given: &[Held],
) -> Ran
    requires pass { IsBenchPassOf bench.now pass.old }
    requires count { length given.now ≡ length names.now }
    requires fits { All (Fits (graph_of bench.now)) given.now }
    ensures { Runs bench.now pass.old pass.new result (run (Op.Lk steps.now names.now) (map sense given.now)) }
{
    let names = names.as_slice();
    if names.is_empty() {
        return admit_list(rt, alloc, bench, pass, names, steps.as_slice());
    }
    match definitions_for(alloc, names, given) {
        Ok(symbols) => admit_marked(rt, alloc, bench, pass, steps, names, &symbols),
        Err(ran) => ran,
    }
}

/// The proof that is named, with all defined symbols unfolded.
#[tactic(auto, using(crate::proofs::Givings::proofless_comes, crate::proofs::Unfolded::unfolds_lacks))]
pub fn unfold_in<R: Wait>(
    rt: &R,
    alloc: Global,
    bench: &Bench,
    pass: &mut BenchPass,
    of: &Utf8Text,
    value: &Held,
) -> Ran
    requires pass { IsBenchPassOf bench.now pass.old }
    requires fits { Fits (graph_of bench.now) value.now }
    ensures { Runs bench.now pass.old pass.new result (run (Op.Unfold of.now) (sense value.now ∷ [])) }
{
    let proof = match proof_given(alloc, of, value) {
        Ok(proof) => proof,
        Err(absent) => return Ran::from(absent),
    };
    see_formed(&bench.graph().get(proof).end);
    match flatten(rt, alloc, bench, pass, proof) {
        Ok(flat) => Ran::Done(Made::Proof(flat)),
        Err(_) => Ran::Lacking,
    }
}
