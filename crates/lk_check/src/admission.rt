//! From a list of steps to the tree of the last one.
ghost use Rattle.std.specs.Prelude.{◌≡◌, ◌≢◌, ◌<◌, ℕ, [], length, map, slice_get, Some, Err, IfOk, IfErr};
ghost use Rattle.std.specs.List.{All, filter_map};
ghost use Rattle.lk_rules.specs.Rules.{IsFormedRule};
ghost use Rattle.proof_trees.specs.Trees.{concl, IsInference};
ghost use Rattle.proof_trees.specs.TreeLists.{trees};
ghost use Rattle.proof_graph.specs.References.{trees_of};
ghost use Rattle.proof_graph.specs.Graphs.{IsOf, IsPassOf, history, Extends};
ghost use Rattle.step_laws.specs.Checking.{last_end, first_fault as first_fault_of, IsProof};
ghost use Rattle.step_laws.specs.declared.fault.StepCause.{StepCause as Cause};
ghost use Rattle.step_laws.specs.StepTrees.{tree_over, trees_of_steps, IsTreeOf};
ghost use Rattle.step_laws.specs.Admission.{IsFault, admission};
ghost use Rattle.lk_check.specs.Admission.{Admits};

use crate::checking::first_fault;
use lk_rules::Step;
use proof_graph::{Graph, GraphPass, ProofRef};
use std::alloc::{AllocError, Global};
use std::sync::Wait;
use step_laws::AdmitFault;

// The references of the premises, by the numbers of the steps.
fn pick(alloc: Global, proofs: &[ProofRef], premises: &[u64]) -> Result<Vec<ProofRef>, AllocError>
    requires { All (λ p. p < length proofs.now) premises.now }
    ensures { IfOk result (λ picked. picked.items ≡ filter_map (slice_get proofs.now) premises.now) }
{
    let mut picked = Vec::with_capacity(alloc, premises.len())?;
    for premise in premises {
        picked.push(proofs[*premise as usize].keep()?)?;
    }
    Ok(picked)
}

// The reference of one step's tree, from those of the earlier steps.
fn admit_step<R: Wait>(
    rt: &R,
    alloc: Global,
    graph: &Graph,
    pass: &mut GraphPass,
    step: &Step,
    proofs: &[ProofRef],
) -> Result<ProofRef, AllocError>
    requires pass_of { IsPassOf graph.now pass.old }
    requires proofs_of { All (IsOf graph.now) proofs.now }
    requires earlier { All (λ p. p < length proofs.now) step.now.premises }
    requires inference { IsInference step.now.rule step.now.end (trees (filter_map (slice_get (map (λ r. r.tree) proofs.now)) step.now.premises)) }
    ensures of { IfOk result (IsOf graph.now) }
    ensures tree { IfOk result (λ r. r.tree ≡ tree_over (map (λ r. r.tree) proofs.now) step.now) }
    ensures extends { Extends graph.now pass.old pass.new }
{
    let premises = pick(alloc, proofs, step.premises.as_slice())?;
    let rule = step.rule.copy()?;
    let end = step.end.copy()?;
    graph.intern(rt, alloc, pass, rule, end, &premises)
}

// The references of the trees of all steps.
fn admit_all<R: Wait>(
    rt: &R,
    alloc: Global,
    graph: &Graph,
    pass: &mut GraphPass,
    steps: &[Step],
) -> Result<Vec<ProofRef>, AllocError>
    requires pass_of { IsPassOf graph.now pass.old }
    requires formed { All (λ s. IsFormedRule s.rule) steps.now }
    requires proof { IsProof steps.now }
    ensures of { IfOk result (λ proofs. All (IsOf graph.now) proofs.items) }
    ensures trees { IfOk result (λ proofs. map (λ r. r.tree) proofs.items ≡ trees_of_steps steps.now) }
    ensures extends { Extends graph.now pass.old pass.new }
{
    let mut proofs = Vec::with_capacity(alloc, steps.len())?;
    for step in steps {
        let proof = admit_step(rt, alloc, graph, pass, step, &proofs)?;
        proofs.push(proof)?;
    }
    Ok(proofs)
}

/// The reference of the tree that the last step stands for. All steps are checked before the first is put into the graph.
pub fn admit<R: Wait>(
    rt: &R,
    alloc: Global,
    graph: &Graph,
    pass: &mut GraphPass,
    steps: &[Step],
) -> Result<ProofRef, AdmitFault>
    requires pass_of { IsPassOf graph.now pass.old }
    requires formed { All (λ s. IsFormedRule s.rule) steps.now }
    // It is the tree of the last step, or the reason why there is none.
    ensures exact { Admits result (admission steps.now) }
    ensures of { IfOk result (IsOf graph.now) }
    ensures proof { IfOk result (λ _. IsProof steps.now) }
    ensures tree { IfOk result (λ r. IsTreeOf steps.now r.tree) }
    ensures end { IfOk result (λ r. concl r.tree ≡ last_end steps.now) }
    ensures empty { steps.now ≡ [] → result ≡ Err AdmitFault.Empty }
    ensures faulty { (i : ℕ) (cause : Cause) → first_fault_of steps.now ≡ Some (i, cause) → result ≡ Err (AdmitFault.Step i cause) }
    ensures fault { IfErr result (IsFault steps.now) }
    ensures unchanged { IfErr result (λ e. e ≢ AdmitFault.Memory → history pass.new ≡ history pass.old) }
    ensures extends { Extends graph.now pass.old pass.new }
{
    if steps.is_empty() {
        return Err(AdmitFault::Empty);
    }
    if let Some((step, cause)) = first_fault(steps) {
        return Err(AdmitFault::Step { step, cause });
    }
    let Ok(mut proofs) = admit_all(rt, alloc, graph, pass, steps) else {
        return Err(AdmitFault::Memory);
    };
    match proofs.pop() {
        Some(last) => Ok(last),
        None => unreachable!(),
    }
}
