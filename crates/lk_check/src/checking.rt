//! The check of a list of steps.
ghost use Rattle.std.specs.Prelude.{◌≡◌, ◌<◌, ◌↔◌, IsNone, IfSome, nat_lt, length, slice_get, option_copied};
ghost use Rattle.std.specs.List.{list_all, All};
ghost use Rattle.lk_rules.specs.Rules.{IsFormedRule};
ghost use Rattle.step_laws.specs.Checking.{premise_end as end_of_premise, fault_of as step_fault, fault_from, first_fault as first_step_fault, IsProof, IsFirstFault};

use lk_rules::{Sequent, Step, check};
use step_laws::StepCause;

/// Whether each premise is the number of an earlier step.
fn are_earlier(premises: &[u64], place: u64) -> bool
    ensures { result ≡ list_all (λ p. nat_lt p place) premises.now }
{
    premises.iter().all(|premise| *premise < place)
}

/// The end sequent of the step that stands as premise `k`.
fn premise_end<'s>(steps: &'s [Step], premises: &[u64], k: usize) -> Option<&'s Sequent>
    ensures { option_copied result ≡ end_of_premise steps.now premises.now k }
{
    match premises.get(k) {
        None => None,
        Some(premise) => match steps.get(*premise as usize) {
            None => None,
            Some(step) => Some(&step.end),
        },
    }
}

/// The first fault of the step at this place.
fn fault_of(steps: &[Step], place: usize, step: &Step) -> Option<StepCause>
    requires within { place < length steps.now }
    requires formed { IsFormedRule step.now.rule }
    ensures { result ≡ step_fault steps.now place step.now }
{
    let premises = step.premises.as_slice();
    if !are_earlier(premises, place as u64) {
        return Some(StepCause::Reference);
    }
    let first = premise_end(steps, premises, 0);
    let second = premise_end(steps, premises, 1);
    match check(&step.rule, &step.end, premises.len() as u64, first, second) {
        Ok(()) => None,
        Err(fault) => Some(StepCause::Rule(fault)),
    }
}

// The first faulty step, by a walk over the steps.
fn find_fault(steps: &[Step]) -> Option<(u64, StepCause)>
    requires { All (λ s. IsFormedRule s.rule) steps.now }
    ensures { result ≡ first_step_fault steps.now }
{
    for (place, step) in steps.iter().enumerate() {
        if let Some(cause) = fault_of(steps, place, step) {
            return Some((place as u64, cause));
        }
    }
    None
}

/// The first faulty step, with its first fault. Where there is none, the list is a proof of its last step's end sequent.
pub fn first_fault(steps: &[Step]) -> Option<(u64, StepCause)>
    requires { All (λ s. IsFormedRule s.rule) steps.now }
    ensures value { result ≡ first_step_fault steps.now }
    ensures proof { IsNone result ↔ IsProof steps.now }
    ensures first { IfSome result (λ found. IsFirstFault steps.now found.0 found.1) }
{
    find_fault(steps)
}
