//! The laws of lists of steps, and of what stands in the way of a transformation. Each function does nothing: its contract is the law.
ghost use Rattle.std.specs.Prelude.{◌≡◌, ◌↔◌, ℕ, false, List, [], None, Ok, Err};
ghost use Rattle.std.specs.List.{All};
ghost use Rattle.lk_rules.specs.declared.sequent.Sequent.{Sequent as Conclusion};
ghost use Rattle.lk_rules.specs.declared.rule.Step.{Step};
ghost use Rattle.lk_rules.specs.Rules.{IsFormedRule};
ghost use Rattle.proof_trees.specs.Trees.{Tree as Proof, concl, IsValid};
ghost use Rattle.proof_trees.specs.Occurrence.{has_body_in_sequent};
ghost use Rattle.step_laws.specs.declared.fault.AdmitFault.TheVariants as fault;
ghost use Rattle.step_laws.specs.declared.fault.StepCause.{StepCause as Cause};
ghost use Rattle.step_laws.specs.Checking.{last_end, IsProof, IsFirstFault};
ghost use Rattle.step_laws.specs.StepTrees.{IsTreeOf};
ghost use Rattle.step_laws.specs.Admission.{admission};
ghost use Rattle.step_laws.specs.Faults.{first_defined};

/// What a list of steps is admitted as: a proof of the end sequent of its last step, which is valid where the formulas and terms that its
/// rules name are well formed. A list is refused exactly where it is empty or has a first fault.
pub fn admissions()
    ensures valid { (steps : List Step) (t : Proof) → All (λ s. IsFormedRule s.rule) steps → admission steps ≡ Ok t → IsValid t }
    ensures end { (steps : List Step) (t : Proof) → admission steps ≡ Ok t → concl t ≡ last_end steps }
    ensures tree { (steps : List Step) (t : Proof) → (admission steps ≡ Ok t) ↔ (IsProof steps × IsTreeOf steps t) }
    ensures empty { (steps : List Step) → (admission steps ≡ Err fault.Empty) ↔ (steps ≡ []) }
    ensures step { (steps : List Step) (i : ℕ) (cause : Cause) → (admission steps ≡ Err (fault.Step i cause)) ↔ IsFirstFault steps i cause }
{}

/// No formula is found exactly where none has a predicate symbol with a body.
pub fn definitions()
    ensures { (s : Conclusion) → (first_defined s ≡ None) ↔ (has_body_in_sequent s ≡ false) }
{}
