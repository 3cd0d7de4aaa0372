//! The laws of refutations. Each function does nothing: its contract is the law.
ghost use Rattle.std.specs.Prelude.{◌≡◌, ℕ, ◌-◌, ◌<◌, ◌^◌, ◌⊎◌, List, [], length, Ok, Err};
ghost use Rattle.std.specs.List.{All};
ghost use Rattle.fol.specs.Formed.{IsFormed};
ghost use Rattle.proof_trees.specs.Trees.{Tree as Proof, concl, IsValid};
ghost use Rattle.refutations.specs.declared.clause.Clause.{Clause as Disjunction};
ghost use Rattle.refutations.specs.declared.step.ResCause.{ResCause as Cause};
ghost use Rattle.refutations.specs.declared.step.ResCause.TheVariants.{NotEmpty};
ghost use Rattle.refutations.specs.declared.step.ResStep.{ResStep as Inference};
ghost use Rattle.refutations.specs.Clauses.{IsClauseOf, closure_of, closures};
ghost use Rattle.refutations.specs.Refutations.{refutation, AreFormedSteps};

/// The proof that a refutation stands for has the closures of all clauses on the left of its end sequent, and nothing on the right.
pub fn refutations()
    ensures end { (cs : List Disjunction) (steps : List Inference) (t : Proof) → All IsClauseOf cs → AreFormedSteps steps → refutation cs steps ≡ Ok t → concl t ≡ closures cs }
{}

/// The proof that a refutation stands for is valid, where the closures of the clauses are well formed. Those are well formed that have
/// fewer than 2^32 variables: a closure over more has an index that is no index of a well-formed formula.
pub fn valid_refutations()
    ensures valid { (cs : List Disjunction) (steps : List Inference) (t : Proof) → All IsClauseOf cs → All (λ c. IsFormed (closure_of c)) cs → AreFormedSteps steps → refutation cs steps ≡ Ok t → IsValid t }
    ensures few { (c : Disjunction) → IsClauseOf c → length c.vars < 2 ^ 32 → IsFormed (closure_of c) }
{}

/// The number of a refused refutation is that of a step, or 0 where there is no step. Only the last step is refused for its clause.
pub fn step()
    ensures place { (cs : List Disjunction) (steps : List Inference) (i : ℕ) (cause : Cause) → refutation cs steps ≡ Err (i, cause) → (i < length steps) ⊎ ((steps ≡ []) × ((i ≡ 0) × (cause ≡ NotEmpty))) }
    ensures not_empty { (cs : List Disjunction) (steps : List Inference) (i : ℕ) (cause : Cause) → refutation cs steps ≡ Err (i, cause) → cause ≡ NotEmpty → i ≡ length steps - 1 }
{}
