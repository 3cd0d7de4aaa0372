//! The laws of building. Each function does nothing: its contract is the law.
ghost use Rattle.std.specs.Prelude.{◌≡◌, ℕ, suc, ◌+◌, ◌<◌, ◌≤◌, List, [], ◌∷◌, ◌++◌, Option, Some, None, true, Ok};
ghost use Rattle.std.specs.List.{All};
ghost use Rattle.lk_rules.specs.declared.sequent.Sequent.{Sequent as Conclusion};
ghost use Rattle.lk_rules.specs.declared.rule.Rule.{Rule as Inference};
ghost use Rattle.proof_trees.specs.Trees.{Tree as Proof, node, none, more, concl, IsValid, IsCutFree, size};
ghost use Rattle.expansion_laws.specs.Dependency.{Expansion};
ghost use Rattle.expansion_laws.specs.Proofs.{IsExpansionProof, shallow_sequent};
ghost use Rattle.building_laws.specs.Lists.{Placed, start, conclusion, leaf_sequent, strongs_in_list, weight_of};
ghost use Rattle.building_laws.specs.Building.{Step, closing_rule, closing, parts, instance_at, within, first_step, step_at, by_step, build_within, build, visits};
ghost use Rattle.building_laws.specs.Buildable.{IsFormedExpansion, IsBuildable};
ghost use Rattle.building_laws.specs.Budgets.{building, has_formed_trees};

/// A proof is built from each expansion proof. It is a valid proof of the sequent, without cuts.
pub fn proofs()
    ensures built { (x : Expansion) (s : Conclusion) → IsExpansionProof x s → IsFormedExpansion x s → (t : Proof) × (build (start x) ≡ Some t) }
    ensures end { (x : Expansion) (s : Conclusion) (t : Proof) → IsExpansionProof x s → IsFormedExpansion x s → build (start x) ≡ Some t → concl t ≡ s }
    ensures valid { (x : Expansion) (s : Conclusion) (t : Proof) → IsExpansionProof x s → IsFormedExpansion x s → build (start x) ≡ Some t → IsValid t }
    ensures cut_free { (x : Expansion) (s : Conclusion) (t : Proof) → IsExpansionProof x s → IsFormedExpansion x s → build (start x) ≡ Some t → IsCutFree t }
{}

/// The trees of each list that is visited are an expansion proof: of the first list, and of the premises of each step, of which there is one.
/// So a proof of the sequent of the trees' formulas is built for each.
pub fn lists()
    ensures first { (x : Expansion) (s : Conclusion) → IsExpansionProof x s → IsFormedExpansion x s → IsBuildable (start x) × (conclusion (start x) ≡ s) }
    ensures step { (l : List Placed) → IsBuildable l → (t : Step) × (step_at l ≡ Some t) }
    ensures premises { (l : List Placed) (t : Step) → IsBuildable l → step_at l ≡ Some t → All IsBuildable t.premises }
    ensures built { (l : List Placed) → IsBuildable l → (t : Proof) × (build l ≡ Some t) × (concl t ≡ conclusion l) × IsValid t × IsCutFree t }
{}

/// The step at a list: where the leaves allow it a rule without premises, else at a connective or a strong quantifier, else at an instance.
/// It is that of the first tree that has one, in the tree's place. Its premises weigh less.
pub fn taken()
    ensures closes { (l : List Placed) (r : Inference) → closing_rule (leaf_sequent l) ≡ Some r → step_at l ≡ Some (closing r) }
    ensures part { (l : List Placed) (t : Step) → closing_rule (leaf_sequent l) ≡ None → first_step parts l ≡ Some t → step_at l ≡ Some t }
    ensures instance { (l : List Placed) → closing_rule (leaf_sequent l) ≡ None → first_step parts l ≡ None → step_at l ≡ first_step (instance_at (strongs_in_list l)) l }
    ensures first { (at : Placed → Option Step) (before : List Placed) (p : Placed) (after : List Placed) (t : Step) → All (λ q. at q ≡ None) before → at p ≡ Some t → first_step at (before ++ p ∷ after) ≡ Some (within (λ ps. before ++ (ps ++ after)) t) }
    ensures none { (at : Placed → Option Step) (l : List Placed) → All (λ q. at q ≡ None) l → first_step at l ≡ None }
    ensures falls { (l : List Placed) (t : Step) → step_at l ≡ Some t → All (λ m. weight_of m < weight_of l) t.premises }
{}

/// The proof is by the step that is taken and the proofs of its premises, and as many lists are visited as it has inferences. Any bound on the
/// height that is at least the weight gives the proof.
pub fn steps()
    ensures step { (l : List Placed) → build l ≡ by_step build l (step_at l) }
    ensures leaf { (l : List Placed) (r : Inference) → step_at l ≡ Some (closing r) → (build l ≡ Some (node r (conclusion l) none)) × (visits l ≡ 1) }
    ensures one_premise { (l m : List Placed) (r : Inference) (t : Proof) → step_at l ≡ Some (record { rule = r; premises = m ∷ [] }) → build m ≡ Some t → (build l ≡ Some (node r (conclusion l) (more t none))) × (visits l ≡ suc (visits m)) }
    ensures two_premises { (l m k : List Placed) (r : Inference) (t u : Proof) → step_at l ≡ Some (record { rule = r; premises = m ∷ k ∷ [] }) → build m ≡ Some t → build k ≡ Some u → (build l ≡ Some (node r (conclusion l) (more t (more u none)))) × (visits l ≡ suc (visits m + visits k)) }
    ensures no_step { (l : List Placed) → step_at l ≡ None → build l ≡ None }
    ensures any_bound { (n : ℕ) (l : List Placed) → weight_of l ≤ n → build l ≡ build_within n l }
{}

/// What is built of an expansion proof whose trees name what is well formed is a valid proof without cuts of the sequent of the trees'
/// formulas, and has no more inferences than the budget allows.
pub fn buildings()
    ensures valid { (x : Expansion) (n : ℕ) (t : Proof) → IsExpansionProof x (shallow_sequent x) → has_formed_trees x ≡ true → building x n ≡ Ok t → IsValid t }
    ensures cut_free { (x : Expansion) (n : ℕ) (t : Proof) → IsExpansionProof x (shallow_sequent x) → has_formed_trees x ≡ true → building x n ≡ Ok t → IsCutFree t }
    ensures end { (x : Expansion) (n : ℕ) (t : Proof) → IsExpansionProof x (shallow_sequent x) → has_formed_trees x ≡ true → building x n ≡ Ok t → concl t ≡ shallow_sequent x }
    ensures budget { (x : Expansion) (n : ℕ) (t : Proof) → building x n ≡ Ok t → size t ≤ n }
{
    proofs();
}
