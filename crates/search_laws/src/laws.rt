//! The laws of search. Each function does nothing: its contract is the law.
ghost use Rattle.std.specs.Prelude.{◌≡◌, ◌↔◌, ◌<◌, ℕ, true, Some};
ghost use Rattle.std.specs.List.{All, list_all};
ghost use Rattle.fol.specs.Formed.{IsFormed};
ghost use Rattle.finite.specs.Finite as set;
ghost use Rattle.lk_rules.specs.declared.sequent.Sequent.{Sequent as Conclusion};
ghost use Rattle.lk_rules.specs.declared.rule.Rule.{Rule as Inference};
ghost use Rattle.lk_rules.specs.Rules.{needs};
ghost use Rattle.proof_trees.specs.Trees.{Tree as Proof, concl, IsValid, IsCutFree};
ghost use Rattle.proof_trees.specs.FormulaSets.{is_atom};
ghost use Rattle.search_laws.specs.Truth.{Assignment, IsPropositional, IsTautology, falsifies};
ghost use Rattle.search_laws.specs.Search.{walk, by_rule, rule_at, premise_at, weight, proved, falsified};

/// A search finds a valid proof without cuts of the sequent just where that is a tautology. Where it ends at a false sequent, the assignment
/// makes the sequent itself false, and what it makes true are atoms.
pub fn searches()
    ensures found { (s : Conclusion) → IsPropositional s → (IsTautology s ↔ ((t : Proof) × (walk s ≡ proved t))) }
    ensures refuted { (s : Conclusion) (n : ℕ) (a : Assignment) → IsPropositional s → walk s ≡ falsified n a → falsifies a s ≡ true }
    ensures atoms { (s : Conclusion) (n : ℕ) (a : Assignment) → IsPropositional s → walk s ≡ falsified n a → list_all is_atom (set.listing a) ≡ true }
{}

/// What is found is a proof without cuts of the sequent, a valid one where the sequent's formulas are well formed.
pub fn proofs()
    ensures valid { (s : Conclusion) (t : Proof) → All IsFormed (set.listing s.left) → All IsFormed (set.listing s.right) → walk s ≡ proved t → IsValid t }
    ensures cut_free { (s : Conclusion) (t : Proof) → walk s ≡ proved t → IsCutFree t }
    ensures end { (s : Conclusion) (t : Proof) → walk s ≡ proved t → concl t ≡ s }
{}

/// A walk goes from a sequent to the premises of the rule that is taken there, each of which has fewer connectives.
pub fn steps()
    ensures walk { (s : Conclusion) → walk s ≡ by_rule walk s (rule_at s) }
    ensures falls { (s : Conclusion) (r : Inference) (i : ℕ) → rule_at s ≡ Some r → i < needs r → weight (premise_at r s i) < weight s }
{}
