//! The laws of extraction. Each function does nothing: its contract is the law.
ghost use Rattle.std.specs.Prelude.{◌≡◌, ◌<◌, ℕ, suc, true, false, List, length, map, ◌≤◌, Ok};
ghost use Rattle.std.specs.FinMap as fin;
ghost use Rattle.std.specs.List.{list_any};
ghost use Rattle.std.specs.Ordering.{eq_by_cmp};
ghost use Rattle.fol.specs.declared.symbols.Var.{Var as Variable};
ghost use Rattle.fol.specs.declared.symbols.Var.TheVariants.{Num};
ghost use Rattle.fol.specs.Syntax.{Term, free, Formula, not, and, or, imp, all, ex};
ghost use Rattle.fol.specs.Order.{term_cmp};
ghost use Rattle.finite.specs.Finite as set;
ghost use Rattle.free_variables.specs.Fresh.{is_among};
ghost use Rattle.substitution.specs.Closed.{IsClosedMap};
ghost use Rattle.substitution.specs.Maps.{Map};
ghost use Rattle.lk_rules.specs.declared.sequent.Sequent.{Sequent as Conclusion};
ghost use Rattle.lk_rules.specs.declared.sequent.Side.{Side as Place};
ghost use Rattle.lk_rules.specs.declared.sequent.Side.TheVariants.{Left, Right};
ghost use Rattle.lk_rules.specs.declared.rule.Rule.{Rule as Inference};
ghost use Rattle.lk_rules.specs.Sequents.{side_of};
ghost use Rattle.lk_rules.specs.Rules.{is_unfolding_rule, main_stands, eigen_free, IsWithin};
ghost use Rattle.proof_trees.specs.Trees.{Tree as Proof, node, none, more, concl, is_cut, IsValid, IsCutFree, size};
ghost use Rattle.proof_trees.specs.Occurrence.{has_body_in_sequent};
ghost use Rattle.expansion_laws.specs.Expansions.{wk, leaf, neg, conj, disj, impl, shallow};
ghost use Rattle.expansion_laws.specs.Building.{is_flat};
ghost use Rattle.expansion_laws.specs.Proofs.{IsExpansionProof};
ghost use Rattle.extraction_laws.specs.Addresses.{Address, root, part, via, is_listed, formula_at, side_at};
ghost use Rattle.extraction_laws.specs.States.{State, nth_outside, number_of, opened, instantiated, named, Includes, variable_at, terms_at, weak_at, strong_at, tree_at};
ghost use Rattle.extraction_laws.specs.Extraction.{paired, Context, met, inner_context, inner_map, inner_variable, walked, extracted};
ghost use Rattle.extraction_laws.specs.Images.{HaveImages};
ghost use Rattle.expansion_laws.specs.Dependency.{Expansion};
ghost use Rattle.extraction_laws.specs.Extracting.{extracting};

/// The trees that are extracted are of the formulas of the proof's conclusion, in the same order.
pub fn formulas()
    ensures left { (t : Proof) → map shallow (extracted t).left ≡ set.listing (concl t).left }
    ensures right { (t : Proof) → map shallow (extracted t).right ≡ set.listing (concl t).right }
{}

/// What is extracted from a valid proof without cuts is an expansion proof of its conclusion, if no predicate symbol there has a body.
pub fn expansion_proof()
    ensures { (t : Proof) → IsValid t → IsCutFree t → has_body_in_sequent (concl t) ≡ false → IsExpansionProof (extracted t) (concl t) }
{}

/// A proof that was gone through leaves no new marks when it is gone through again with the same map and the same addresses, also after
/// others. Marks stay. Only the addresses of the formulas of the conclusion count.
pub fn again()
    ensures again { (vs : List Variable) (t : Proof) (m : Map) (c : Context) (x : State) → walked vs t m c (walked vs t m c x) ≡ walked vs t m c x }
    ensures later { (vs : List Variable) (t : Proof) (m : Map) (c : Context) (x y : State) → walked vs t m c x ≡ x → Includes x y → walked vs t m c y ≡ y }
    ensures stay { (vs : List Variable) (t : Proof) (m : Map) (c : Context) (x : State) → Includes x (walked vs t m c x) }
    ensures addresses { (vs : List Variable) (t : Proof) (m : Map) (c d : Context) (x : State) → IsValid t → ((side : Place) (f : Formula) → set.has (side_of (concl t) side) f ≡ true → c side f ≡ d side f) → walked vs t m c x ≡ walked vs t m d x }
{}

/// The addresses of the formulas on the way have the images of the formulas, on their sides: at first the formulas themselves, and in the
/// premises of an inference that unfolds no atom where it is so in its conclusion. The terms of the map stay closed.
pub fn images()
    ensures first { (s : Conclusion) → HaveImages fin.empty root s }
    ensures premise { (r : Inference) (s e : Conclusion) (i : ℕ) (m : Map) (c : Context) (v : Variable) → is_cut r ≡ false → is_unfolding_rule r ≡ false → main_stands r s ≡ true → eigen_free r s ≡ false → IsWithin r s i e → IsClosedMap (fin.get m) → HaveImages m c s → HaveImages (inner_map r m v) (inner_context r s m c v i) e }
    ensures closed { (r : Inference) (m : Map) (v : Variable) → IsClosedMap (fin.get m) → IsClosedMap (fin.get (inner_map r m v)) }
{}

/// The variables that are given aren't in the list, have rising numbers, and leave out no number of a variable that isn't in the list.
pub fn variables()
    ensures outside { (vs : List Variable) (k : ℕ) → is_among (nth_outside vs k) vs ≡ false }
    ensures rise { (vs : List Variable) (j k : ℕ) → j < k → number_of (nth_outside vs j) < number_of (nth_outside vs k) }
    ensures next { (vs : List Variable) (k n : ℕ) → number_of (nth_outside vs k) < n → is_among (Num n) vs ≡ false → ((j : ℕ) → number_of (nth_outside vs k) < j → j < n → is_among (Num j) vs ≡ true) → nth_outside vs (suc k) ≡ Num n }
{}

/// An address without a variable gets the first one that isn't given yet, and keeps it. The terms at an address are those of the instances
/// that are marked, in rising order.
pub fn marks()
    ensures new_variable { (vs : List Variable) (x : State) (a : Address) → is_listed a x.names ≡ false → variable_at vs (named a x) a ≡ nth_outside vs (length x.names) }
    ensures old_variable { (vs : List Variable) (x y : State) (a : Address) → Includes x y → is_listed a x.names ≡ true → variable_at vs y a ≡ variable_at vs x a }
    ensures terms { (x : State) (a : Address) (t : Term) → list_any (eq_by_cmp term_cmp t) (terms_at x a) ≡ set.has x.instances (via a t) }
    ensures rise { (x : State) (a : Address) → set.IsRising term_cmp (terms_at x a) }
{}

/// The marks after an inference: those of its rule, and then those of its premises from the left.
pub fn steps()
    ensures leaf { (vs : List Variable) (r : Inference) (s : Conclusion) (m : Map) (c : Context) (x : State) → walked vs (node r s none) m c x ≡ met vs r m c x }
    ensures one_premise { (vs : List Variable) (r : Inference) (s : Conclusion) (p : Proof) (m : Map) (c : Context) (x : State) → let v = inner_variable vs r m c x in walked vs (node r s (more p none)) m c x ≡ walked vs p (inner_map r m v) (inner_context r s m c v 0) (met vs r m c x) }
    ensures two_premises { (vs : List Variable) (r : Inference) (s : Conclusion) (p q : Proof) (m : Map) (c : Context) (x : State) → let v = inner_variable vs r m c x in let n = inner_map r m v in walked vs (node r s (more p (more q none))) m c x ≡ walked vs q n (inner_context r s m c v 1) (walked vs p n (inner_context r s m c v 0) (met vs r m c x)) }
{}

/// The marks of an axiom's formula, by its parts or its instance.
pub fn axioms()
    ensures flat { (vs : List Variable) (l r : Address) (x : State) → formula_at l ≡ formula_at r → is_flat (formula_at l) ≡ true → paired vs l r x ≡ opened r (opened l x) }
    ensures negation { (vs : List Variable) (l r : Address) (f : Formula) (x : State) → formula_at l ≡ not f → formula_at r ≡ not f → paired vs l r x ≡ paired vs (part r 0) (part l 0) (opened r (opened l x)) }
    ensures conjunction { (vs : List Variable) (l r : Address) (f g : Formula) (x : State) → formula_at l ≡ and f g → formula_at r ≡ and f g → paired vs l r x ≡ paired vs (part l 1) (part r 1) (paired vs (part l 0) (part r 0) (opened r (opened l x))) }
    ensures disjunction { (vs : List Variable) (l r : Address) (f g : Formula) (x : State) → formula_at l ≡ or f g → formula_at r ≡ or f g → paired vs l r x ≡ paired vs (part l 1) (part r 1) (paired vs (part l 0) (part r 0) (opened r (opened l x))) }
    ensures implication { (vs : List Variable) (l r : Address) (f g : Formula) (x : State) → formula_at l ≡ imp f g → formula_at r ≡ imp f g → paired vs l r x ≡ paired vs (part l 1) (part r 1) (paired vs (part r 0) (part l 0) (opened r (opened l x))) }
    ensures universal { (vs : List Variable) (l r : Address) (f : Formula) (x : State) → formula_at l ≡ all f → formula_at r ≡ all f → let t = free (variable_at vs x r) in paired vs l r x ≡ paired vs (via l t) (via r t) (instantiated l t (named r (opened r (opened l x)))) }
    ensures existential { (vs : List Variable) (l r : Address) (f : Formula) (x : State) → formula_at l ≡ ex f → formula_at r ≡ ex f → let t = free (variable_at vs x l) in paired vs l r x ≡ paired vs (via l t) (via r t) (instantiated r t (named l (opened r (opened l x)))) }
{}

/// The tree at an address, by the trees of its formula's parts or instances.
pub fn trees()
    ensures unused { (vs : List Variable) (x : State) (a : Address) → set.has x.opened a ≡ false → tree_at vs x a ≡ wk (formula_at a) }
    ensures flat { (vs : List Variable) (x : State) (a : Address) → set.has x.opened a ≡ true → is_flat (formula_at a) ≡ true → tree_at vs x a ≡ leaf (formula_at a) }
    ensures negation { (vs : List Variable) (x : State) (a : Address) (f : Formula) → set.has x.opened a ≡ true → formula_at a ≡ not f → tree_at vs x a ≡ neg (tree_at vs x (part a 0)) }
    ensures conjunction { (vs : List Variable) (x : State) (a : Address) (f g : Formula) → set.has x.opened a ≡ true → formula_at a ≡ and f g → tree_at vs x a ≡ conj (tree_at vs x (part a 0)) (tree_at vs x (part a 1)) }
    ensures disjunction { (vs : List Variable) (x : State) (a : Address) (f g : Formula) → set.has x.opened a ≡ true → formula_at a ≡ or f g → tree_at vs x a ≡ disj (tree_at vs x (part a 0)) (tree_at vs x (part a 1)) }
    ensures implication { (vs : List Variable) (x : State) (a : Address) (f g : Formula) → set.has x.opened a ≡ true → formula_at a ≡ imp f g → tree_at vs x a ≡ impl (tree_at vs x (part a 0)) (tree_at vs x (part a 1)) }
    ensures universal_left { (vs : List Variable) (x : State) (a : Address) (f : Formula) → set.has x.opened a ≡ true → formula_at a ≡ all f → side_at a ≡ Left → tree_at vs x a ≡ weak_at x a (λ t. tree_at vs x (via a t)) }
    ensures universal_right { (vs : List Variable) (x : State) (a : Address) (f : Formula) → set.has x.opened a ≡ true → formula_at a ≡ all f → side_at a ≡ Right → tree_at vs x a ≡ strong_at vs x a (λ t. tree_at vs x (via a t)) }
    ensures existential_left { (vs : List Variable) (x : State) (a : Address) (f : Formula) → set.has x.opened a ≡ true → formula_at a ≡ ex f → side_at a ≡ Left → tree_at vs x a ≡ strong_at vs x a (λ t. tree_at vs x (via a t)) }
    ensures existential_right { (vs : List Variable) (x : State) (a : Address) (f : Formula) → set.has x.opened a ≡ true → formula_at a ≡ ex f → side_at a ≡ Right → tree_at vs x a ≡ weak_at x a (λ t. tree_at vs x (via a t)) }
{}

/// What isn't refused is the expansion of a proof without cuts, in whose end sequent no symbol has a body and whose tree is within the
/// budget. It is an expansion proof of the end sequent, if the proof is valid.
pub fn extractions()
    ensures expansion { (t : Proof) (n : ℕ) (x : Expansion) → extracting t n ≡ Ok x → x ≡ extracted t }
    ensures proof { (t : Proof) (n : ℕ) (x : Expansion) → IsValid t → extracting t n ≡ Ok x → IsExpansionProof x (concl t) }
    ensures cut_free { (t : Proof) (n : ℕ) (x : Expansion) → extracting t n ≡ Ok x → IsCutFree t }
    ensures bodies { (t : Proof) (n : ℕ) (x : Expansion) → extracting t n ≡ Ok x → has_body_in_sequent (concl t) ≡ false }
    ensures budget { (t : Proof) (n : ℕ) (x : Expansion) → extracting t n ≡ Ok x → size t ≤ n }
{}
