//! The laws of Herbrand sequents and of cut introduction. Each function does nothing: its contract is the law.
ghost use Rattle.std.specs.Prelude.{◌≡◌, ◌↔◌, ◌⊎◌, ◌<◌, ◌≤◌, ℕ, suc, true, false, List, [], ◌∷◌, ◌++◌, map, length, is_some, Some, None};
ghost use Rattle.std.specs.List.{All, Contains, IsDistinct, list_any};
ghost use Rattle.std.specs.Ordering.{eq_by_cmp, is_gt};
ghost use Rattle.finite.specs.Finite as set;
ghost use Rattle.fol.specs.Syntax.{Term as Value, Terms as Tuple, Formula};
ghost use Rattle.fol.specs.Order.{terms_cmp};
ghost use Rattle.fol.specs.Formed.{are_formed_terms_at, count_terms, IsFormed, IsFormedTerm};
ghost use Rattle.lk_rules.specs.declared.sequent.Sequent.{Sequent as Conclusion};
ghost use Rattle.lk_rules.specs.declared.sequent.Side.{Side as Place};
ghost use Rattle.lk_rules.specs.declared.sequent.Side.TheVariants.{Left, Right};
ghost use Rattle.lk_rules.specs.declared.rule.Rule.{Rule as Inference};
ghost use Rattle.lk_rules.specs.declared.rule.Rule.TheVariants.{Cut};
ghost use Rattle.lk_rules.specs.Sequents.{side_of, adds_to, extended, IsSubsequent};
ghost use Rattle.lk_rules.specs.Rules.{aux};
ghost use Rattle.proof_trees.specs.Trees.{Tree as Proof, none, more, concl, quants, IsInference};
ghost use Rattle.proof_trees.specs.Occurrence.{has_body_in_sequent};
ghost use Rattle.search_laws.specs.Truth.{has_quantifier, IsPropositional, IsTautology};
ghost use Rattle.search_laws.specs.Search.{walk, proved};
ghost use Rattle.expansion_laws.specs.Expansions.{Exp};
ghost use Rattle.expansion_laws.specs.Building.{is_built};
ghost use Rattle.expansion_laws.specs.Dependency.{Expansion};
ghost use Rattle.expansion_laws.specs.Proofs.{IsExpansionProof};
ghost use Rattle.herbrand_laws.specs.Herbrand.{is_prenex, prefix, matrix_instance, tuples, Item, items_of, IsPrenex, herbrand_sequent, IsMatrixInstance};
ghost use Rattle.herbrand_laws.specs.Patterns.{put_term, put, has_variable_term, TermSet, pattern_of_terms, pattern_of_tuples, Row, delta, IsRow};
ghost use Rattle.herbrand_laws.specs.Candidates.{rows_of, IsRowOf, occurring, patterns, is_covered, cost, candidate_cmp, least, best};
ghost use Rattle.herbrand_laws.specs.Introduction.{cut_formula, left_rules, right_rules, end_after, left_search, right_search, introduced, introduction, AreFormed, IsFormedProof, IsProofWithCut};

/// No predicate symbol of a sequent whose formulas are weak quantifiers over matrices has a body, so none is unfolded in a proof of it without
/// cuts.
pub fn prenex_sequents()
    ensures { (s : Conclusion) → IsPrenex s → has_body_in_sequent s ≡ false }
{}

/// The Herbrand sequent of an expansion proof, of a sequent whose formulas are weak quantifiers over matrices, is a tautology without
/// quantifiers. Each of its formulas is the matrix instance of one of the sequent's by a tuple of as many terms as that has quantifiers; they
/// are well formed where the sequent's formulas and the terms are.
pub fn herbrand_sequents()
    ensures tautology { (x : Expansion) (s : Conclusion) → IsExpansionProof x s → IsPrenex s → IsTautology (herbrand_sequent (items_of x)) }
    ensures propositional { (x : Expansion) (s : Conclusion) → IsExpansionProof x s → IsPrenex s → IsPropositional (herbrand_sequent (items_of x)) }
    ensures instances { (x : Expansion) (s : Conclusion) → IsExpansionProof x s → IsPrenex s → (side : Place) (f : Formula) → set.has (side_of (herbrand_sequent (items_of x)) side) f ≡ true → IsMatrixInstance s side f }
    ensures formed { (x : Expansion) (s : Conclusion) → IsFormedProof x s → AreFormed (herbrand_sequent (items_of x)) }
{}

/// A matrix instance by a tuple of as many terms as there are quantifiers has no quantifier. It is well formed where the formula and the terms
/// are.
pub fn matrix_instances_of()
    ensures plain { (side : Place) (us : Tuple) (f : Formula) → count_terms us ≡ prefix side f → is_prenex side f ≡ true → has_quantifier (matrix_instance us f) ≡ false }
    ensures formed { (us : Tuple) (f : Formula) → IsFormed f → are_formed_terms_at 0 us ≡ true → IsFormed (matrix_instance us f) }
{}

/// The tuples of a tree whose formula has n quantifiers have n terms each, and rise.
pub fn tuples_of_trees()
    ensures counted { (n : ℕ) (e : Exp) → All (λ us. count_terms us ≡ n) (tuples n e) }
    ensures rising { (n : ℕ) (e : Exp) → is_built e ≡ true → set.IsRising terms_cmp (tuples n e) }
{}

/// The pattern of terms gives them back: without values whatever stands for its variable, with values each by its value. It has the variable just
/// where it has values.
pub fn patterns_of_terms()
    ensures equal { (t : Value) (ts : List Value) (v : Value) → IsFormedTerm t → (pattern_of_terms t ts).values ≡ None → All (λ u. put_term (pattern_of_terms t ts).pattern v ≡ u) (t ∷ ts) }
    ensures by_values { (t : Value) (ts vs : List Value) → IsFormedTerm t → (pattern_of_terms t ts).values ≡ Some vs → map (put_term (pattern_of_terms t ts).pattern) vs ≡ t ∷ ts }
    ensures variable { (t : Value) (ts : List Value) → IsFormedTerm t → has_variable_term (pattern_of_terms t ts).pattern ≡ is_some (pattern_of_terms t ts).values }
{}

/// A row gives its tuples back, each by a value, and its pattern has the variable, and as many terms as they have. Where the tuples are
/// different, it has as many values as there are tuples. Of well-formed tuples the values are well formed, and the pattern is so inside a
/// quantifier. Tuples have no row just where their terms have different values, or are equal.
pub fn rows()
    ensures gives_back { (us : Tuple) (uss : List Tuple) (r : Row) → are_formed_terms_at 0 us ≡ true → delta (us ∷ uss) ≡ Some r → IsRow (us ∷ uss) r }
    ensures counted { (us : Tuple) (uss : List Tuple) (r : Row) → are_formed_terms_at 0 us ≡ true → delta (us ∷ uss) ≡ Some r → count_terms r.pattern ≡ count_terms us }
    ensures formed { (us : Tuple) (uss : List Tuple) (r : Row) → All (λ vs. are_formed_terms_at 0 vs ≡ true) (us ∷ uss) → delta (us ∷ uss) ≡ Some r → (are_formed_terms_at 1 r.pattern ≡ true) × All IsFormedTerm (set.listing r.values) }
    ensures different { (us : Tuple) (uss : List Tuple) (r : Row) → are_formed_terms_at 0 us ≡ true → IsDistinct (eq_by_cmp terms_cmp) (us ∷ uss) → delta (us ∷ uss) ≡ Some r → length (set.listing r.values) ≡ suc (length uss) }
    ensures no_row { (us : Tuple) (uss : List Tuple) → are_formed_terms_at 0 us ≡ true → (delta (us ∷ uss) ≡ None) ↔ ((pattern_of_tuples us uss ≡ None) ⊎ All (λ vs. us ≡ vs) uss) }
{}

/// A pattern has as many terms with any term for its variable. With a well-formed one it is well formed, if it is so inside a quantifier.
pub fn filled_patterns()
    ensures counted { (t : Value) (p : Tuple) → count_terms (put p t) ≡ count_terms p }
    ensures formed { (t : Value) (p : Tuple) → IsFormedTerm t → are_formed_terms_at 1 p ≡ true → are_formed_terms_at 0 (put p t) ≡ true }
{}

/// Which rows an item has, which candidates there are, and which patterns a candidate has of an item.
pub fn members()
    ensures rows { (width : ℕ) (i : Item) (r : Row) → Contains (rows_of width i) r ↔ IsRowOf width i r }
    ensures candidates { (width : ℕ) (items : List Item) (w : TermSet) → Contains (occurring width items) w ↔ ((i : Item) × (r : Row) × Contains items i × Contains (rows_of width i) r × (r.values ≡ w)) }
    ensures patterns { (width : ℕ) (w : TermSet) (i : Item) (p : Tuple) → Contains (patterns width w i) p ↔ ((r : Row) × Contains (rows_of width i) r × (r.values ≡ w) × (r.pattern ≡ p)) }
{}

/// There is a best candidate just where there is a row. It is one of those that occur, and none is below it. Lists with the same candidates, in
/// whatever order, have the same least one. What a candidate covers of an item are tuples of that.
pub fn candidates()
    ensures none { (width : ℕ) (items : List Item) → (best width items ≡ None) ↔ All (λ i. rows_of width i ≡ []) items }
    ensures occurs { (width : ℕ) (items : List Item) (w : TermSet) → best width items ≡ Some w → Contains (occurring width items) w }
    ensures none_below { (width : ℕ) (items : List Item) (w : TermSet) → best width items ≡ Some w → All (λ v. is_gt (candidate_cmp width items w v) ≡ false) (occurring width items) }
    ensures any_order { (width : ℕ) (items : List Item) (vs ws : List TermSet) → ((v : TermSet) → Contains vs v → Contains ws v) → ((v : TermSet) → Contains ws v → Contains vs v) → least (candidate_cmp width items) vs ≡ least (candidate_cmp width items) ws }
    ensures covered { (width : ℕ) (i : Item) (w : TermSet) (us : Tuple) → All (λ vs. are_formed_terms_at 0 vs ≡ true) i.tuples → is_covered (patterns width w i) w us ≡ true → list_any (eq_by_cmp terms_cmp us) i.tuples ≡ true }
{}

/// With any candidate both searches succeed, and what is made of them is a valid proof of the sequent with one cut and as many quantifier
/// inferences as the candidate costs.
pub fn introductions()
    ensures left { (width : ℕ) (x : Expansion) (s : Conclusion) (w : TermSet) → IsFormedProof x s → Contains (occurring width (items_of x)) w → (l : Proof) × (walk (left_search width s (items_of x) w) ≡ proved l) }
    ensures right { (width : ℕ) (x : Expansion) (s : Conclusion) (w : TermSet) → IsFormedProof x s → Contains (occurring width (items_of x)) w → (r : Proof) × (walk (right_search width s (items_of x) w) ≡ proved r) }
    ensures found { (width : ℕ) (x : Expansion) (s : Conclusion) (w : TermSet) → IsFormedProof x s → Contains (occurring width (items_of x)) w → (t : Proof) × (introduced width s (items_of x) w ≡ Some t) }
    ensures proofs { (width : ℕ) (x : Expansion) (s : Conclusion) (w : TermSet) (t : Proof) → IsFormedProof x s → Contains (occurring width (items_of x)) w → introduced width s (items_of x) w ≡ Some t → IsProofWithCut s (cost width (items_of x) w) t }
{}

/// What is searched has no quantifier, and is well formed.
pub fn searched()
    ensures left_propositional { (width : ℕ) (s : Conclusion) (items : List Item) (w : TermSet) → IsPropositional (left_search width s items w) }
    ensures right_propositional { (width : ℕ) (s : Conclusion) (items : List Item) (w : TermSet) → IsPropositional (right_search width s items w) }
    ensures left_formed { (width : ℕ) (x : Expansion) (s : Conclusion) (w : TermSet) → IsFormedProof x s → AreFormed (left_search width s (items_of x) w) }
    ensures right_formed { (width : ℕ) (x : Expansion) (s : Conclusion) (w : TermSet) → IsFormedProof x s → Contains (occurring width (items_of x)) w → AreFormed (right_search width s (items_of x) w) }
{}

/// Each inference of the proof with the cut is right, whatever proof stands above it, if the end sequent of that is within what is asked for. Each
/// end sequent is well formed.
pub fn inferences()
    ensures root { (width : ℕ) (x : Expansion) (s : Conclusion) (w : TermSet) (l r : Proof) → IsFormedProof x s → let c = cut_formula width s (items_of x) w in IsSubsequent (concl l) (adds_to s Right c) → IsSubsequent (concl r) (adds_to s Left c) → IsInference (Cut c) s (more l (more r none)) }
    ensures left { (width : ℕ) (x : Expansion) (s : Conclusion) (w : TermSet) (before after : List Inference) (r : Inference) (t : Proof) → IsFormedProof x s → left_rules width s (items_of x) w ≡ before ++ (r ∷ after) → let e = end_after before (adds_to s Right (cut_formula width s (items_of x) w)) in IsSubsequent (concl t) (extended e (aux r 0)) → IsInference r e (more t none) }
    ensures right { (width : ℕ) (x : Expansion) (s : Conclusion) (w : TermSet) (before after : List Inference) (r : Inference) (t : Proof) → IsFormedProof x s → Contains (occurring width (items_of x)) w → right_rules width s (items_of x) w ≡ before ++ (r ∷ after) → let e = end_after before (adds_to s Left (cut_formula width s (items_of x) w)) in IsSubsequent (concl t) (extended e (aux r 0)) → IsInference r e (more t none) }
    ensures left_ends { (width : ℕ) (x : Expansion) (s : Conclusion) (w : TermSet) (before after : List Inference) → IsFormedProof x s → left_rules width s (items_of x) w ≡ before ++ after → AreFormed (end_after before (adds_to s Right (cut_formula width s (items_of x) w))) }
    ensures right_ends { (width : ℕ) (x : Expansion) (s : Conclusion) (w : TermSet) (before after : List Inference) → IsFormedProof x s → Contains (occurring width (items_of x)) w → right_rules width s (items_of x) w ≡ before ++ after → AreFormed (end_after before (adds_to s Left (cut_formula width s (items_of x) w))) }
{}

/// The answer is the proof with the cut where the best candidate costs less than the proof has quantifier inferences, and else that proof.
pub fn answers()
    ensures no_candidate { (width : ℕ) (t : Proof) (items : List Item) → best width items ≡ None → introduction width t items ≡ t }
    ensures not_cheaper { (width : ℕ) (t : Proof) (items : List Item) (w : TermSet) → best width items ≡ Some w → quants t ≤ cost width items w → introduction width t items ≡ t }
    ensures shorter { (width : ℕ) (t : Proof) (x : Expansion) (s : Conclusion) (w : TermSet) → IsFormedProof x s → concl t ≡ s → best width (items_of x) ≡ Some w → cost width (items_of x) w < quants t → IsProofWithCut s (cost width (items_of x) w) (introduction width t (items_of x)) }
{}
