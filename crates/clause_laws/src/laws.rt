//! The laws of clauses. Each function does nothing: its contract is the law.
ghost use Rattle.std.specs.Prelude.{◌≡◌, ◌≢◌, ◌↔◌, ◌⊎◌, ℕ, suc, ◌+◌, true, List, [], ◌∷◌, ◌++◌, map, Contains, Option, Some, None, Ok};
ghost use Rattle.std.specs.FinMap as fin;
ghost use Rattle.std.specs.List.{All};
ghost use Rattle.fol.specs.declared.symbols.Var.{Var as Variable};
ghost use Rattle.fol.specs.Formed.{IsFormed};
ghost use Rattle.fol.specs.Syntax.{Term, Pred, Formula};
ghost use Rattle.finite.specs.Finite as set;
ghost use Rattle.substitution.specs.Image.{image_term, image, after, IsFormedMap};
ghost use Rattle.substitution.specs.Maps.{Map};
ghost use Rattle.lk_rules.specs.declared.sequent.Sequent.{Sequent as Clause};
ghost use Rattle.lk_rules.specs.declared.sequent.Side.{Side as Place};
ghost use Rattle.lk_rules.specs.Sequents.{empty, side_of, IsSubsequent, image_sequent};
ghost use Rattle.proof_trees.specs.Conclusions.{IsFormedSequent};
ghost use Rattle.proof_trees.specs.FormulaSets.{is_atom};
ghost use Rattle.proof_trees.specs.Trees.{Tree as Proof};
ghost use Rattle.refutations.specs.declared.clause.Clause.{Clause as InputClause};
ghost use Rattle.refutations.specs.declared.step.ResStep.{ResStep};
ghost use Rattle.refutations.specs.Clauses.{literals_of, IsClauseOf};
ghost use Rattle.refutations.specs.Refutations.{resolvent, refutation, AreFormedSteps};
ghost use Rattle.clause_laws.specs.Subsumption.{IsClause, IsTautology, Subsumes, IsVariant, IsRenamed, AreApart};
ghost use Rattle.clause_laws.specs.Unifiers.{set_of, MakesAll, MakesOne, IsMostGeneral, unifier};
ghost use Rattle.clause_laws.specs.Apart.{first_apart, second_apart, on_each};
ghost use Rattle.clause_laws.specs.Resolvents.{IsFullResolvent, SubsumedByPair};
ghost use Rattle.clause_laws.specs.Choices.{sublists, choices, resolvents_apart, full_resolvents, ByChoice};
ghost use Rattle.clause_laws.specs.Steps.{taken, BySteps, IsDerived};
ghost use Rattle.clause_laws.specs.Features.{HasPredicate, ArePartners};
ghost use Rattle.clause_laws.specs.Searching.{subsumes, is_tautology};
ghost use Rattle.clause_laws.specs.Normal.{IsNormal, variables, normal};
ghost use Rattle.clause_laws.specs.Rounds.{IsCovered, Covers, ResolventOf, WithResolvents, ResolventWith, IsClosed, VariantOf, Level};
ghost use Rattle.clause_laws.specs.Keeping.{is_covered, with_clause, with_each, resolvents_of, rounds, is_closed, IsReduced};
ghost use Rattle.clause_laws.specs.Saturation.{IsSaturation};

/// Subsumption is reflexive and transitive. A clause subsumes each larger one and each of its images. The empty clause is subsumed by itself
/// alone, and what a tautology subsumes is a tautology.
pub fn subsumption()
    ensures reflexive { (c : Clause) → Subsumes c c }
    ensures transitive { (c d e : Clause) → Subsumes c d → Subsumes d e → Subsumes c e }
    ensures larger { (c d : Clause) → IsSubsequent c d → Subsumes c d }
    ensures image { (m : Variable → Option Term) (c : Clause) → Subsumes c (image_sequent m c) }
    ensures of_empty { (c : Clause) → Subsumes c empty → c ≡ empty }
    ensures tautology { (c d : Clause) → IsTautology c → Subsumes c d → IsTautology d }
{}

/// To be a variant is an equivalence, and variants subsume each other. Where each of two clauses is an image of the other one, they differ in the
/// names of variables alone.
pub fn variants()
    ensures reflexive { (c : Clause) → IsVariant c c }
    ensures symmetric { (c d : Clause) → IsVariant c d → IsVariant d c }
    ensures transitive { (c d e : Clause) → IsVariant c d → IsVariant d e → IsVariant c e }
    ensures subsumes { (c d : Clause) → IsVariant c d → Subsumes c d }
    ensures renamed { (c d : Clause) → IsVariant c d ↔ IsRenamed c d }
{}

/// Any two clauses have variants that are apart. Of clauses that are apart, a map for each makes one for both.
pub fn renaming_apart()
    ensures first { (c : Clause) → IsVariant c (image_sequent first_apart c) }
    ensures second { (c : Clause) → IsVariant c (image_sequent second_apart c) }
    ensures apart { (c d : Clause) → AreApart (image_sequent first_apart c) (image_sequent second_apart d) }
    ensures on_first { (c : Clause) (g h : Variable → Option Term) → image_sequent (on_each c g h) c ≡ image_sequent g c }
    ensures on_second { (c d : Clause) (g h : Variable → Option Term) → AreApart c d → image_sequent (on_each c g h) d ≡ image_sequent h d }
{}

/// Where atoms have a unifier, the maps that make them one are exactly those that do the same to a term before and after it. None is found
/// exactly where no map makes them one.
pub fn unifiers_of_atoms()
    ensures general { (fs : List Formula) → All (λ f. is_atom f ≡ true) fs → (m : Map) → unifier fs ≡ Some m → (h : Variable → Option Term) → MakesOne h fs ↔ ((t : Term) → image_term h (image_term (fin.get m) t) ≡ image_term h t) }
    ensures listed { (h : Variable → Option Term) (fs : List Formula) (b : Formula) → MakesAll h (set_of fs) b ↔ All (λ f. image h f ≡ b) fs }
    ensures none { (fs : List Formula) → All (λ f. is_atom f ≡ true) fs → (unifier fs ≡ None) ↔ ((h : Variable → Option Term) → MakesOne h fs → ⊥) }
{}

/// The unifier that is found is a most general one. So is one that is made step by step: of one atom it changes nothing, and of one atom more it
/// is one of the atoms before, and then one of what these and the further one have become. Where the latter have none, all have none.
pub fn unifiers_step_by_step()
    ensures found { (f : Formula) (fs : List Formula) → All (λ g. is_atom g ≡ true) (f ∷ fs) → (m : Map) → unifier (f ∷ fs) ≡ Some m → IsMostGeneral (fin.get m) (set_of (f ∷ fs)) (image (fin.get m) f) }
    ensures one { (f : Formula) → IsMostGeneral (λ (v : Variable). None) (set_of (f ∷ [])) f }
    ensures more { (f : Formula) (fs : List Formula) (g : Formula) (m n : Variable → Option Term) (a b : Formula) → IsMostGeneral m (set_of (f ∷ fs)) a → IsMostGeneral n (set_of (a ∷ image m g ∷ [])) b → IsMostGeneral (after m n) (set_of ((f ∷ fs) ++ g ∷ [])) b }
    ensures no_more { (f : Formula) (fs : List Formula) (g : Formula) (m : Variable → Option Term) (a : Formula) → IsMostGeneral m (set_of (f ∷ fs)) a → (h : Variable → Option Term) (b : Formula) → MakesAll h (set_of ((f ∷ fs) ++ g ∷ [])) b → (k : Variable → Option Term) × MakesAll k (set_of (a ∷ image m g ∷ [])) b }
{}

/// Images, variants and full resolvents of clauses are clauses, and variants have the same full resolvents.
pub fn clauses()
    ensures image { (m : Variable → Option Term) (c : Clause) → IsClause c → IsClause (image_sequent m c) }
    ensures variant { (c d : Clause) → IsVariant c d → IsClause c → IsClause d }
    ensures full_resolvent { (c d r : Clause) → IsClause c → IsClause d → IsFullResolvent c d r → IsClause r }
    ensures of_variants { (c d e f r : Clause) → IsVariant c d → IsVariant e f → IsFullResolvent c e r → IsFullResolvent d f r }
{}

/// The unifier of well-formed atoms has well-formed terms, and images, resolvents and numbered variants of well-formed clauses are well formed.
pub fn well_formed_clauses()
    ensures unifier { (fs : List Formula) → All (λ f. (is_atom f ≡ true) × IsFormed f) fs → (m : Map) → unifier fs ≡ Some m → IsFormedMap (fin.get m) }
    ensures image { (m : Variable → Option Term) (c : Clause) → IsFormedMap m → IsFormedSequent c → IsFormedSequent (image_sequent m c) }
    ensures resolvent { (c d : Clause) (a : Formula) → IsFormedSequent c → IsFormedSequent d → IsFormedSequent (resolvent c d a) }
    ensures numbered { (c : Clause) → IsFormedSequent c → IsFormedSequent (normal c) }
{}

/// A full resolvent comes about by single steps: an image of each clause, under a finite map, and then a resolution on an atom that is there. So
/// what rounds reach is derived by such steps from the input, and what these derive is covered by what enough rounds reach. In particular steps
/// derive the empty clause exactly where some number of rounds reaches it.
pub fn full_resolvents_by_steps()
    ensures finite_maps { (h : Variable → Option Term) (c : Clause) → image_sequent (fin.get (taken h (variables c))) c ≡ image_sequent h c }
    ensures steps { (c d r : Clause) → IsFullResolvent c d r → BySteps c d r }
    ensures derived { (cs : List Clause) (n : ℕ) (c : Clause) → Level cs n c → IsDerived cs c }
    ensures covered { (cs : List Clause) → All IsClause cs → (c : Clause) → IsDerived cs c → (n : ℕ) × IsCovered (Level cs n) c }
    ensures of_empty { (cs : List Clause) → All IsClause cs → IsDerived cs empty ↔ ((n : ℕ) × Level cs n empty) }
{}

/// The literals of input clauses are clauses, and wherever the steps of a refutation derive the empty clause from them, some number of rounds
/// reaches it.
pub fn refutations_by_rounds()
    ensures literals { (cs : List InputClause) → All IsClauseOf cs → All IsClause (map (λ (c : InputClause). literals_of c.matrix) cs) }
    ensures reached { (cs : List InputClause) → All IsClauseOf cs → (steps : List ResStep) (t : Proof) → AreFormedSteps steps → refutation cs steps ≡ Ok t → (n : ℕ) × Level (map (λ (c : InputClause). literals_of c.matrix) cs) n empty }
{}

/// What an index may pass over: a clause without some predicate that another one has on the same side isn't subsumed by that, and clauses have a
/// full resolvent only where a predicate stands on the right of the first and on the left of the second.
pub fn indexes()
    ensures subsumption { (c d : Clause) → Subsumes c d → (p : Pred) (side : Place) → HasPredicate p (side_of c side) → HasPredicate p (side_of d side) }
    ensures partners { (c d r : Clause) → IsFullResolvent c d r → ArePartners c d }
{}

/// The central lemma: where d subsumes c and e subsumes f, each resolvent of c and f, on an atom as it stands or a full one, is subsumed by d,
/// by e or by a full resolvent of d and e.
pub fn lifting()
    ensures on_an_atom { (c d e f : Clause) (a : Formula) → is_atom a ≡ true → Subsumes d c → Subsumes e f → SubsumedByPair d e (resolvent c f a) }
    ensures full { (c d e f r : Clause) → Subsumes d c → Subsumes e f → IsFullResolvent c f r → SubsumedByPair d e r }
{}

/// A resolvent of a tautology and another clause is a tautology, or the other clause subsumes it.
pub fn resolvents_of_tautologies()
    ensures first { (c d r : Clause) → IsTautology c → IsFullResolvent c d r → IsTautology r ⊎ Subsumes d r }
    ensures second { (c d r : Clause) → IsTautology d → IsFullResolvent c d r → IsTautology r ⊎ Subsumes c r }
{}

/// The tests say what they are for, on clauses.
pub fn tests()
    ensures subsumption { (c d : Clause) → IsClause c → (subsumes c d ≡ true) ↔ Subsumes c d }
    ensures tautology { (c : Clause) → (is_tautology c ≡ true) ↔ IsTautology c }
    ensures cover { (ks : List Clause) → All IsClause ks → (c : Clause) → (is_covered ks c ≡ true) ↔ IsCovered (Contains ks) c }
    ensures closed { (ks : List Clause) → All IsClause ks → (is_closed ks ≡ true) ↔ IsClosed (Contains ks) }
{}

/// The choices of a list are its sublists that aren't empty, and with one formula more at the end there are, beside the sublists from before,
/// these with that formula at their ends.
pub fn choices_of_atoms()
    ensures not_empty { (fs gs : List Formula) → Contains (choices fs) gs ↔ (Contains (sublists fs) gs × (gs ≢ [])) }
    ensures one_more { (fs : List Formula) (f : Formula) (hs : List Formula) → Contains (sublists (fs ++ f ∷ [])) hs ↔ (Contains (sublists fs) hs ⊎ ((gs : List Formula) × Contains (sublists fs) gs × (hs ≡ gs ++ f ∷ []))) }
{}

/// The list of full resolvents of two clauses has full resolvents alone, and each one is a variant of some in the list. It does not matter how
/// the clauses are renamed apart, nor which most general unifier is taken.
pub fn lists_of_full_resolvents()
    ensures sound { (c d : Clause) → IsClause c → IsClause d → (r : Clause) → Contains (full_resolvents c d) r → IsFullResolvent c d r }
    ensures complete { (c d r : Clause) → IsFullResolvent c d r → VariantOf (Contains (full_resolvents c d)) r }
    ensures sound_apart { (c d p n : Clause) → IsVariant c p → IsVariant d n → AreApart p n → IsClause c → IsClause d → (r : Clause) → Contains (resolvents_apart p n) r → IsFullResolvent c d r }
    ensures sound_choice { (c d p n : Clause) → IsVariant c p → IsVariant d n → AreApart p n → (fs gs : List Formula) → Contains (choices (set.listing p.right)) fs → Contains (choices (set.listing n.left)) gs → (m : Variable → Option Term) (b : Formula) → is_atom b ≡ true → IsMostGeneral m (set_of (fs ++ gs)) b → IsFullResolvent c d (resolvent (image_sequent m p) (image_sequent m n) b) }
    ensures complete_choice { (c d p n r : Clause) → IsVariant c p → IsVariant d n → AreApart p n → IsFullResolvent c d r → ByChoice p n r }
    ensures complete_apart { (c d p n r : Clause) → IsVariant c p → IsVariant d n → AreApart p n → IsFullResolvent c d r → VariantOf (Contains (resolvents_apart p n)) r }
{}

/// Each clause has a variant whose variables are V0, V1, .. up to some last one.
pub fn numbered_variables()
    ensures variant { (c : Clause) → IsVariant c (normal c) }
    ensures numbers { (c : Clause) → IsNormal (normal c) }
{}

/// A list covers its own clauses, what a list covers that it covers, and what a clause subsumes that it covers, and the empty clause only where
/// it has that. With its full resolvents it covers each resolvent of clauses that it covers, and so another list with its full resolvents where it
/// covers that list.
pub fn covering()
    ensures own { (ks : List Clause) (c : Clause) → Contains ks c → IsCovered (Contains ks) c }
    ensures transitive { (js ks : List Clause) → Covers (Contains js) (Contains ks) → (c : Clause) → IsCovered (Contains ks) c → IsCovered (Contains js) c }
    ensures subsumed { (ks : List Clause) (c d : Clause) → IsCovered (Contains ks) c → Subsumes c d → IsCovered (Contains ks) d }
    ensures of_empty { (ks : List Clause) → IsCovered (Contains ks) empty → Contains ks empty }
    ensures on_an_atom { (ks : List Clause) (c d : Clause) (a : Formula) → is_atom a ≡ true → IsCovered (Contains ks) c → IsCovered (Contains ks) d → IsCovered (WithResolvents (Contains ks)) (resolvent c d a) }
    ensures resolvents { (js ks : List Clause) → Covers (Contains js) (Contains ks) → Covers (WithResolvents (Contains js)) (WithResolvents (Contains ks)) }
{}

/// Full resolvents are covered where those of the list of them are, and only those with a new clause are to be looked at where those of two
/// old ones are covered.
pub fn covering_resolvents()
    ensures listed { (js ks : List Clause) → Covers (Contains js) (Contains (resolvents_of ks)) → Covers (Contains js) (ResolventOf (Contains ks)) }
    ensures new { (js ks olds news : List Clause) → ((c : Clause) → Contains ks c → Contains olds c ⊎ Contains news c) → Covers (Contains js) (ResolventOf (Contains olds)) → Covers (Contains js) (ResolventWith (Contains ks) (Contains news)) → Covers (Contains js) (ResolventOf (Contains ks)) }
{}

/// What a number of rounds reach: clauses, with each clause its variants, with each number all that fewer rounds reach, and all full resolvents
/// of what one round less reaches.
pub fn reached_clauses()
    ensures input { (cs : List Clause) (c : Clause) → Contains cs c → Level cs 0 c }
    ensures variant { (cs : List Clause) (n : ℕ) (c d : Clause) → Level cs n c → IsVariant c d → Level cs n d }
    ensures later { (cs : List Clause) (n j : ℕ) (c : Clause) → Level cs n c → Level cs (j + n) c }
    ensures full_resolvent { (cs : List Clause) (n : ℕ) (c d r : Clause) → Level cs n c → Level cs n d → IsFullResolvent c d r → Level cs (suc n) r }
    ensures clause { (cs : List Clause) → All IsClause cs → (n : ℕ) (c : Clause) → Level cs n c → IsClause c }
{}

/// Dropping what is covered loses no round: a list that covers the input covers all of its variants. Where a list covers what some rounds reach,
/// one that covers it with its full resolvents covers what one round more reaches, and if it is closed itself, it covers all later rounds.
pub fn covered_rounds()
    ensures input { (cs ks : List Clause) → Covers (Contains ks) (Contains cs) → Covers (Contains ks) (Level cs 0) }
    ensures next { (cs js ks : List Clause) (n : ℕ) → Covers (Contains ks) (Level cs n) → Covers (Contains js) (WithResolvents (Contains ks)) → Covers (Contains js) (Level cs (suc n)) }
    ensures closed { (cs ks : List Clause) → IsClosed (Contains ks) → (n : ℕ) → Covers (Contains ks) (Level cs n) → (j : ℕ) → Covers (Contains ks) (Level cs (j + n)) }
{}

/// A list of reached clauses that covers all of them is closed exactly where these are, and has the empty clause exactly where it is reached. Where
/// what is reached is closed, further rounds reach nothing that it doesn't cover, and leave it closed.
pub fn closed_sets()
    ensures closed { (cs ks : List Clause) (n : ℕ) → Covers (Contains ks) (Level cs n) → ((c : Clause) → Contains ks c → Level cs n c) → IsClosed (Contains ks) ↔ IsClosed (Level cs n) }
    ensures of_empty { (cs ks : List Clause) (n : ℕ) → Covers (Contains ks) (Level cs n) → ((c : Clause) → Contains ks c → Level cs n c) → Contains ks empty ↔ Level cs n empty }
    ensures no_more { (cs : List Clause) (n : ℕ) → IsClosed (Level cs n) → (j : ℕ) → Covers (Level cs n) (Level cs (j + n)) }
    ensures still_closed { (cs : List Clause) (n : ℕ) → IsClosed (Level cs n) → (j : ℕ) → IsClosed (Level cs (j + n)) }
{}

/// Forward and backward subsumption: the clauses that are kept cover those before and the new ones, are some of them, and stay without
/// tautologies and without clauses that another one subsumes.
pub fn kept_clauses()
    ensures one_covers { (ks : List Clause) → All IsClause ks → (c : Clause) → IsClause c → Covers (Contains (with_clause ks c)) (Contains (c ∷ ks)) }
    ensures one_has { (ks : List Clause) (c d : Clause) → Contains (with_clause ks c) d → Contains (c ∷ ks) d }
    ensures one_reduced { (ks : List Clause) → All IsClause ks → (c : Clause) → IsClause c → IsReduced ks → IsReduced (with_clause ks c) }
    ensures each_covers { (ks cs : List Clause) → All IsClause ks → All IsClause cs → Covers (Contains (with_each ks cs)) (Contains (ks ++ cs)) }
    ensures each_has { (ks cs : List Clause) (d : Clause) → Contains (with_each ks cs) d → Contains (ks ++ cs) d }
    ensures each_reduced { (ks cs : List Clause) → All IsClause ks → All IsClause cs → IsReduced ks → IsReduced (with_each ks cs) }
{}

/// What is kept after some rounds covers all that these reach and is reached by them, has numbered variables and no needless clause. It is
/// closed exactly where what is reached is, and has the empty clause exactly where that is reached.
pub fn kept_rounds()
    ensures covers { (cs : List Clause) → All IsClause cs → (n : ℕ) → Covers (Contains (rounds cs n)) (Level cs n) }
    ensures reached { (cs : List Clause) → All IsClause cs → (n : ℕ) → All (Level cs n) (rounds cs n) }
    ensures reduced { (cs : List Clause) → All IsClause cs → (n : ℕ) → IsReduced (rounds cs n) }
    ensures numbered { (cs : List Clause) → All IsClause cs → (n : ℕ) → All IsNormal (rounds cs n) }
    ensures closed { (cs : List Clause) → All IsClause cs → (n : ℕ) → (is_closed (rounds cs n) ≡ true) ↔ IsClosed (Level cs n) }
    ensures of_empty { (cs : List Clause) → All IsClause cs → (n : ℕ) → Contains (rounds cs n) empty ↔ Level cs n empty }
{}

/// There is a saturation exactly where what is reached is closed and has no empty clause, and what is kept is one. A saturation stays one after
/// further rounds.
pub fn saturations()
    ensures closed { (cs : List Clause) (n : ℕ) (ks : List Clause) → IsSaturation cs n ks → IsClosed (Level cs n) }
    ensures not_empty { (cs : List Clause) (n : ℕ) (ks : List Clause) → IsSaturation cs n ks → Level cs n empty → ⊥ }
    ensures kept { (cs : List Clause) → All IsClause cs → (n : ℕ) → IsClosed (Level cs n) → (Level cs n empty → ⊥) → IsSaturation cs n (rounds cs n) }
    ensures later { (cs : List Clause) (n : ℕ) (ks : List Clause) → IsSaturation cs n ks → (j : ℕ) → IsSaturation cs (j + n) ks }
{}
