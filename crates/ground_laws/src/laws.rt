//! The laws of models and refutations of ground clauses. Each function does nothing: its contract is the law.
ghost use Rattle.std.specs.Prelude.{◌≡◌, ℕ, suc, ◌<◌, ◌||◌, true, false, List, [], map, length, take, slice_get, Some, Ok};
ghost use Rattle.std.specs.List.{All, list_all, list_any};
ghost use Rattle.std.specs.Ordering.{eq_by_cmp};
ghost use Rattle.fol.specs.Syntax.{Formula};
ghost use Rattle.fol.specs.Facts.{is_open};
ghost use Rattle.fol.specs.Order.{formula_cmp};
ghost use Rattle.fol.specs.Formed.{IsFormed};
ghost use Rattle.finite.specs.Finite as set;
ghost use Rattle.lk_rules.specs.declared.sequent.Sequent.{Sequent as ClauseSequent};
ghost use Rattle.lk_rules.specs.declared.sequent.Side.TheVariants.{Left, Right};
ghost use Rattle.lk_rules.specs.Formulas.{FormulaSet};
ghost use Rattle.lk_rules.specs.Sequents.{empty, adds_to, is_subsequent, IsSubsequent};
ghost use Rattle.proof_trees.specs.Trees.{Tree as Proof, concl, IsValid};
ghost use Rattle.refutations.specs.declared.clause.Clause.{Clause as Disjunction};
ghost use Rattle.refutations.specs.Clauses.{is_clause, literals_of, IsClauseOf, closure_of, closures};
ghost use Rattle.refutations.specs.Refutations.{resolvent, refutation};
ghost use Rattle.ground_laws.specs.declared.step.SatStep.{SatStep as Inference};
ghost use Rattle.ground_laws.specs.declared.step.SatStep.TheVariants.{Input, Resolve};
ghost use Rattle.ground_laws.specs.Models.{is_ground_atom, is_ground, satisfies, occurs, IsModel};
ghost use Rattle.ground_laws.specs.Steps.{derives, refuted, IsRefutation, res_step, sequents_of, without_proof, names};
ghost use Rattle.ground_laws.specs.Deciding.{Known, IsKnown, inputs, with_step, Partial, Choice, others_than, visit, search_from, atoms_of, model, refuting, IsAnswer, answer_of, decide};

/// Each search comes to a model of the clauses or to a refutation, whatever atoms it takes: to the one that there is.
pub fn decided()
    ensures answer { (choose : Choice) (cs : List ClauseSequent) → IsAnswer cs (decide choose cs) }
    ensures satisfiable { (choose : Choice) (cs : List ClauseSequent) (a : FormulaSet) → list_all (satisfies a) cs ≡ true → (b : FormulaSet) × (decide choose cs ≡ model b) }
    ensures refutable { (choose : Choice) (cs : List ClauseSequent) (steps : List Inference) → IsRefutation cs steps → (found : List Inference) × (decide choose cs ≡ refuting found) }
{}

/// No clauses have both a model and a refutation: true atoms that satisfy two clauses satisfy their resolvent, and none satisfy the empty
/// clause.
pub fn never_both()
    ensures both { (a : FormulaSet) (cs : List ClauseSequent) (steps : List Inference) → IsModel a cs → IsRefutation cs steps → ⊥ }
    ensures satisfied { (a : FormulaSet) (cs : List ClauseSequent) (steps : List Inference) → list_all (satisfies a) cs ≡ true → IsRefutation cs steps → ⊥ }
    ensures resolvents { (a : FormulaSet) (p n : ClauseSequent) (x : Formula) → satisfies a p ≡ true → satisfies a n ≡ true → satisfies a (resolvent p n x) ≡ true }
    ensures empty { (a : FormulaSet) → satisfies a empty ≡ false }
{}

/// A search goes on by one turn, which gives a value to an atom of the list, so that fewer have none.
pub fn steps()
    ensures start { (choose : Choice) (cs : List ClauseSequent) → decide choose cs ≡ answer_of (search_from choose empty (atoms_of cs) (inputs cs)) }
    ensures turn { (choose : Choice) (r : Partial) (fs : List Formula) (k : Known) → search_from choose r fs k ≡ visit (search_from choose) choose r fs k }
    ensures falls { (a : Formula) (fs : List Formula) → list_any (eq_by_cmp formula_cmp a) fs ≡ true → length (others_than a fs) < length fs }
{}

/// What is derived: nothing without steps, the clauses themselves, and one clause more by each step without fault. The steps up to one whose
/// clause is empty are a refutation.
pub fn known_clauses()
    ensures nothing { (cs : List ClauseSequent) → IsKnown cs (record { steps = []; clauses = [] }) }
    ensures inputs { (cs : List ClauseSequent) → IsKnown cs (inputs cs) }
    ensures step { (cs : List ClauseSequent) (k : Known) (step : Inference) (c : ClauseSequent) → IsKnown cs k → derives cs k.clauses step ≡ Ok c → IsKnown cs (with_step k step c) }
    ensures input { (cs ds : List ClauseSequent) (i : ℕ) (c : ClauseSequent) → slice_get cs i ≡ Some c → derives cs ds (Input i) ≡ Ok c }
    ensures resolution { (cs ds : List ClauseSequent) (i n : ℕ) (a : Formula) (d c : ClauseSequent) → slice_get ds i ≡ Some d → slice_get ds n ≡ Some c → set.has d.right a ≡ true → set.has c.left a ≡ true → derives cs ds (Resolve i n a) ≡ Ok (resolvent d c a) }
    ensures refutation { (cs : List ClauseSequent) (k : Known) (n : ℕ) → IsKnown cs k → slice_get k.clauses n ≡ Some empty → IsRefutation cs (take (suc n) k.steps) }
{}

/// Clauses that are false where some atoms have values. Of two that are false with an atom true and with it false, the resolvent is false
/// before, and one that does not have the atom is so itself. With no values only the empty clause is false, and where each atom of the clauses
/// has a value and none of them is false, the true atoms are a model.
pub fn false_clauses()
    ensures resolvent { (r : Partial) (x : Formula) (p n : ClauseSequent) → IsSubsequent n (adds_to r Left x) → IsSubsequent p (adds_to r Right x) → IsSubsequent (resolvent p n x) r }
    ensures not_left { (r : Partial) (x : Formula) (c : ClauseSequent) → IsSubsequent c (adds_to r Left x) → set.has c.left x ≡ false → IsSubsequent c r }
    ensures not_right { (r : Partial) (x : Formula) (c : ClauseSequent) → IsSubsequent c (adds_to r Right x) → set.has c.right x ≡ false → IsSubsequent c r }
    ensures start { (c : ClauseSequent) → IsSubsequent c empty → c ≡ empty }
    ensures model { (r : Partial) (cs : List ClauseSequent) → ((f : Formula) → set.has r.left f ≡ true → occurs cs f ≡ true) → ((f : Formula) → occurs cs f ≡ true → (set.has r.left f || set.has r.right f) ≡ true) → list_any (λ c. is_subsequent c r) cs ≡ false → IsModel r.left cs }
{}

/// The literals of a disjunction without variables are a ground clause, and where clauses are ground, so is each atom that stands in them.
pub fn ground_clauses()
    ensures literals { (f : Formula) → is_clause f ≡ true → is_open f ≡ false → is_ground (literals_of f) ≡ true }
    ensures atoms { (cs : List ClauseSequent) (f : Formula) → list_all is_ground cs ≡ true → occurs cs f ≡ true → is_ground_atom f ≡ true }
{}

/// Refutations of ground clauses among those in which variables are replaced as well: they have the same faults, resolve on atoms of the
/// clauses alone, and stand for a valid proof of the closures of the clauses on the left and nothing on the right.
pub fn proofs()
    ensures faults { (cs : List Disjunction) (steps : List Inference) → refuted (sequents_of cs) steps ≡ without_proof (refutation cs (map res_step steps)) }
    ensures atoms { (cs : List ClauseSequent) (f : Formula) (steps : List Inference) → IsRefutation cs steps → list_any (names f) steps ≡ true → occurs cs f ≡ true }
    ensures proof { (cs : List Disjunction) (steps : List Inference) → All IsClauseOf cs → All (λ c. IsFormed (closure_of c)) cs → IsRefutation (sequents_of cs) steps → (t : Proof) × (refutation cs (map res_step steps) ≡ Ok t) × IsValid t × (concl t ≡ closures cs) }
{}
