//! The laws of images of refutations' proofs. Each function does nothing: its contract is the law.
ghost use Rattle.std.specs.Prelude.{◌≡◌, ℕ, true, List, map, Some, slice_get};
ghost use Rattle.std.specs.FinMap as fin;
ghost use Rattle.std.specs.List.{All};
ghost use Rattle.fol.specs.declared.symbols.Var.{Var as Variable};
ghost use Rattle.fol.specs.Syntax.{free};
ghost use Rattle.substitution.specs.Closed.{IsClosedMap};
ghost use Rattle.substitution.specs.Image.{image_term};
ghost use Rattle.substitution.specs.Maps.{Map};
ghost use Rattle.lk_rules.specs.Sequents.{is_free_in_sequent, union_sequent, image_sequent};
ghost use Rattle.proof_trees.specs.Trees.{Tree as Proof};
ghost use Rattle.proof_trees.specs.FreeVariables.{is_free_in_tree};
ghost use Rattle.proof_trees.specs.Substitution.{sub};
ghost use Rattle.refutations.specs.declared.clause.Clause.{Clause as InputClause};
ghost use Rattle.refutations.specs.declared.step.ResStep.{ResStep};
ghost use Rattle.refutations.specs.Clauses.{literals_of, IsClauseOf, closure_of, closures};
ghost use Rattle.refutations.specs.Refutations.{Derived, of_input, AreFormedSteps};
ghost use Rattle.image_laws.specs.Rigid.{IsRigid};
ghost use Rattle.image_laws.specs.Steps.{all_derived, AreDerived};
ghost use Rattle.image_laws.specs.Terms.{over_terms};

/// In a tree that names no eigenvariable, two maps in a row are one map that does to each free variable what both do.
pub fn maps_in_a_row()
    ensures { (t : Proof) (g h k : Map) → IsRigid t → ((v : Variable) → is_free_in_tree v t ≡ true → image_term (fin.get h) (image_term (fin.get g) (free v)) ≡ image_term (fin.get k) (free v)) → sub (sub t g) h ≡ sub t k }
{}

/// The proof of an input clause under a map has the map's terms where the variables of the closure are instantiated, and what is free in the
/// clause's own proof is free in its literals.
pub fn input_clauses()
    ensures image { (cs : List InputClause) → All IsClauseOf cs → (i : ℕ) (c : InputClause) → slice_get cs i ≡ Some c → (m : Map) → IsClosedMap (fin.get m) → sub (of_input (closures cs) c).tree m ≡ over_terms (union_sequent (closures cs) (image_sequent (fin.get m) (literals_of c.matrix))) (map (λ (x : Variable). image_term (fin.get m) (free x)) c.vars) (closure_of c) }
    ensures variables { (cs : List InputClause) → All IsClauseOf cs → (i : ℕ) (c : InputClause) → slice_get cs i ≡ Some c → (v : Variable) → is_free_in_tree v (of_input (closures cs) c).tree ≡ true → is_free_in_sequent v (literals_of c.matrix) ≡ true }
{}

/// What well-formed steps derive has proofs that name no eigenvariable.
pub fn derived_proofs()
    ensures { (cs : List InputClause) (steps : List ResStep) → AreFormedSteps steps → AreDerived cs steps → (k : ℕ) (d : Derived) → slice_get (all_derived cs steps) k ≡ Some d → IsRigid d.tree }
{}
