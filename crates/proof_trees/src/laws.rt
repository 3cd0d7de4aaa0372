//! The laws of one inference. Each function does nothing: its contract is the law.
ghost use Rattle.std.specs.Prelude.{◌≡◌, ◌↔◌, ℕ, true, false, ◌||◌, map, Option, option_map};
ghost use Rattle.std.specs.FinMap as fin;
ghost use Rattle.std.specs.List.{All};
ghost use Rattle.fol.specs.declared.symbols.Var.{Var as Variable};
ghost use Rattle.finite.specs.Finite as set;
ghost use Rattle.substitution.specs.Closed.{IsClosedMap};
ghost use Rattle.fol.specs.Syntax.{Pred, free};
ghost use Rattle.substitution.specs.Image.{image, image_term, IsFormedMap};
ghost use Rattle.substitution.specs.Maps.{Map};
ghost use Rattle.lk_rules.specs.declared.sequent.Side.{Side as Place};
ghost use Rattle.lk_rules.specs.declared.rule.Rule.{Rule as Inference};
ghost use Rattle.lk_rules.specs.declared.sequent.Sequent.{Sequent as Conclusion};
ghost use Rattle.lk_rules.specs.Sequents.{side_of, is_free_in_sequent, image_sequent, IsSubsequent};
ghost use Rattle.lk_rules.specs.Rules.{IsFormedRule, is_unfolding_rule, needs, has_shape, main, aux, eigen_free, verdict_of, Row};
ghost use Rattle.proof_trees.specs.Trees.{Tree as Proof, concl, IsValid, IsCutFree, is_cut, cut_free as is_cut_free, size as size_of, cuts as cuts_of, quants as quants_of, ArePremises, IsSmaller};
ghost use Rattle.proof_trees.specs.Shapes.{height, is_alike};
ghost use Rattle.proof_trees.specs.FreeVariables.{is_free_in_tree};
ghost use Rattle.proof_trees.specs.Substitution.{image_rule, premise_map, sub};
ghost use Rattle.proof_trees.specs.Occurrence.{is_chosen, is_free_in_rule, is_pred_in_rule, is_pred_in_sequent, has_body_in_sequent, IsPlainNode};
ghost use Rattle.proof_trees.specs.Conclusions.{EachNode, IsFormedSequent, HasFormedEnd};

/// A right inference stays right with a larger conclusion, if its eigenvariable isn't free there.
pub fn larger_conclusion()
    ensures { (r : Inference) (s t : Conclusion) (n : ℕ) (first second : Option Conclusion) → Row r s n first second → IsSubsequent s t → eigen_free r t ≡ false → Row r t n first second }
{}

/// A right inference stays right with premises whose conclusions are subsequents of the old ones.
pub fn smaller_premises()
    ensures { (r : Inference) (s : Conclusion) (n : ℕ) (first second new_first new_second : Option Conclusion) → Row r s n first second → IsSmaller new_first first → IsSmaller new_second second → Row r s n new_first new_second }
{}

/// The check of an inference finds no fault exactly where the inference is right.
pub fn faultless_inferences()
    ensures { (r : Inference) (s : Conclusion) (n : ℕ) (first second : Option Conclusion) → (verdict_of r s n first second ≡ Ok tt) ↔ Row r s n first second }
{}

/// What is free in a premise is free in the conclusion or in what the rule names. Without a cut it is free in the conclusion, stands in
/// the rule's term or is the eigenvariable.
pub fn free_in_premises()
    ensures any_rule { (v : Variable) (r : Inference) (s : Conclusion) (n : ℕ) (first second : Option Conclusion) → IsFormedRule r → Row r s n first second → ArePremises first second (λ x. is_free_in_sequent v x ≡ true → (is_free_in_sequent v s || is_free_in_rule v r) ≡ true) }
    ensures without_cut { (v : Variable) (r : Inference) (s : Conclusion) (n : ℕ) (first second : Option Conclusion) → IsFormedRule r → Row r s n first second → is_cut r ≡ false → ArePremises first second (λ x. is_free_in_sequent v x ≡ true → (is_free_in_sequent v s || is_chosen v r) ≡ true) }
{}

/// A predicate symbol of a premise is one of the conclusion or of the rule's formula, and without a cut one of the conclusion, if the
/// rule unfolds no atom. One with a body is there wherever the rule isn't a cut, whatever it unfolds.
pub fn predicates_in_premises()
    ensures any_rule { (q : Pred) (r : Inference) (s : Conclusion) (n : ℕ) (first second : Option Conclusion) → is_unfolding_rule r ≡ false → Row r s n first second → ArePremises first second (λ x. is_pred_in_sequent q x ≡ true → (is_pred_in_sequent q s || is_pred_in_rule q r) ≡ true) }
    ensures without_cut { (q : Pred) (r : Inference) (s : Conclusion) (n : ℕ) (first second : Option Conclusion) → is_unfolding_rule r ≡ false → Row r s n first second → is_cut r ≡ false → ArePremises first second (λ x. is_pred_in_sequent q x ≡ true → is_pred_in_sequent q s ≡ true) }
    ensures bodies { (r : Inference) (s : Conclusion) (n : ℕ) (first second : Option Conclusion) → Row r s n first second → is_cut r ≡ false → ArePremises first second (λ x. has_body_in_sequent x ≡ true → has_body_in_sequent s ≡ true) }
    ensures unfolded { (r : Inference) (s : Conclusion) (n : ℕ) (first second : Option Conclusion) → Row r s n first second → is_cut r ≡ false → is_unfolding_rule r ≡ true → has_body_in_sequent s ≡ true }
{}

/// In a valid tree whose end sequent is well formed all conclusions are. In a valid tree without cuts whose end sequent has no predicate
/// symbol with a body no conclusion has one, and no rule unfolds an atom.
pub fn conclusions_in_trees()
    ensures formed { (t : Proof) → IsValid t → HasFormedEnd t → EachNode (λ r s. IsFormedSequent s) t }
    ensures without_bodies { (t : Proof) → IsValid t → IsCutFree t → has_body_in_sequent (concl t) ≡ false → EachNode IsPlainNode t }
{}

/// The image of a right inference under a map is right, by the rule under the map, with the premises under the map in which the
/// eigenvariable has its new name. Its parts: as many premises, the same connective, main formulas and auxiliary formulas that are the
/// images of the old ones, and a new eigenvariable that isn't free in the new conclusion.
pub fn image_of_inference()
    ensures row { (m : Map) (r : Inference) (s : Conclusion) (n : ℕ) (first second : Option Conclusion) → IsClosedMap (fin.get m) → IsFormedRule r → Row r s n first second → let e = image_sequent (fin.get m) s in let g = fin.get (premise_map m r e) in Row (image_rule m r e) e n (option_map (image_sequent g) first) (option_map (image_sequent g) second) }
    ensures premises { (m : Map) (r : Inference) (e : Conclusion) → needs (image_rule m r e) ≡ needs r }
    ensures shape { (m : Map) (r : Inference) (e : Conclusion) → has_shape (image_rule m r e) ≡ has_shape r }
    ensures main_formulas { (m : Map) (r : Inference) (e : Conclusion) (side : Place) → main (image_rule m r e) side ≡ map (image (fin.get m)) (main r side) }
    ensures auxiliary_formulas { (m : Map) (r : Inference) (s e : Conclusion) (i : ℕ) (side : Place) → IsClosedMap (fin.get m) → IsFormedRule r → ((p : Place) → All (λ f. set.has (side_of s p) f ≡ true) (main r p)) → eigen_free r s ≡ false → aux (image_rule m r e) i side ≡ map (image (fin.get (premise_map m r e))) (aux r i side) }
    ensures eigenvariable { (m : Map) (r : Inference) (e : Conclusion) → eigen_free (image_rule m r e) e ≡ false }
    ensures formed { (m : Map) (r : Inference) (e : Conclusion) → IsFormedMap (fin.get m) → IsFormedRule r → IsFormedRule (image_rule m r e) × IsFormedMap (fin.get (premise_map m r e)) }
{}

/// A tree under a map of well-formed terms is valid, its conclusion is the image of the conclusion, and it has as many nodes, cuts and
/// quantifier rules. It has the same height, and at each place a rule of the same kind.
pub fn substitution_in_trees()
    ensures valid { (t : Proof) (m : Map) → IsFormedMap (fin.get m) → IsValid t → IsValid (sub t m) }
    ensures end { (t : Proof) (m : Map) → concl (sub t m) ≡ image_sequent (fin.get m) (concl t) }
    ensures size { (t : Proof) (m : Map) → size_of (sub t m) ≡ size_of t }
    ensures cuts { (t : Proof) (m : Map) → cuts_of (sub t m) ≡ cuts_of t }
    ensures quants { (t : Proof) (m : Map) → quants_of (sub t m) ≡ quants_of t }
    ensures cut_free { (t : Proof) (m : Map) → is_cut_free (sub t m) ≡ is_cut_free t }
    ensures height { (t : Proof) (m : Map) → height (sub t m) ≡ height t }
    ensures alike { (t : Proof) (m : Map) → is_alike t (sub t m) ≡ true }
{}

/// Maps that agree on the free variables of a tree make one tree of it.
pub fn agreeing_maps_in_trees()
    ensures { (t : Proof) (m n : Map) → ((v : Variable) → is_free_in_tree v t ≡ true → image_term (fin.get m) (free v) ≡ image_term (fin.get n) (free v)) → sub t m ≡ sub t n }
{}

/// A map that sends each free variable of a valid tree to itself leaves the tree as it is: so it is with the empty map.
pub fn needless_map_in_trees()
    ensures unchanged { (t : Proof) (m : Map) → IsValid t → ((v : Variable) → is_free_in_tree v t ≡ true → image_term (fin.get m) (free v) ≡ free v) → sub t m ≡ t }
    ensures empty { (t : Proof) → IsValid t → sub t fin.empty ≡ t }
{}
