//! The laws of interpolation. Each function does nothing: its contract is the law.
ghost use Rattle.std.specs.Prelude.{◌≡◌, ℕ, ◌^◌, ◌<◌, ◌≤◌, true, false, List, ◌++◌, Option, ◌↔◌, None, Ok};
ghost use Rattle.fol.specs.declared.symbols.Var.{Var as Variable};
ghost use Rattle.fol.specs.Syntax.{Pred, Formula};
ghost use Rattle.fol.specs.Formed.{IsFormed};
ghost use Rattle.finite.specs.Finite as set;
ghost use Rattle.free_variables.specs.Occurrence.{is_free_in, is_pred_in};
ghost use Rattle.substitution.specs.Closing.{closed_over};
ghost use Rattle.substitution.specs.Instance.{nesting};
ghost use Rattle.lk_rules.specs.declared.sequent.Sequent.{Sequent as Conclusion};
ghost use Rattle.lk_rules.specs.declared.sequent.Side.{Side as Place};
ghost use Rattle.lk_rules.specs.declared.sequent.Side.TheVariants.{Left, Right};
ghost use Rattle.lk_rules.specs.declared.rule.Rule.{Rule as Inference};
ghost use Rattle.lk_rules.specs.declared.rule.Rule.TheVariants.{Ax, Weak};
ghost use Rattle.lk_rules.specs.RuleOrder.{variable_of};
ghost use Rattle.lk_rules.specs.Sequents.{adds_to, is_free_in_sequent, union_sequent};
ghost use Rattle.proof_trees.specs.Trees.{Tree as Proof, node, Trees as Proofs, none, more, concl, IsValid, IsCutFree, size};
ghost use Rattle.proof_trees.specs.Occurrence.{is_pred_in_sequent, has_body_in_sequent};
ghost use Rattle.proof_trees.specs.Shapes.{height};
ghost use Rattle.cut_laws.specs.Contraction.{moved_rule};
ghost use Rattle.interp_laws.specs.Interpolation.{Interpolation, part_of, at_leaf, at_axiom, moved_tree, first_above, second_above, above, above_one, inferred, quantifier_of, closed_by, vars_to_close, over_one, joined, has_main, by_rule, itp_within, itp};
ghost use Rattle.interp_laws.specs.Parts.{HasParts, IsFormedSequent};
ghost use Rattle.interp_laws.specs.Interpolating.{first_difference, interpolating};

/// The proofs that interpolation gives: of the first part with the interpolant on the right, and of the second part with it on the left.
/// They have no cuts, and are valid where the interpolant is well formed.
pub fn proofs()
    ensures ends { (t : Proof) (one two : Conclusion) → HasParts t one two → let i = itp t one two in (concl i.first ≡ adds_to one Right i.formula) × (concl i.second ≡ adds_to two Left i.formula) }
    ensures cut_free { (t : Proof) (one two : Conclusion) → HasParts t one two → IsCutFree (itp t one two).first × IsCutFree (itp t one two).second }
    ensures valid { (t : Proof) (one two : Conclusion) → HasParts t one two → IsFormed (itp t one two).formula → IsValid (itp t one two).first × IsValid (itp t one two).second }
{}

/// Each predicate symbol of the interpolant is one of both parts, if none of the proof's conclusion has a body. Each variable that is free in
/// it is free in both. It is well formed unless 2^32 or more quantifiers stand inside one another in it, which no index would count.
pub fn interpolants()
    ensures predicates { (t : Proof) (one two : Conclusion) → HasParts t one two → has_body_in_sequent (concl t) ≡ false → (q : Pred) → is_pred_in q (itp t one two).formula ≡ true → (is_pred_in_sequent q one ≡ true) × (is_pred_in_sequent q two ≡ true) }
    ensures variables { (t : Proof) (one two : Conclusion) → HasParts t one two → (v : Variable) → is_free_in v (itp t one two).formula ≡ true → (is_free_in_sequent v one ≡ true) × (is_free_in_sequent v two ≡ true) }
    ensures formed { (t : Proof) (one two : Conclusion) → HasParts t one two → nesting (itp t one two).formula < 2 ^ 32 → IsFormed (itp t one two).formula }
{}

/// The interpolation is by the last rule and the interpolations of its premises: of an axiom, of weakening, and of a rule with a main formula.
/// Any bound on the height that is high enough gives it.
pub fn steps()
    ensures rule { (t : Proof) (one two : Conclusion) → itp t one two ≡ by_rule itp t one two }
    ensures axiom { (a : Formula) (s : Conclusion) (ts : Proofs) (one two : Conclusion) → itp (node (Ax a) s ts) one two ≡ at_axiom a one two (set.has one.left a) (set.has one.right a) }
    ensures weakening { (s : Conclusion) (p : Proof) (one two : Conclusion) → itp (node Weak s (more p none)) one two ≡ itp p one two }
    ensures leaf { (r : Inference) (s : Conclusion) (one two : Conclusion) → has_main r ≡ true → itp (node r s none) one two ≡ at_leaf (part_of r one) r one two }
    ensures one_premise { (r : Inference) (s : Conclusion) (p : Proof) (one two : Conclusion) → has_main r ≡ true → let m = part_of r one in itp (node r s (more p none)) one two ≡ over_one m (moved_rule (union_sequent one two) r) one two (above_one itp m r p one two) }
    ensures two_premises { (r : Inference) (s : Conclusion) (p q : Proof) (one two : Conclusion) → has_main r ≡ true → let m = part_of r one in itp (node r s (more p (more q none))) one two ≡ joined m r one two (above itp m r 0 p one two) (above itp m r 1 q one two) }
    ensures any_bound { (n : ℕ) (t : Proof) (one two : Conclusion) → height t ≤ n → itp t one two ≡ itp_within n t one two }
{}

/// What interpolation asks for holds of the premises and their parts too. A premise whose eigenvariable is renamed is as high as before.
pub fn premises()
    ensures weakening { (s : Conclusion) (p : Proof) (one two : Conclusion) → HasParts (node Weak s (more p none)) one two → HasParts p one two }
    ensures one_premise { (m : Place) (r : Inference) (s : Conclusion) (p : Proof) (one two : Conclusion) → HasParts (node r s (more p none)) one two → let e = union_sequent one two in let q = moved_rule e r in HasParts (moved_tree e (variable_of r) p) (first_above m q 0 one) (second_above m q 0 two) }
    ensures first_of_two { (m : Place) (r : Inference) (s : Conclusion) (p q : Proof) (one two : Conclusion) → HasParts (node r s (more p (more q none))) one two → HasParts p (first_above m r 0 one) (second_above m r 0 two) }
    ensures second_of_two { (m : Place) (r : Inference) (s : Conclusion) (p q : Proof) (one two : Conclusion) → HasParts (node r s (more p (more q none))) one two → HasParts q (first_above m r 1 one) (second_above m r 1 two) }
    ensures height { (e : Conclusion) (y : Option Variable) (p : Proof) → height (moved_tree e y p) ≡ height p }
{}

/// The quantifiers that are added make the closure of the interpolant. The proofs are valid from the innermost quantifier on, where the
/// closure that is reached is well formed.
pub fn quantifiers()
    ensures closure { (m : Place) (one two : Conclusion) (xs : List Variable) (i : Interpolation) → (closed_by m one two xs i).formula ≡ closed_over (quantifier_of m) xs i.formula }
    ensures valid { (r : Inference) (s : Conclusion) (p : Proof) (one two : Conclusion) → HasParts (node r s (more p none)) one two → has_main r ≡ true → (xs ys : List Variable) → let m = part_of r one in let q = moved_rule (union_sequent one two) r in let i = above_one itp m r p one two in xs ++ ys ≡ vars_to_close m q one two i → let j = closed_by m one two ys (inferred m q one two i) in IsFormed j.formula → IsValid j.first × IsValid j.second }
{}

/// No formula is named exactly where two sequents are equal.
pub fn differences()
    ensures equal { (s t : Conclusion) → (first_difference s t ≡ None) ↔ (s ≡ t) }
{}

/// What isn't refused is the interpolation by two parts that make up the end sequent, in which no symbol has a body, of a tree within the
/// budget. If the proof is valid and the parts are well formed, it is as interpolation asks for.
pub fn interpolations()
    ensures interpolation { (t : Proof) (one two : Conclusion) (n : ℕ) (i : Interpolation) → interpolating t one two n ≡ Ok i → i ≡ itp t one two }
    ensures parts { (t : Proof) (one two : Conclusion) (n : ℕ) (i : Interpolation) → IsValid t → IsFormedSequent one → IsFormedSequent two → interpolating t one two n ≡ Ok i → HasParts t one two }
    ensures union { (t : Proof) (one two : Conclusion) (n : ℕ) (i : Interpolation) → interpolating t one two n ≡ Ok i → union_sequent one two ≡ concl t }
    ensures bodies { (t : Proof) (one two : Conclusion) (n : ℕ) (i : Interpolation) → interpolating t one two n ≡ Ok i → has_body_in_sequent (concl t) ≡ false }
    ensures budget { (t : Proof) (one two : Conclusion) (n : ℕ) (i : Interpolation) → interpolating t one two n ≡ Ok i → size t ≤ n }
{}
