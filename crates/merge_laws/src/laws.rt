//! The laws of united marks and merged trees. Each function does nothing: its contract is the law.
ghost use Rattle.std.specs.Prelude.{◌≡◌, ◌||◌, ℕ, true, false, List};
ghost use Rattle.std.specs.FinMap as fin;
ghost use Rattle.fol.specs.declared.symbols.Var.{Var as Variable};
ghost use Rattle.finite.specs.Finite as set;
ghost use Rattle.substitution.specs.Closed.{IsClosedMap};
ghost use Rattle.substitution.specs.Maps.{Map};
ghost use Rattle.lk_rules.specs.declared.sequent.Sequent.{Sequent as Conclusion};
ghost use Rattle.lk_rules.specs.declared.rule.Rule.{Rule as Inference};
ghost use Rattle.proof_trees.specs.Trees.{Tree as Proof, node, none, more, concl, IsValid, IsCutFree};
ghost use Rattle.proof_trees.specs.Occurrence.{has_body_in_sequent};
ghost use Rattle.extraction_laws.specs.Addresses.{Address, root};
ghost use Rattle.extraction_laws.specs.States.{State, unmarked, tree_at};
ghost use Rattle.extraction_laws.specs.Extraction.{vars_in, Context, walked, marks_of, extracted};
ghost use Rattle.extraction_laws.specs.Images.{HaveImages};
ghost use Rattle.exp_tree.specs.Merging.{merged, CanMerge};
ghost use Rattle.merge_laws.specs.United.{united, IsPrefixClosed, HaveSameVariables};
ghost use Rattle.merge_laws.specs.Inferences.{with_names, by_premise, AreReached, read_off, merged_expansion};

/// United marks are those of either state, and of two states with the same variables it is no matter which is the first.
pub fn unions()
    ensures used { (x y : State) (a : Address) → set.has (united x y).opened a ≡ (set.has x.opened a || set.has y.opened a) }
    ensures instances { (x y : State) (a : Address) → set.has (united x y).instances a ≡ (set.has x.instances a || set.has y.instances a) }
    ensures swap { (x y : State) → x.names ≡ y.names → united x y ≡ united y x }
{}

/// The tree that is read off united marks, at each address, is the merge of those that are read off either, if the addresses with marks are
/// closed under prefixes in both and strong quantifiers have the same variables. The two trees can be merged: they are of one formula, stand
/// on one side, and have equal variables at equal places.
pub fn merges()
    ensures trees { (vs : List Variable) (x y : State) (a : Address) → IsPrefixClosed x → IsPrefixClosed y → HaveSameVariables vs x y → tree_at vs (united x y) a ≡ merged (tree_at vs x a) (tree_at vs y a) }
    ensures can { (vs : List Variable) (x y : State) (a : Address) → HaveSameVariables vs x y → CanMerge (tree_at vs x a) (tree_at vs y a) }
{}

/// The marks that a proof adds depend on the variables that were given before, and on no other marks. A variable that the proof gives may
/// have been given before. The addresses with marks of a valid proof without cuts, in whose end sequent no symbol has a body, are closed
/// under prefixes.
pub fn walks()
    ensures united { (vs : List Variable) (t : Proof) (m : Map) (c : Context) (x y : State) → walked vs t m c (united x y) ≡ united (walked vs t m c x) y }
    ensures names { (vs : List Variable) (t : Proof) (m : Map) (c : Context) (x : State) → walked vs t m c (with_names (walked vs t m c x).names x) ≡ walked vs t m c x }
    ensures closed { (t : Proof) → IsValid t → IsCutFree t → has_body_in_sequent (concl t) ≡ false → IsPrefixClosed (marks_of t) }
{}

/// Where all variables have been given before, the marks of an inference with two premises are those of its rule and either premise alone,
/// united. So each tree is the merge of those that come of either premise: in a valid proof without cuts, in whose end sequent no symbol has a
/// body, if the addresses of its formulas have their images and are reached.
pub fn inferences()
    ensures marks { (vs : List Variable) (r : Inference) (s : Conclusion) (p q : Proof) (m : Map) (c : Context) (x : State) → (walked vs (node r s (more p (more q none))) m c x).names ≡ x.names → walked vs (node r s (more p (more q none))) m c x ≡ united (by_premise vs r s m c 0 p x) (by_premise vs r s m c 1 q x) }
    ensures trees { (vs : List Variable) (r : Inference) (s : Conclusion) (p q : Proof) (m : Map) (c : Context) (x : State) (a : Address) → let t = node r s (more p (more q none)) in (walked vs t m c x).names ≡ x.names → IsValid t → IsCutFree t → has_body_in_sequent s ≡ false → IsClosedMap (fin.get m) → HaveImages m c s → AreReached x c s → IsPrefixClosed x → tree_at vs (walked vs t m c x) a ≡ merged (tree_at vs (by_premise vs r s m c 0 p x) a) (tree_at vs (by_premise vs r s m c 1 q x) a) }
{}

/// The expansion that is extracted from a valid proof without cuts, in whose end sequent no symbol has a body and whose last inference has two
/// premises, is the merge, tree by tree, of the expansions that come of its rule and either premise alone, with the variables of the whole proof.
pub fn extractions()
    ensures { (r : Inference) (s : Conclusion) (p q : Proof) → let t = node r s (more p (more q none)) in let x = with_names (marks_of t).names unmarked in IsValid t → IsCutFree t → has_body_in_sequent s ≡ false → extracted t ≡ merged_expansion (read_off (vars_in t) (by_premise (vars_in t) r s fin.empty root 0 p x) s) (read_off (vars_in t) (by_premise (vars_in t) r s fin.empty root 1 q x) s) }
{}
