//! The laws of unfolding all defined symbols. Each function does nothing: its contract is the law.
ghost use Rattle.std.specs.Prelude.{◌≡◌, ◌↔◌, ℕ, ◌+◌, ◌^◌, ◌<◌, ◌≤◌, true, false, not, ◌&&◌, List, [], length, map, Option, Some, IfSome, option_map, Ok, Err};
ghost use Rattle.std.specs.List.{All};
ghost use Rattle.fol.specs.declared.symbols.Sym.{Sym as Symbol};
ghost use Rattle.fol.specs.declared.symbols.Var.{Var as Variable};
ghost use Rattle.fol.specs.Syntax.{Term, Terms, Pred, Formula, free, pred, defined, atom, all, ex};
ghost use Rattle.fol.specs.Facts.{formula_size, formula_dangling, is_open, has_body};
ghost use Rattle.fol.specs.Formed.{count_terms, leading_all, is_name, is_formed_at, IsFormed, IsFormedPred};
ghost use Rattle.finite.specs.Finite as set;
ghost use Rattle.free_variables.specs.Fresh.{is_among};
ghost use Rattle.free_variables.specs.Grade.{grade_of};
ghost use Rattle.free_variables.specs.Occurrence.{is_free_in};
ghost use Rattle.substitution.specs.Closed.{are_closed_terms_at, is_closed_at, IsClosedTerm, IsClosedMap};
ghost use Rattle.substitution.specs.Closing.{closed_over};
ghost use Rattle.substitution.specs.Image.{image, image_terms};
ghost use Rattle.substitution.specs.Instance.{inst_terms_at, inst_at, inst, bind, nesting};
ghost use Rattle.substitution.specs.Unfolding.{put_at, matrix_under, unf};
ghost use Rattle.lk_rules.specs.declared.sequent.Side.{Side as Place};
ghost use Rattle.lk_rules.specs.declared.rule.Rule.{Rule as Inference};
ghost use Rattle.lk_rules.specs.declared.sequent.Sequent.{Sequent as Conclusion};
ghost use Rattle.lk_rules.specs.RuleOrder.{formula_of};
ghost use Rattle.lk_rules.specs.Rules.{IsFormedRule, is_unfolding_rule, has_shape, aux, Row};
ghost use Rattle.lk_rules.specs.Sequents.{side_of, is_free_in_sequent};
ghost use Rattle.proof_trees.specs.Trees.{Tree as Proof, Trees as Premises, concl, IsInference, IsValid, cut_free as is_cut_free, size as size_of, cuts as cuts_of, quants as quants_of};
ghost use Rattle.proof_trees.specs.Shapes.{height};
ghost use Rattle.proof_trees.specs.Conclusions.{EachNode, IsFormedSequent, HasFormedEnd};
ghost use Rattle.def_laws.specs.declared.fault.DefFault.TheVariants.{Free, Large};
ghost use Rattle.def_laws.specs.Definitions.{definition, given};
ghost use Rattle.def_laws.specs.Nodes.{nodes_of};
ghost use Rattle.def_laws.specs.Marking.{marked, marked_sequent, marked_rule};
ghost use Rattle.def_laws.specs.Defining.{max_nodes, defining, IsFreeWithin, IsLeastFree};
ghost use Rattle.def_laws.specs.Flat.{lifted_terms, lifted_put, flat, flat_sequent};
ghost use Rattle.def_laws.specs.Instances.{instances};
ghost use Rattle.def_laws.specs.Steps.{UnfoldsAll};
ghost use Rattle.def_laws.specs.Unfolded.{flat_rule, unfolded, unfolded_all, HasNoBody};

/// The law of unfolding: putting all arguments at once for the leading universal quantifiers is one instance after the other. So it is with
/// the unfolding of an atom.
pub fn one_instance_after_the_other()
    ensures arguments { (ts : Terms) (f : Formula) → are_closed_terms_at 0 ts ≡ true → count_terms ts ≤ leading_all f → put_at ts (count_terms ts) (matrix_under ts f) ≡ instances ts f }
    ensures unfolding { (s : Symbol) (f : Formula) (ts : Terms) → IsFormed (atom (pred s (defined f)) ts) → unf (atom (pred s (defined f)) ts) ≡ Some (instances ts f) }
{}

/// Lifting by no quantifier changes nothing, lifting by some after others is lifting by all, and a term without an index stays as it is.
pub fn lifting()
    ensures none { (ts : Terms) → lifted_terms 0 ts ≡ ts }
    ensures in_a_row { (j k : ℕ) (ts : Terms) → lifted_terms j (lifted_terms k ts) ≡ lifted_terms (k + j) ts }
    ensures closed { (k : ℕ) (ts : Terms) → are_closed_terms_at 0 ts ≡ true → lifted_terms k ts ≡ ts }
{}

/// Arguments without an index need no lifting, and a formula none of whose indices reaches the arguments stays as it is. Instances and
/// images of a formula with arguments put into it have those of the arguments.
pub fn arguments_with_indices()
    ensures closed { (us : Terms) (l : ℕ) (f : Formula) → are_closed_terms_at 0 us ≡ true → lifted_put us l f ≡ put_at us l f }
    ensures untouched { (us : Terms) (l : ℕ) (f : Formula) → formula_dangling f + count_terms us ≤ l → lifted_put us l f ≡ f }
    ensures instance { (u : Term) → IsClosedTerm u → (us : Terms) (f : Formula) (k l : ℕ) → l ≤ k + count_terms us → is_closed_at l f ≡ true → inst_at u k (lifted_put us l f) ≡ lifted_put (inst_terms_at u k us) l f }
    ensures image { (m : Variable → Option Term) → IsClosedMap m → (us : Terms) (l : ℕ) (f : Formula) → is_open f ≡ false → image m (lifted_put us l f) ≡ lifted_put (image_terms m us) l f }
{}

/// No predicate symbol of a formula with all unfolded has a body, and where none had one it is the formula itself.
pub fn bodies_unfolded()
    ensures none_left { (f : Formula) → has_body (flat f) ≡ false }
    ensures unchanged { (f : Formula) → has_body f ≡ false → flat f ≡ f }
{}

/// Unfolding of all defined symbols commutes with instances and with images.
pub fn unfolded_instances_and_images()
    ensures instance { (u : Term) → IsClosedTerm u → (f : Formula) (k j : ℕ) → is_formed_at j f ≡ true → flat (inst_at u k f) ≡ inst_at u k (flat f) }
    ensures image { (m : Variable → Option Term) → IsClosedMap m → (f : Formula) (j : ℕ) → is_formed_at j f ≡ true → flat (image m f) ≡ image m (flat f) }
{}

/// What is free in a formula with all unfolded is free in the formula. The converse is false, since an argument may stand nowhere in a body.
pub fn free_variables_of_unfolded()
    ensures formula { (v : Variable) (f : Formula) (k : ℕ) → is_formed_at k f ≡ true → is_free_in v (flat f) ≡ true → is_free_in v f ≡ true }
    ensures none { (f : Formula) (k : ℕ) → is_formed_at k f ≡ true → is_open f ≡ false → is_open (flat f) ≡ false }
    ensures sequent { (v : Variable) (s : Conclusion) → IsFormedSequent s → is_free_in_sequent v (flat_sequent s) ≡ true → is_free_in_sequent v s ≡ true }
{}

/// A well-formed formula with all unfolded is well formed, where no more than 2 ^ 32 quantifiers stand inside one another: so it is where
/// the formula has no more than so many nodes, with those of its bodies.
pub fn unfolded_is_well_formed()
    ensures formed { (f : Formula) (k : ℕ) → k + nesting (flat f) ≤ 2 ^ 32 → is_formed_at k f ≡ true → is_formed_at k (flat f) ≡ true }
    ensures closed { (f : Formula) (k : ℕ) → is_formed_at k f ≡ true → is_closed_at k (flat f) ≡ true }
    ensures grade { (f : Formula) → grade_of (flat f) ≤ grade_of f }
    ensures nesting { (f : Formula) → nesting (flat f) ≤ grade_of f }
    ensures size { (f : Formula) → nesting (flat f) ≤ formula_size f }
    ensures sequent { (s : Conclusion) → IsFormedSequent s → ((side : Place) (f : Formula) → set.has (side_of s side) f ≡ true → nesting (flat f) ≤ 2 ^ 32) → IsFormedSequent (flat_sequent s) }
{}

/// An atom and its unfolding are the same with all unfolded. Under a quantifier a variable that isn't free there stands for the bound one
/// and is bound again. These steps determine the result on well-formed formulas.
pub fn unfolding_step_by_step()
    ensures atom { (f : Formula) → IsFormed f → IfSome (unf f) (λ g. flat g ≡ flat f) }
    ensures universal { (y : Variable) (f : Formula) (k : ℕ) → is_formed_at k (all f) ≡ true → is_free_in y f ≡ false → flat (all f) ≡ all (bind (flat (inst f (free y))) y) }
    ensures existential { (y : Variable) (f : Formula) (k : ℕ) → is_formed_at k (ex f) ≡ true → is_free_in y f ≡ false → flat (ex f) ≡ ex (bind (flat (inst f (free y))) y) }
    ensures steps { UnfoldsAll flat }
    ensures nothing_else { (g : Formula → Formula) → UnfoldsAll g → (f : Formula) → IsFormed f → g f ≡ flat f }
{}

/// A right inference with all unfolded is right. Its auxiliary formulas are the old ones unfolded, where the rule doesn't unfold an atom
/// itself. What it names is well formed, where few enough quantifiers stand inside one another.
pub fn unfolded_inferences()
    ensures row { (r : Inference) (s : Conclusion) (n : ℕ) (first second : Option Conclusion) → IsFormedRule r → IsFormedSequent s → Row r s n first second → Row (flat_rule r) (flat_sequent s) n (option_map flat_sequent first) (option_map flat_sequent second) }
    ensures inference { (r : Inference) (s : Conclusion) (ts : Premises) → IsFormedSequent s → IsFormedRule (flat_rule r) → IsInference r s ts → IsInference (flat_rule r) (flat_sequent s) (unfolded_all ts) }
    ensures auxiliary_formulas { (r : Inference) (i : ℕ) (side : Place) → IsFormedRule r → is_unfolding_rule r ≡ false → has_shape r ≡ true → aux (flat_rule r) i side ≡ map flat (aux r i side) }
    ensures formed { (r : Inference) → IfSome (formula_of r) (λ a. nesting (flat a) ≤ 2 ^ 32) → IsFormedRule r → IsFormedRule (flat_rule r) }
{}

/// A valid tree with all unfolded is valid exactly where its rules name well-formed formulas. Its conclusion is the old one unfolded, and it
/// has as many nodes, cuts and quantifier rules, and the same height. No predicate symbol in it has a body, and where none had one it is the
/// tree itself.
pub fn unfolded_trees()
    ensures valid { (t : Proof) → IsValid t → HasFormedEnd t → IsValid (unfolded t) ↔ EachNode (λ r s. IsFormedRule (flat_rule r)) t }
    ensures rules { (t : Proof) → IsValid t → EachNode (λ r s. IfSome (formula_of r) (λ a. nesting (flat a) ≤ 2 ^ 32)) t → EachNode (λ r s. IsFormedRule (flat_rule r)) t }
    ensures end { (t : Proof) → concl (unfolded t) ≡ flat_sequent (concl t) }
    ensures formed_end { (t : Proof) → HasFormedEnd t → ((side : Place) (f : Formula) → set.has (side_of (concl t) side) f ≡ true → nesting (flat f) ≤ 2 ^ 32) → HasFormedEnd (unfolded t) }
    ensures size { (t : Proof) → size_of (unfolded t) ≡ size_of t }
    ensures cuts { (t : Proof) → cuts_of (unfolded t) ≡ cuts_of t }
    ensures quants { (t : Proof) → quants_of (unfolded t) ≡ quants_of t }
    ensures cut_free { (t : Proof) → is_cut_free (unfolded t) ≡ is_cut_free t }
    ensures height { (t : Proof) → height (unfolded t) ≡ height t }
    ensures none_left { (t : Proof) → EachNode HasNoBody (unfolded t) }
    ensures unchanged { (t : Proof) → EachNode HasNoBody t → unfolded t ≡ t }
{}

/// The universal closure of a formula begins with a quantifier for each variable, and what is free there is free in the formula and isn't one
/// of those variables.
pub fn closures()
    ensures quantifiers { (vs : List Variable) (f : Formula) → length vs ≤ leading_all (closed_over all vs f) }
    ensures free { (w : Variable) (vs : List Variable) (f : Formula) → is_free_in w (closed_over all vs f) ≡ (is_free_in w f && not (is_among w vs)) }
    ensures none_free { (vs : List Variable) (f : Formula) → ((w : Variable) → is_free_in w f ≡ true → is_among w vs ≡ true) → is_open (closed_over all vs f) ≡ false }
{}

/// A symbol that stands for a formula is well formed where the formula is, with no free variable but those of the arguments. The unfolding
/// of its atom is the formula with the arguments for these variables.
pub fn definitions()
    ensures formed { (name : List ℕ) (vs : List Variable) (f : Formula) → is_name name ≡ true → length vs + nesting f < 2 ^ 32 → IsFormed f → ((w : Variable) → is_free_in w f ≡ true → is_among w vs ≡ true) → IsFormedPred (definition name vs f) }
    ensures unfolding { (name : List ℕ) (vs : List Variable) (f : Formula) (ts : Terms) → is_closed_at 0 f ≡ true → count_terms ts ≡ length vs → unf (atom (definition name vs f) ts) ≡ Some (image (given vs ts) f) }
    ensures unfolded { (name : List ℕ) (vs : List Variable) (f : Formula) (ts : Terms) → IsFormed f → IsFormed (atom (definition name vs f) ts) → flat (atom (definition name vs f) ts) ≡ image (given vs ts) (flat f) }
{}

/// Marking by well-formed symbols keeps what is well formed. It keeps the free variables, does nothing where no symbol is given, and nothing
/// more the second time.
pub fn marking()
    ensures formed { (ds : List Pred) (k : ℕ) (f : Formula) → All IsFormedPred ds → is_formed_at k f ≡ true → is_formed_at k (marked ds f) ≡ true }
    ensures sequent { (ds : List Pred) (s : Conclusion) → All IsFormedPred ds → IsFormedSequent s → IsFormedSequent (marked_sequent ds s) }
    ensures rule { (ds : List Pred) (r : Inference) → All IsFormedPred ds → IsFormedRule r → IsFormedRule (marked_rule ds r) }
    ensures free_variables { (ds : List Pred) (v : Variable) (f : Formula) → is_free_in v (marked ds f) ≡ is_free_in v f }
    ensures none { (f : Formula) → marked [] f ≡ f }
    ensures twice { (ds : List Pred) (f : Formula) → marked ds (marked ds f) ≡ marked ds f }
{}

/// A formula has more nodes than quantifiers inside one another, and with all unfolded it has no fewer quantifiers inside one another.
pub fn nodes()
    ensures quantifiers { (f : Formula) → nesting f < nodes_of f }
    ensures unfolded { (f : Formula) → nesting f ≤ nesting (flat f) }
{}

/// There is a definition exactly where no variable is free outside the list and the formula with all unfolded has few enough nodes. A fault
/// names the least variable that is free outside the list, or there is none and the formula has too many nodes.
pub fn answers_to_definitions()
    ensures defined { (name : List ℕ) (vs : List Variable) (f : Formula) (p : Pred) → (defining name vs f ≡ Ok p) ↔ (IsFreeWithin vs f × (nodes_of (flat f) ≤ max_nodes) × (p ≡ definition name vs f)) }
    ensures free { (name : List ℕ) (vs : List Variable) (f : Formula) (v : Variable) → (defining name vs f ≡ Err (Free v)) ↔ IsLeastFree vs f v }
    ensures large { (name : List ℕ) (vs : List Variable) (f : Formula) → (defining name vs f ≡ Err Large) ↔ (IsFreeWithin vs f × (max_nodes < nodes_of (flat f))) }
    ensures quantifiers { (name : List ℕ) (vs : List Variable) (f : Formula) (p : Pred) → defining name vs f ≡ Ok p → nesting f < 10000 }
    ensures formed { (name : List ℕ) (vs : List Variable) (f : Formula) (p : Pred) → is_name name ≡ true → IsFormed f → length vs + 10000 < 2 ^ 32 → defining name vs f ≡ Ok p → IsFormedPred p }
{}
