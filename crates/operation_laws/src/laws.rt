//! The laws of the operations. Each function does nothing: its contract is the laws.
ghost use Rattle.std.specs.Prelude.{◌≡◌, ◌↔◌, ◌≤◌, ℕ, true, length, List, Option, Ok, IfSome};
ghost use Rattle.std.specs.List.{All};
ghost use Rattle.fol.specs.declared.symbols.Var.{Var as Variable};
ghost use Rattle.fol.specs.Syntax.{Pred, Formula};
ghost use Rattle.fol.specs.Formed.{IsFormed};
ghost use Rattle.lk_rules.specs.Rules.{IsFormedRule};
ghost use Rattle.lk_rules.specs.declared.sequent.Sequent.{Sequent as Conclusion};
ghost use Rattle.proof_trees.specs.Trees.{Tree, IsValid};
ghost use Rattle.proof_trees.specs.Conclusions.{EachNode, HasFormedEnd};
ghost use Rattle.def_laws.specs.Definitions.{definition};
ghost use Rattle.def_laws.specs.Flat.{flat};
ghost use Rattle.def_laws.specs.Nodes.{nodes_of};
ghost use Rattle.def_laws.specs.Defining.{max_nodes, defining};
ghost use Rattle.def_laws.specs.Unfolded.{flat_rule, unfolded};
ghost use Rattle.interp_laws.specs.Interpolation.{Interpolation};
ghost use Rattle.interp_laws.specs.Parts.{IsFormedSequent};
ghost use Rattle.interp_laws.specs.Interpolating.{interpolating};
ghost use Rattle.herbrand_laws.specs.Herbrand.{Item, herbrand_sequent};
ghost use Rattle.herbrand_laws.specs.Counted.{counted};
ghost use Rattle.introduction_laws.specs.Instancing.{instancing};
ghost use Rattle.job_lang.specs.declared.jobs.Op.{Op as Operation};
ghost use Rattle.job_lang.specs.FormedOps.{IsFormedOp};
ghost use Rattle.reply_lines.specs.Replies.{is_ok_outcome};
ghost use Rattle.reply_lines.specs.OneLine.{is_want};
ghost use Rattle.reply_lines.specs.Shown.{AreAlike};
ghost use Rattle.operation_laws.specs.Values.{Value, IsSound};
ghost use Rattle.operation_laws.specs.Answers.{Product as Made, Answer, lacking, product, shown, held, proofs_in, capped, Asked, May};
ghost use Rattle.operation_laws.specs.Given.{names_in};
ghost use Rattle.operation_laws.specs.Running.{run, HasOneAnswer};
ghost use Rattle.operation_laws.specs.Claims.{IsInterpolated, IsHerbrandOf, IsUnfolded, Claims};

// What an interpolation of a valid proof by well-formed parts is, where the interpolant is well formed.
fn interpolations()
    ensures { (t : Tree) (one two : Conclusion) (n : ℕ) (i : Interpolation) → IsValid t → IsFormedSequent one → IsFormedSequent two
        → interpolating t one two n ≡ Ok i → IsFormed i.formula → IsInterpolated t one two i.formula i.first i.second }
{
    interp_laws::laws::interpolations();
    interp_laws::laws::proofs();
    interp_laws::laws::interpolants();
}

// What the Herbrand sequent of a valid proof is.
fn herbrand_sequents()
    ensures { (t : Tree) (n : ℕ) (items : List Item) → IsValid t → instancing t n ≡ Ok items → IsHerbrandOf t (capped (counted items)) (herbrand_sequent items) }
{
    introduction_laws::laws::instancings();
}

// What a symbol is that stands for a formula.
fn definings()
    ensures { (name : List ℕ) (vs : List Variable) (f : Formula) (p : Pred) → defining name vs f ≡ Ok p
        → (p ≡ definition name vs f) × (nodes_of (flat f) ≤ max_nodes) }
{
    def_laws::laws::answers_to_definitions();
}

// What a valid proof is with all defined symbols unfolded, where that names what is well formed.
fn unfoldings()
    ensures { (t : Tree) → IsValid t → HasFormedEnd t → EachNode (λ r s. IsFormedRule (flat_rule r)) t → IsUnfolded t (unfolded t) }
{
    def_laws::laws::unfolded_trees();
}

/// Over sound values each operation makes what it claims, each proof in its product is valid, and what the job holds is sound.
pub fn claims()
    ensures claimed { (op : Operation) (vs : List (Option Value)) (made : Made) → IsFormedOp op → length vs ≡ length (names_in op)
        → All (λ v. IfSome v IsSound) vs → May (run op vs) (product made) → Claims op vs made }
    ensures valid { (op : Operation) (vs : List (Option Value)) (made : Made) → IsFormedOp op → All (λ v. IfSome v IsSound) vs
        → May (run op vs) (product made) → All IsValid (proofs_in made) }
    ensures sound { (op : Operation) (vs : List (Option Value)) (a : Answer) → IsFormedOp op → All (λ v. IfSome v IsSound) vs
        → May (run op vs) a → IsSound (held a) }
{
    exp_tree::laws::readings();
    expansion_laws::laws::checks();
    extraction_laws::laws::extractions();
    building_laws::laws::buildings();
    interpolations();
    herbrand_sequents();
    introduction_laws::laws::introductions();
    def_laws::laws::marking();
    definings();
    unfoldings();
}

/// What is replied is want of memory exactly where memory ran out, and no error exactly where it shows a product. Of what may be answered to an
/// operation the reply's line tells which it was; where the operation has one answer, want of memory tells it alone.
pub fn replies()
    ensures want { (a : Answer) → (is_want (shown a) ≡ true) ↔ (a ≡ lacking) }
    ensures one { (asked : Asked) (a b : Answer) → May asked a → May asked b → AreAlike (shown a) (shown b) → a ≡ b }
    ensures determined { (op : Operation) (vs : List (Option Value)) (a b : Answer) → HasOneAnswer op → May (run op vs) a → May (run op vs) b
        → is_want (shown a) ≡ is_want (shown b) → a ≡ b }
    ensures ok { (a : Answer) → (is_ok_outcome (shown a) ≡ true) ↔ ((made : Made) × (a ≡ product made)) }
{}
